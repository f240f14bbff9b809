// The sheets: lent words that hold rows, probe lists and pairs.
#![tactic(auto)]

pub mod layout;
pub mod lists;
pub mod parts;
pub mod rows;
