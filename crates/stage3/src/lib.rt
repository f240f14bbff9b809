// The third stage, with both sources closed: the pairs that are still owed, and the rows that no partner came for.
#![tactic(auto)]

pub mod draining;
pub mod listing;
