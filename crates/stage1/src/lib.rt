// The first stage: a row arrives, is joined with the rows in memory and stored; a portion is flushed.
#![tactic(auto)]

pub mod arriving;
pub mod evicting;
mod looking;
