// The second stage: a run of a portion's spooled rows against the memory rows of the other source.
#![tactic(auto)]

pub mod running;
