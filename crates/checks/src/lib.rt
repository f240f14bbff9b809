// What a call tests before it does anything, and how it is answered where a test fails.
#![tactic(auto)]

pub mod jobs;
pub mod refusals;
