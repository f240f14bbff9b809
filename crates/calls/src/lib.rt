// The calls of the box: a session record by value, lent sheets, and an answer for every call.
#![tactic(auto)]

pub mod closing;
pub mod opening;
pub mod performing;
