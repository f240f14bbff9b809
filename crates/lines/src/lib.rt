// The session program's lines: many of them, each answered once, wherever the input is cut.
#![tactic(auto)]

pub mod serving;
#[cfg(test)]
mod tests;
