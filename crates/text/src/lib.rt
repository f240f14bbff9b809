// Bytes, whatever they say: the fields and numbers of a line, the lines of an input, and texts put into buffers.
#![tactic(auto)]

pub mod fields;
pub mod gathering;
pub mod numbers;
pub mod putting;
#[cfg(test)]
mod tests;
pub mod texts;
