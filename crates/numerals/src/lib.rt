// Numbers in a line of text.
#![tactic(auto)]

mod numbers;
mod words;

pub use numbers::{marks_in, prices_in};
