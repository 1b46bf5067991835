// Stabilizer codes: rows that commute, none a sum of those before it.
#![tactic(auto)]

mod code;

pub use answers::{Refusal, Syndrome};
pub use code::Code;
