// Whether a word is a sum of the rows of a table, and of which, by linear equations over the two-element field.
#![tactic(auto)]

mod equation;
mod sums;
mod system;

pub use sums::sum_of;
