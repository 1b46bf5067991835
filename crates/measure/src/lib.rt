// Measures: values that say how dear an error is.
#![tactic(auto)]

mod ranking;
mod scale;
mod sum;
mod worst;

pub use ranking::worst_then_sum_unlawful;
pub use scale::Measure;
pub use sum::Sum;
pub use worst::Worst;
