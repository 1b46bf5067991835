// What a code answers: refusals and syndromes.
#![tactic(auto)]

mod refusal;
mod syndrome;

pub use refusal::Refusal;
pub use syndrome::Syndrome;
