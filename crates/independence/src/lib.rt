// What is proved of independent rows. Each function stands for a theorem, which is its contract.
#![tactic(auto)]

ghost use Rattle.independence.specs.Independence.{Explained};
ghost use Rattle.independence.specs.Pivots.{SumsDecided};

// Independent rows explain every syndrome.
#[tactic(auto, using(crate::proofs::Independence::explained))]
pub fn syndromes_explained()
    ensures { Explained }
{}

// Elimination decides whether a word is a sum of rows, and which.
#[tactic(auto, using(crate::proofs::Pivots::sums_decided))]
pub fn sums_decided()
    ensures { SumsDecided }
{}
