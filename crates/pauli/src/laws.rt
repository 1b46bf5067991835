// A function that stands for a theorem, which is its contract.
ghost use Rattle.pauli.specs.Laws.{WordLaws};

// Words of one length are a vector space over the two-element field, and the parity of clashes is a form on it.
#[tactic(auto, using(crate::proofs::WordLaws::word_laws))]
pub fn words_lawful()
    ensures { WordLaws }
{}
