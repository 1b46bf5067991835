// A function that stands for a theorem, which is its contract.
ghost use Rattle.measure.specs.Scale.{Lawful};
ghost use Rattle.measure.specs.WorstThenSum.{worst_then_sum};

// To compare by the largest price first and then by the total is no measure.
pub fn worst_then_sum_unlawful()
    ensures { Lawful worst_then_sum → ⊥ }
{}
