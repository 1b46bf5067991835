// The total of all prices, capped at the largest number of 32 bits.
ghost use Rattle.measure.specs.Measures.{sums};
ghost use Rattle.std.proofs.Common.{rules};
ghost use Rattle.std.specs.Prelude.{Some};
ghost use Rattle.std.specs.Fmt.{decimal};

use super::scale::Measure;
use std::fmt;

#[derive(Clone, Copy, PartialEq, Eq, PartialOrd, Ord, Debug)]
pub struct Sum(pub u32);

impl Measure for Sum {
    ghost scale = { sums };

    ghost lawful = { Prim.search rules };

    fn start() -> Sum {
        Sum(0)
    }

    fn join(self, other: Sum) -> Sum {
        Sum(self.0.saturating_add(other.0))
    }

    fn at_most(self, other: Sum) -> bool {
        self <= other
    }
}

// The number, in decimal digits.
impl fmt::Display for Sum {
    ghost output = { λ m. Some (decimal m.0) };

    fn fmt<W: fmt::Write>(&self, f: &mut fmt::Formatter<W>) -> fmt::Result {
        write!(f, "{}", self.0)
    }
}
