// The largest of all prices. It and Sum are instances of one trait with its laws, and no twins: they differ in what joining does.
ghost use Rattle.measure.specs.Measures.{worsts, as_worst};
ghost use Rattle.std.proofs.Common.{rules};
ghost use Rattle.std.specs.Prelude.{◌≡◌, Some};
ghost use Rattle.std.specs.Fmt.{decimal};

use super::scale::Measure;
use super::sum::Sum;
use std::fmt;

#[derive(Clone, Copy, PartialEq, Eq, PartialOrd, Ord, Debug)]
pub struct Worst(pub u32);

impl Measure for Worst {
    ghost scale = { worsts };

    ghost lawful = { Prim.search rules };

    fn start() -> Worst {
        Worst(0)
    }

    fn join(self, other: Worst) -> Worst {
        self.max(other)
    }

    fn at_most(self, other: Worst) -> bool {
        self <= other
    }
}

// The same number, of which then only the largest counts.
impl From<Sum> for Worst {
    ghost from_gives = { λ sum worst. worst ≡ as_worst sum.0 };

    fn from(sum: Sum) -> Worst {
        Worst(sum.0)
    }
}

// The number, in decimal digits: each measure writes its own, so Sum and Worst each say so.
impl fmt::Display for Worst {
    ghost output = { λ m. Some (decimal m.0) };

    fn fmt<W: fmt::Write>(&self, f: &mut fmt::Formatter<W>) -> fmt::Result {
        write!(f, "{}", self.0)
    }
}
