// A measure of a user's own, whose join is neither commutative nor associative, and whose start is no neutral value: each further
// price makes the earlier ones count double.
ghost use Rattle.channel_tests.specs.Fading.{fadings};
ghost use Rattle.std.proofs.Common.{rules};

use measure::Measure;

#[derive(Clone, Copy, PartialEq, Eq, PartialOrd, Ord, Debug)]
pub struct Fading(pub u32);

impl Measure for Fading {
    ghost scale = { fadings };

    ghost lawful = { Prim.search rules };

    fn start() -> Fading {
        Fading(1)
    }

    fn join(self, other: Fading) -> Fading {
        Fading(self.0.saturating_mul(2).saturating_add(other.0))
    }

    fn at_most(self, other: Fading) -> bool {
        self <= other
    }
}
