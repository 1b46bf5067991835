// A channel of four values, the same at every place that a word may have.
ghost use Rattle.std.specs.Prelude.{◌≡◌};
ghost use Rattle.channel.specs.Channels.{flat};
ghost use Rattle.std.proofs.Common.{rules};

use super::prices::Channel;
use measure::Measure;
use pauli::MAX_PLACES;

#[derive(Clone, Copy)]
pub struct Flat<M> {
    values: [M; 4],
}

impl<M: Measure> Flat<M> {
    // The prices of I, X, Y and Z.
    pub fn new(values: [M; 4]) -> Flat<M>
        ensures { result.values ≡ values }
    {
        Flat { values }
    }
}

impl<M: Measure> Channel for Flat<M> {
    type Measure = M;

    ghost prices = { λ c. flat M.scale c.values };

    ghost few = { Prim.search rules };

    fn priced(&self) -> usize {
        MAX_PLACES
    }

    fn price(&self, place: usize, letter: u8) -> M {
        if (1..=self.priced()).contains(&place) && letter < 4 {
            self.values[letter as usize]
        } else {
            M::start()
        }
    }
}
