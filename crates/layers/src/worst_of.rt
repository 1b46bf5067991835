// A layer that replaces the measure: the prices of a channel of totals, of which only the largest counts.
ghost use Rattle.std.specs.Prelude.{◌≡◌};
ghost use Rattle.layers.specs.Layers.{worst_of};

use channel::Channel;
use measure::{Sum, Worst};

#[derive(Clone, Copy)]
pub struct WorstOf<C> {
    below: C,
}

impl<C: Channel<Measure = Sum>> WorstOf<C> {
    // The prices of the channel below.
    pub fn new(below: C) -> WorstOf<C>
        ensures { result.below ≡ below }
    {
        WorstOf { below }
    }
}

impl<C: Channel<Measure = Sum>> Channel for WorstOf<C> {
    type Measure = Worst;

    ghost prices = { λ c. worst_of (C.prices c.below) };

    ghost few = { λ c. C.few c.below };

    fn priced(&self) -> usize {
        self.below.priced()
    }

    fn price(&self, place: usize, letter: u8) -> Worst {
        Worst::from(self.below.price(place, letter))
    }
}
