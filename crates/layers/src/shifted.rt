// A layer that prices each letter as its sum with a letter of its own is priced below.
ghost use Rattle.std.specs.Prelude.{◌≡◌};
ghost use Rattle.layers.specs.Layers.{shifted};

use channel::Channel;
use measure::Measure;
use pauli::{Letters, sum};

#[derive(Clone, Copy)]
pub struct Shifted<C> {
    below: C,
    shifts: Letters,
}

impl<C: Channel> Shifted<C> {
    // The channel below, shifted at each place by the letter of the number's remainder by 4.
    pub fn new(below: C, shifts: Letters) -> Shifted<C>
        ensures below { result.below ≡ below }
        ensures shifts { result.shifts ≡ shifts }
    {
        Shifted { below, shifts }
    }
}

impl<C: Channel> Channel for Shifted<C> {
    type Measure = C::Measure;

    ghost prices = { λ c. shifted c.shifts.numbers (C.prices c.below) };

    ghost few = { λ c. C.few c.below };

    fn priced(&self) -> usize {
        self.below.priced()
    }

    fn price(&self, place: usize, letter: u8) -> C::Measure {
        if letter < 4 {
            self.below
                .price(place, sum(letter, self.shifts.at(place) % 4))
        } else {
            C::Measure::start()
        }
    }
}
