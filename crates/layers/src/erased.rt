// A layer that takes the price off every letter at its marked places.
ghost use Rattle.std.specs.Prelude.{◌≡◌};
ghost use Rattle.layers.specs.Layers.{erased};

use super::marks::Marks;
use channel::Channel;
use measure::Measure;

#[derive(Clone, Copy)]
pub struct Erased<C> {
    below: C,
    marks: Marks,
}

impl<C: Channel> Erased<C> {
    // The channel below, but for the marked places. What is handed in is what is kept, as in each constructor of a layer.
    pub fn new(below: C, marks: Marks) -> Erased<C>
        ensures below { result.below ≡ below }
        ensures marks { result.marks ≡ marks }
    {
        Erased { below, marks }
    }
}

impl<C: Channel> Channel for Erased<C> {
    type Measure = C::Measure;

    ghost prices = { λ c. erased C.Measure.scale c.marks.marks (C.prices c.below) };

    ghost few = { λ c. C.few c.below };

    fn priced(&self) -> usize {
        self.below.priced()
    }

    fn price(&self, place: usize, letter: u8) -> C::Measure {
        if self.marks.has(place) {
            C::Measure::start()
        } else {
            self.below.price(place, letter)
        }
    }
}
