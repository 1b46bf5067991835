// A channel of values in a list that is handed in, four to a place.
ghost use Rattle.std.specs.Prelude.{◌≡◌};
ghost use Rattle.channel.specs.Channels.{tabled};
ghost use Rattle.std.proofs.Common.{rules};

use super::prices::Channel;
use measure::Measure;
use pauli::MAX_PLACES;

#[derive(Clone, Copy)]
pub struct Table<'a, M> {
    entries: &'a [M],
}

impl<'a, M: Measure> Table<'a, M> {
    // The prices of I, X, Y and Z at place 1, then those at place 2, and so on.
    pub fn new(entries: &'a [M]) -> Table<'a, M>
        ensures { result.entries.now ≡ entries.now }
    {
        Table { entries }
    }
}

impl<M: Measure> Channel for Table<'_, M> {
    type Measure = M;

    ghost prices = { λ c. tabled M.scale c.entries.now };

    ghost few = { Prim.search rules };

    fn priced(&self) -> usize {
        (self.entries.len() / 4).min(MAX_PLACES)
    }

    fn price(&self, place: usize, letter: u8) -> M {
        if (1..=self.priced()).contains(&place) && letter < 4 {
            // The list is the caller's memory, four values to a place in a row.
            self.entries[4 * (place - 1) + letter as usize]
        } else {
            M::start()
        }
    }
}
