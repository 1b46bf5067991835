// A table of letter numbers, one for each place that a word may have.
ghost use Rattle.std.specs.Prelude.{◌≡◌, replicate};
ghost use Rattle.pauli.specs.Limits.{max_places};
ghost use Rattle.pauli.specs.Tables.{entry, put};

use super::MAX_PLACES;
use super::places::{entry_at, put_entry};

// A plain table of numbers in fixed memory, as the cards' interface fixes it, and so with functions of its own; what it shares with other
// tables is in `places`.
#[derive(Clone, Copy)]
pub struct Letters {
    pub numbers: [u8; MAX_PLACES],
}

impl Letters {
    // All I.
    pub fn blank() -> Letters
        ensures { result.numbers ≡ replicate max_places 0 }
    {
        Letters {
            numbers: [0; MAX_PLACES],
        }
    }

    // The number at a place from 1, and 0 at a place that the table does not have.
    pub fn at(&self, place: usize) -> u8
        ensures { result ≡ entry self.now.numbers place 0 }
    {
        entry_at(&self.numbers, place, 0)
    }

    // Puts a number at a place from 1; a place that the table does not have is passed over.
    pub fn put(&mut self, place: usize, number: u8)
        ensures { self.new.numbers ≡ put self.old.numbers place number }
    {
        put_entry(&mut self.numbers, place, number);
    }
}
