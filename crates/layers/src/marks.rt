// A table of marks, one for each place that a word may have.
ghost use Rattle.std.specs.Prelude.{◌≡◌, true, false, replicate};
ghost use Rattle.pauli.specs.Limits.{max_places};
ghost use Rattle.pauli.specs.Tables.{entry, put};

use pauli::{MAX_PLACES, entry_at, put_entry};

// A plain table with functions of its own, as that of letters; what the two share is in pauli's `places`.
#[derive(Clone, Copy)]
pub struct Marks {
    marks: [bool; MAX_PLACES],
}

impl Marks {
    // No place is marked.
    pub fn none() -> Marks
        ensures { result.marks ≡ replicate max_places false }
    {
        Marks {
            marks: [false; MAX_PLACES],
        }
    }

    // Marks a place from 1; a place that the table does not have is passed over.
    pub fn mark(&mut self, place: usize)
        ensures { self.new.marks ≡ put self.old.marks place true }
    {
        put_entry(&mut self.marks, place, true);
    }

    // Whether a place is marked; none that the table does not have is.
    pub fn has(&self, place: usize) -> bool
        ensures { result ≡ entry self.now.marks place false }
    {
        entry_at(&self.marks, place, false)
    }
}
