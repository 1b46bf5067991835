// Tables with an entry for each place that a word may have, places counted from 1.
ghost use Rattle.std.specs.Prelude.{◌≡◌};
ghost use Rattle.pauli.specs.Tables.{entry, put};

use super::MAX_PLACES;

// The entry of a place, and the given value at a place that the table does not have.
pub fn entry_at<T: Copy>(entries: &[T; MAX_PLACES], place: usize, outside: T) -> T
    ensures { result ≡ entry entries.now place outside }
{
    if !(1..=MAX_PLACES).contains(&place) {
        return outside;
    }
    entries[place - 1]
}

// Puts an entry at a place; a place that the table does not have is passed over.
pub fn put_entry<T: Copy>(entries: &mut [T; MAX_PLACES], place: usize, new: T)
    ensures { entries.new ≡ put entries.old place new }
{
    if (1..=MAX_PLACES).contains(&place) {
        entries[place - 1] = new;
    }
}
