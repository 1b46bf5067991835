// The table of a code: for each place the rows that clash there with X and with Z.
ghost use Rattle.std.specs.Ordering.{on};
ghost use Rattle.std.specs.Prelude.{◌≡◌, ◌<◌, ◌≤◌, length, replicate};
ghost use Rattle.columns.specs.Lemmas.{same_tables-laws, same_tables-equivalence};
ghost use Rattle.pauli.specs.Limits.{max_places, max_rows};
ghost use Rattle.pauli.specs.Text.{letters_of};
ghost use Rattle.columns.specs.Columns.{clashes, same_columns, with_row, hollow};

use crate::column::Column;
use pauli::MAX_PLACES;

#[derive(Clone, Copy)]
pub struct Columns {
    pub table: [Column; MAX_PLACES],
}

impl Columns {
    // No rows.
    pub fn blank() -> Columns
        ensures { result.table ≡ replicate max_places hollow }
    {
        Columns {
            table: [Column { x: 0, z: 0 }; MAX_PLACES],
        }
    }

    // Puts a word, by its letters' numbers, into a row, one column at a time.
    #[tactic(auto, using(crate::proofs::Steps::put_none, crate::proofs::Steps::put_more))]
    pub fn put_row(&mut self, row: usize, word: &[u8])
        requires { (row < max_rows) × (length word.now ≤ max_places) }
        ensures after { self.new.table ≡ with_row row (letters_of word.now) self.old.table }
        ensures long { length self.old.table ≡ max_places }
    {
        // By index: tried with a zip, and after one over columns that are lent to be written a proof knows nothing of the table.
        for (i, number) in word.iter().enumerate() {
            self.table[i].mark(row, *number);
        }
    }

    // The rows that do not commute with a word, by its letters' numbers.
    #[tactic(auto, using(crate::proofs::Steps::clashes_none, crate::proofs::Steps::clashes_more, crate::proofs::Steps::clashes_all))]
    pub fn clashes(&self, word: &[u8]) -> u64
        ensures { result ≡ clashes (letters_of word.now) self.now.table }
    {
        let mut odd = 0;
        for (column, number) in self.table.iter().zip(word) {
            odd ^= column.against(*number);
        }
        odd
    }
}

// By index, and not derived: the derived comparison of two arrays took twice the time.
impl PartialEq for Columns {
    ghost eq = { on (λ c. c.table) same_columns };

    ghost laws = { same_tables-laws };

    #[tactic(auto, using(crate::proofs::Comparing::other_column, crate::proofs::Comparing::all_columns))]
    fn eq(&self, other: &Columns) -> bool
        ensures { result ≡ same_columns self.now.table other.now.table }
    {
        for i in 0..MAX_PLACES {
            if self.table[i] != other.table[i] {
                return false;
            }
        }
        true
    }
}

impl Eq for Columns {
    ghost laws = { same_tables-equivalence };
}
