// The checks of a text before it becomes a row, and the syndrome of an error.
ghost use Rattle.std.specs.Prelude.{◌≡◌, ◌≤◌, length, is_some, nat_le};
ghost use Rattle.pauli.specs.Limits.{max_rows};
ghost use Rattle.pauli.specs.Words.{syndrome};
ghost use Rattle.pauli.specs.Text.{first, letters_of};
ghost use Rattle.independence.specs.Pivots.{is_sum};
ghost use Rattle.columns.specs.Masks.{set_of};
ghost use Rattle.answers.specs.Syndromes.{bits_of};
ghost use Rattle.code.specs.Codes.{places_of, rows_of};
ghost use Rattle.code.specs.Calls.{Told};
ghost use Rattle.code.specs.Checks.{word_in, SpeltOr, PassedOr};

use super::Code;
use answers::{Refusal, Syndrome};
use columns::mask::lowest;
use elimination::sum_of;
use pauli::{Letters, MAX_ROWS, read_word};

impl Code {
    // Whether there is no room for another row.
    fn is_full(&self) -> bool
        ensures { result ≡ nat_le max_rows (length (rows_of self.now)) }
    {
        self.rows() >= MAX_ROWS
    }

    // The letters of a text of the code's length.
    fn spell(&self, text: &[u8]) -> Result<Letters, Refusal>
        ensures { SpeltOr self.now text.now result }
    {
        if text.len() != self.places {
            return Err(Refusal::Length { length: text.len() });
        }
        Ok(read_word(text)?)
    }

    // The first letters of a table, as many as the code has places. A word is handed on as the whole table and cut only here: as a slice it would
    // need its length said in the contract of each check.
    pub(super) fn front<'a>(&self, word: &'a Letters) -> &'a [u8]
        ensures letters { letters_of result.now ≡ word_in self.now word.now }
        ensures long { length result.now ≡ places_of self.now }
    {
        &word.numbers[..self.places]
    }

    // The set of rows that do not commute with a word.
    #[tactic(auto, using(crate::proofs::Checking::odd_set, crate::proofs::Checking::odd_few))]
    fn odd_rows(&self, word: &Letters) -> u64
        ensures set { result ≡ set_of (syndrome (rows_of self.now) (word_in self.now word.now)) }
        ensures few { length (syndrome (rows_of self.now) (word_in self.now word.now)) ≤ max_rows }
    {
        self.columns.clashes(self.front(word))
    }

    // The lowest row, from 1, that does not commute with a word.
    fn first_clash(&self, word: &Letters) -> Option<usize>
        ensures { result ≡ first (syndrome (rows_of self.now) (word_in self.now word.now)) }
    {
        lowest(self.odd_rows(word))
    }

    // Whether a word is a sum of the rows.
    #[tactic(auto, using(crate::proofs::Checking::summed))]
    fn is_sum(&self, word: &Letters) -> bool
        ensures { result ≡ is_sum (rows_of self.now) (word_in self.now word.now) }
    {
        sum_of(&self.columns.table[..self.places], self.front(word)).is_some()
    }

    // The letters of a row's text that can be added: the checks in their order.
    #[tactic(auto, using(crate::proofs::Passing::row_full, crate::proofs::Passing::row_worded, crate::proofs::Passing::row_clash, crate::proofs::Passing::row_sum, crate::proofs::Passing::row_passed))]
    pub(super) fn check_row(&self, row: &[u8]) -> Result<Letters, Refusal>
        ensures { PassedOr self.now row.now result }
    {
        if self.is_full() {
            return Err(Refusal::Full { rows: MAX_ROWS });
        }
        let word = self.spell(row)?;
        if let Some(row) = self.first_clash(&word) {
            return Err(Refusal::Clash { row });
        }
        if self.is_sum(&word) {
            return Err(Refusal::Sum { row: self.rows + 1 });
        }
        Ok(word)
    }

    // The syndrome of a word.
    #[tactic(auto, using(crate::proofs::Checking::told_bits))]
    fn tell(&self, word: &Letters) -> Syndrome
        ensures { bits_of result ≡ syndrome (rows_of self.now) (word_in self.now word.now) }
    {
        Syndrome::of(self.rows, self.odd_rows(word))
    }

    // The syndrome of an error that is given as text.
    pub fn syndrome(&self, error: &[u8]) -> Result<Syndrome, Refusal>
        ensures { Told self.now error.now result }
    {
        let word = self.spell(error)?;
        Ok(self.tell(&word))
    }
}
