// The making of a code.
ghost use Rattle.std.specs.Prelude.{◌≡◌, ◌<◌, ◌≤◌, [], ◌∷◌, ◌++◌};
ghost use Rattle.pauli.specs.Limits.{max_places};
ghost use Rattle.code.specs.Codes.{places_of, rows_of};
ghost use Rattle.code.specs.Calls.{Begun, Added};
ghost use Rattle.code.specs.Checks.{word_in, Fits};

use super::Code;
use answers::Refusal;
use columns::Columns;
use pauli::{Letters, MAX_PLACES};

impl Code {
    // The code of n places and no rows.
    fn empty(n: usize) -> Code
        requires { (0 < n) × (n ≤ max_places) }
        ensures places { places_of result ≡ n }
        ensures rows { rows_of result ≡ [] }
    {
        Code {
            places: n,
            rows: 0,
            columns: Columns::blank(),
        }
    }

    // The code of one place and no rows.
    pub fn bare() -> Code
        ensures places { places_of result ≡ 1 }
        ensures rows { rows_of result ≡ [] }
    {
        Code::empty(1)
    }

    // Makes this the code of n places without rows.
    pub fn begin(&mut self, n: usize) -> Result<(), Refusal>
        ensures { Begun n self.old result self.new }
    {
        if !(1..=MAX_PLACES).contains(&n) {
            return Err(Refusal::Places { places: n });
        }
        *self = Code::empty(n);
        Ok(())
    }

    // Puts a word that fits after the rows, one column at a time.
    fn write_row(&mut self, word: &Letters)
        requires { Fits (places_of self.old) (rows_of self.old) (word_in self.old word.now) }
        ensures places { places_of self.new ≡ places_of self.old }
        ensures rows { rows_of self.new ≡ rows_of self.old ++ word_in self.old word.now ∷ [] }
    {
        let word = self.front(word);
        self.columns.put_row(self.rows, word);
        self.rows += 1;
    }

    // A row more, after the others.
    #[tactic(auto, using(crate::proofs::Passing::row_means))]
    pub fn add_row(&mut self, row: &[u8]) -> Result<(), Refusal>
        ensures { Added row.now self.old result self.new }
    {
        let word = self.check_row(row)?;
        self.write_row(&word);
        Ok(())
    }
}
