// A place of the rows: which of them clash there with X, and which with Z.
ghost use Rattle.std.specs.Prelude.{◌≡◌, ◌<◌};
ghost use Rattle.pauli.specs.Limits.{max_rows};
ghost use Rattle.pauli.specs.Letters.{letter};
ghost use Rattle.columns.specs.Columns.{against, letter_in, marked};

use crate::mask::has;
use pauli::Letter;

#[derive(Clone, Copy, PartialEq, Eq)]
pub struct Column {
    pub x: u64,
    pub z: u64,
}

impl Column {
    // The rows that clash with a letter, by its number, as tables hold letters.
    pub fn against(&self, number: u8) -> u64
        ensures { result ≡ against (letter number) self.now }
    {
        match Letter::of(number) {
            Letter::I => 0,
            Letter::X => self.x,
            Letter::Y => self.x ^ self.z,
            Letter::Z => self.z,
        }
    }

    // The letter in a row, from 0, and I past the last row.
    pub fn letter(&self, row: usize) -> Letter
        ensures { result ≡ letter_in row self.now }
    {
        match (has(self.x, row), has(self.z, row)) {
            (false, false) => Letter::I,
            (false, true) => Letter::X,
            (true, true) => Letter::Y,
            (true, false) => Letter::Z,
        }
    }

    // Puts a letter, by its number, into a row that has I.
    pub fn mark(&mut self, row: usize, number: u8)
        requires { row < max_rows }
        ensures { self.new ≡ marked row (letter number) self.old }
    {
        let letter = Letter::of(number);
        let bit = 1u64 << row;
        if letter.clashes(Letter::X) {
            self.x ^= bit;
        }
        if letter.clashes(Letter::Z) {
            self.z ^= bit;
        }
    }
}
