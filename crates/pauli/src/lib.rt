// Letters and words of the Pauli group without phases.
#![tactic(auto)]

mod laws;
mod letter;
mod letters;
mod places;
mod text;

pub use laws::words_lawful;
pub use letter::{Letter, letter_byte, letter_number, sum};
pub use letters::Letters;
pub use places::{entry_at, put_entry};
pub use text::{NoWord, read_word, write_word};

// The most places that a word may have.
pub const MAX_PLACES: usize = 128;

// The most rows that a code may have: one for each bit of a set of rows.
pub const MAX_ROWS: usize = 64;
