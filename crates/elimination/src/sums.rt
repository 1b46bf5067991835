// Sums of the rows of a table, by a system of equations with an unknown for each row: whether it is chosen.
ghost use Rattle.elimination.specs.Sums.{Solved, Stated};

use crate::system::System;
use columns::Column;
use pauli::Letter;

// The system that asks for the letters of a word, each at its place, unless it contradicts itself.
#[tactic(auto, using(crate::proofs::Adding::says_none, crate::proofs::Adding::says_more, crate::proofs::Adding::says_against, crate::proofs::Adding::says_all))]
fn system_of(columns: &[Column], word: &[u8]) -> Option<System>
    ensures { Stated columns.now word.now result }
{
    let mut system = System::empty();
    for (column, number) in columns.iter().zip(word) {
        system.ask(column, Letter::of(*number))?;
    }
    Some(system)
}

// The rows of the table that add to the word, if any do, bit j for row j from 0. The word is given by letter numbers.
// None add to a word of another length.
#[tactic(auto, using(crate::proofs::Adding::sum_long, crate::proofs::Adding::solved_none, crate::proofs::Adding::solved_some))]
pub fn sum_of(columns: &[Column], word: &[u8]) -> Option<u64>
    ensures { Solved columns.now word.now result }
{
    if columns.len() != word.len() {
        return None;
    }
    let system = system_of(columns, word)?;
    Some(system.solution())
}
