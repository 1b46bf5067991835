// Sets of rows as masks: bit j of the mask stands for row j, from 0.
ghost use Rattle.std.specs.Prelude.{◌≡◌, ◌≤◌, Bool, List, length};
ghost use Rattle.pauli.specs.Limits.{max_rows};
ghost use Rattle.pauli.specs.Text.{first};
ghost use Rattle.columns.specs.Masks.{bit, set_of};

use pauli::MAX_ROWS;

// Whether a row, from 0, is in the set.
#[tactic(auto, using(std::proofs::lemmas::Nat::Bits::shr_and_one, crate::proofs::Masks::bit_past))]
pub fn has(set: u64, row: usize) -> bool
    ensures { result ≡ bit row set }
{
    row < MAX_ROWS && (set >> row) & 1 == 1
}

// The lowest row of the set, counted from 1: the first true of every list of bits that the set stands for.
#[tactic(auto, using(crate::proofs::Digits::no_first, crate::proofs::Digits::first_lowest))]
pub fn lowest(set: u64) -> Option<usize>
    ensures { (bs : List Bool) → length bs ≤ max_rows → set ≡ set_of bs → result ≡ first bs }
{
    if set == 0 {
        return None;
    }
    Some(set.trailing_zeros() as usize + 1)
}
