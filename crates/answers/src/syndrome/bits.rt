// The bits of a syndrome.
ghost use Rattle.std.specs.Prelude.{◌≡◌, false, slice_index_or};
ghost use Rattle.columns.specs.Masks.{bits};
ghost use Rattle.answers.specs.Syndromes.{bits_of};

use super::Syndrome;
use columns::mask::has;

impl Syndrome {
    // The syndrome whose bits are the lowest of a mask, as many as there are rows.
    pub fn of(rows: usize, odd: u64) -> Syndrome
        ensures { bits_of result ≡ bits rows odd }
    {
        Syndrome { rows, odd }
    }

    // Whether the error does not commute with a row, from 0; false past the last row.
    #[tactic(auto, using(crate::proofs::OneBit::within, crate::proofs::OneBit::past))]
    pub fn bit(&self, row: usize) -> bool
        ensures { result ≡ slice_index_or (bits_of self.now) row false }
    {
        row < self.rows && has(self.odd, row)
    }
}
