// The syndrome of an error.
use std::fmt;

mod bits;

// A bit for each row: whether the error does not commute with it. A set of rows is one number of the machine, without memory to
// allocate, so how many rows there are stands beside it.
#[derive(Clone, Copy)]
pub struct Syndrome {
    rows: usize,
    odd: u64,
}

// The bits as text, row 1 first.
impl fmt::Display for Syndrome {
    fn fmt<W: fmt::Write>(&self, f: &mut fmt::Formatter<W>) -> fmt::Result {
        // A bit of a mask has no place in memory to iterate over, only a number.
        for row in 0..self.rows {
            f.write_str(if self.bit(row) { "1" } else { "0" })?;
        }
        Ok(())
    }
}
