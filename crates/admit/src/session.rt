// A code in the making, and how far the input has come.
ghost use Rattle.std.specs.Prelude.{◌≡◌, []};
ghost use Rattle.code.specs.Codes.{places_of, rows_of};
ghost use Rattle.admit.specs.declared.session.Stage.TheVariants.{Places};
ghost use Rattle.admit.specs.Replies.{BeginLine, RowLine, ErrorLine, Numbered, Line};

use crate::reply::{Fault, Reply};
use code::Code;

// What the next line is read as.
#[derive(Clone, Copy)]
pub enum Stage {
    Places,
    Rows,
    Errors,
    Ended,
}

// The code is built in one stage and read in the next, so the stage stands beside it, and one match says what a line is read as.
#[derive(Clone, Copy)]
pub struct Session {
    code: Code,
    stage: Stage,
}

impl Session {
    // The bare code, and nothing read yet.
    pub fn new() -> Session
        ensures places { places_of result.code ≡ 1 }
        ensures rows { rows_of result.code ≡ [] }
        ensures stage { result.stage ≡ Places }
    {
        Session {
            code: Code::bare(),
            stage: Stage::Places,
        }
    }

    // Begins the code of the places that a line writes; without a code there is nothing more to do.
    fn begin(&mut self, line: &[u8]) -> Result<Reply, Fault>
        ensures { BeginLine line.now self.old result self.new }
    {
        self.stage = Stage::Ended;
        let places = number(line).ok_or(Fault::NoNumber)?;
        self.code.begin(places)?;
        self.stage = Stage::Rows;
        Ok(Reply::Begun { places })
    }

    // Adds the row of a line.
    fn row(&mut self, line: &[u8]) -> Result<Reply, Fault>
        ensures { RowLine line.now self.old result self.new }
    {
        self.code.add_row(line)?;
        Ok(Reply::Taken {
            row: self.code.rows(),
        })
    }

    // The syndrome of a line's error.
    fn error(&self, line: &[u8]) -> Result<Reply, Fault>
        ensures { ErrorLine line.now self.now result }
    {
        let syndrome = self.code.syndrome(line)?;
        Ok(Reply::Told { syndrome })
    }

    // Takes one line; an empty one ends the rows. The stages are few and known, so they are the cases of a match.
    pub fn line(&mut self, line: &[u8]) -> Option<Result<Reply, Fault>>
        ensures { Line line.now self.old result self.new }
    {
        match self.stage {
            Stage::Places => Some(self.begin(line)),
            Stage::Rows => {
                if line.is_empty() {
                    self.stage = Stage::Errors;
                    return None;
                }
                Some(self.row(line))
            }
            Stage::Errors => Some(self.error(line)),
            Stage::Ended => None,
        }
    }
}

// The number of places that a line writes.
fn number(line: &[u8]) -> Option<usize>
    ensures { Numbered line.now result }
{
    std::str::from_utf8(line).ok()?.parse::<usize>().ok()
}
