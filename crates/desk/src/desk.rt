// The channels that words are priced under, as the lines read so far have set them.
ghost use Rattle.desk.specs.Reports.{Reported, WordReply};
ghost use Rattle.std.specs.Prelude.{◌≡◌};
ghost use Rattle.desk.specs.Settings.{NewDesk, answered, FlatLine, TableLine, MarksLine, ShiftsLine, Line};
ghost use Rattle.desk.specs.declared.desk.NotSet.TheVariants.{NotRead, NoMemory};

use super::line::{Kind, parted};
use super::report::{Overlay, Quotes};
use channel::{Flat, Table};
use layers::Marks;
use measure::Sum;
use numerals::{marks_in, prices_in};
use pauli::{Letters, NoWord, read_word};
use std::alloc::{AllocError, Global};

#[derive(Clone, Copy)]
pub struct Report {
    pub flat: Quotes,
    pub table: Quotes,
}

// Not a Result: each of these is printed, and a lack of memory, which is not, ends the program; as cases of one error they would have to be
// taken apart again.
#[derive(Clone, Copy)]
pub enum Reply {
    // The word of the line, priced.
    Priced { report: Report },
    // The line is no word: the first place that says so.
    NoWord { place: usize },
    // The line names a setting, and what follows is not what that setting takes.
    Unread,
}

// Why a setting was not taken.
#[derive(Clone, Copy)]
enum NotSet {
    // What follows its name is not what it takes.
    NotRead,
    NoMemory { error: AllocError },
}

impl From<NoWord> for NotSet {
    ghost from_gives = { λ _ r. r ≡ NotRead };

    fn from(_error: NoWord) -> NotSet {
        Self::NotRead
    }
}

impl From<AllocError> for NotSet {
    ghost from_gives = { λ error r. r ≡ NoMemory error };

    fn from(error: AllocError) -> NotSet {
        Self::NoMemory { error }
    }
}

// What a setting is answered, in the one place that takes a lack of memory apart from a setting that was not read.
fn answered(set: Result<(), NotSet>) -> Result<Option<Reply>, AllocError>
    ensures { result ≡ answered set }
{
    match set {
        Ok(()) => Ok(None),
        Err(NotSet::NotRead) => Ok(Some(Reply::Unread)),
        Err(NotSet::NoMemory { error }) => Err(error),
    }
}

#[derive(Drop)]
pub struct Desk {
    values: [Sum; 4],
    entries: Vec<Sum>,
    overlay: Overlay,
}

impl Desk {
    // I is free and the others cost 1, the table is empty, no place is marked and no letter shifted.
    pub fn new(heap: Global) -> Desk
        ensures { NewDesk result }
    {
        Desk {
            values: [Sum(0), Sum(1), Sum(1), Sum(1)],
            entries: Vec::new(heap),
            overlay: Overlay {
                marks: Marks::none(),
                shifts: Letters::blank(),
            },
        }
    }

    // What a word measures under each channel.
    fn report(&self, word: &[u8]) -> Report
        ensures { Reported self.now word.now result }
    {
        Report {
            flat: self.overlay.quotes(&Flat::new(self.values), word),
            table: self
                .overlay
                .quotes(&Table::new(self.entries.as_slice()), word),
        }
    }

    // The word of a line, priced, or the first place at which the line is no word.
    #[tactic(auto, using(pauli::proofs::Reading::front_read))]
    fn word(&self, line: &[u8]) -> Reply
        ensures { WordReply self.now line.now result }
    {
        match read_word(line) {
            Ok(word) => Reply::Priced {
                // The table is of fixed size, and the line's length says how much of it is used.
                report: self.report(&word.numbers[..line.len()]),
            },
            Err(e) => Reply::NoWord { place: e.place },
        }
    }

    // Sets the prices of I, X, Y and Z; there must be just four.
    fn set_flat(&mut self, heap: Global, text: &str) -> Result<(), NotSet>
        ensures { FlatLine text.now self.old (answered result) self.new }
    {
        let prices = prices_in(heap, text)?.ok_or(NotSet::NotRead)?;
        self.values = <[Sum; 4]>::try_from(prices.as_slice()).map_err(|_| NotSet::NotRead)?;
        Ok(())
    }

    // Sets the entries of the table, four to a place.
    fn set_table(&mut self, heap: Global, text: &str) -> Result<(), NotSet>
        ensures { TableLine text.now self.old (answered result) self.new }
    {
        self.entries = prices_in(heap, text)?.ok_or(NotSet::NotRead)?;
        Ok(())
    }

    // Marks these places and no others.
    fn set_marks(&mut self, text: &str) -> Result<(), NotSet>
        ensures { MarksLine text.now self.old (answered result) self.new }
    {
        self.overlay.marks = marks_in(text).ok_or(NotSet::NotRead)?;
        Ok(())
    }

    // Sets the letters by which words are shifted, with I after them.
    fn set_shifts(&mut self, text: &str) -> Result<(), NotSet>
        ensures { ShiftsLine text.now self.old (answered result) self.new }
    {
        self.overlay.shifts = read_word(text.as_bytes())?;
        Ok(())
    }

    // Takes one line: a setting, or a word to price.
    pub fn line(&mut self, heap: Global, line: &[u8]) -> Result<Option<Reply>, AllocError>
        ensures { Line line.now self.old result self.new }
    {
        let (kind, rest) = parted(line);
        // A match over the kinds leaves none out, and needs no dyn.
        let set = match kind {
            Kind::Flat => self.set_flat(heap, rest),
            Kind::Table => self.set_table(heap, rest),
            Kind::Marks => self.set_marks(rest),
            Kind::Shifts => self.set_shifts(rest),
            Kind::Word => return Ok(Some(self.word(line))),
        };
        answered(set)
    }
}
