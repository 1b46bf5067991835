// Replies as text. How a reply is laid out in lines is up to the program, so it is written on types of its own; a quote is one line and writes itself.
use desk::{Quotes, Reply, Report};
use std::fmt;

#[derive(Clone, Copy)]
struct Block(Quotes);

impl fmt::Display for Block {
    fn fmt<W: fmt::Write>(&self, f: &mut fmt::Formatter<W>) -> fmt::Result {
        let Quotes { places, sum, worst } = &self.0;
        write!(f, "of {places} places\n    sum {sum}\n    worst {worst}")
    }
}

// A reply, as it is printed after its line and a colon.
#[derive(Clone, Copy)]
pub struct Shown(pub Reply);

impl fmt::Display for Shown {
    fn fmt<W: fmt::Write>(&self, f: &mut fmt::Formatter<W>) -> fmt::Result {
        match self.0 {
            Reply::Priced {
                report: Report { flat, table },
            } => write!(f, "\n  flat {}\n  table {}", Block(flat), Block(table)),
            Reply::NoWord { place } => write!(f, " no word at place {place}"),
            Reply::Unread => f.write_str(" not read"),
        }
    }
}
