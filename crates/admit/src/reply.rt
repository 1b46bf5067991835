// What a line came to.
ghost use Rattle.std.specs.Prelude.{◌≡◌};
ghost use Rattle.admit.specs.declared.reply.Fault.TheVariants.{Refused};

use code::{Refusal, Syndrome};
use std::fmt;

#[derive(Clone, Copy)]
pub enum Reply {
    // The code was begun with so many places.
    Begun { places: usize },
    // The row was taken and has this number.
    Taken { row: usize },
    // The error has this syndrome.
    Told { syndrome: Syndrome },
}

// Why a line came to nothing.
#[derive(Clone, Copy)]
pub enum Fault {
    // The first line is no number.
    NoNumber,
    // The line was turned down.
    Refused { refusal: Refusal },
}

impl From<Refusal> for Fault {
    ghost from_gives = { λ e r. r ≡ Refused e };

    fn from(refusal: Refusal) -> Fault {
        Self::Refused { refusal }
    }
}

impl fmt::Display for Reply {
    fn fmt<W: fmt::Write>(&self, f: &mut fmt::Formatter<W>) -> fmt::Result {
        match self {
            Reply::Begun { places } => write!(f, "begun with {places}"),
            Reply::Taken { row } => write!(f, "taken as row {row}"),
            Reply::Told { syndrome } => write!(f, "{syndrome}"),
        }
    }
}

impl fmt::Display for Fault {
    fn fmt<W: fmt::Write>(&self, f: &mut fmt::Formatter<W>) -> fmt::Result {
        match self {
            Fault::NoNumber => f.write_str("no number of places"),
            Fault::Refused { refusal } => write!(f, "{refusal}"),
        }
    }
}
