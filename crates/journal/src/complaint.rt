// What is wrong with a line that is no command.
ghost use Rattle.std.specs.Prelude.{Some};
ghost use Rattle.journal.specs.Wording.{reason, wording};

use crate::command::Which;
use std::fmt;

#[derive(Clone, Copy)]
pub enum Complaint {
    UnknownCommand,
    // Words are counted from 1.
    Word { place: usize, fault: WordFault },
    BoardNotMade { which: Which },
    NoSourceChosen,
}

#[derive(Clone, Copy)]
pub enum WordFault {
    Missing,
    Surplus,
    NoNumber,
    NoFigure,
    NoBoard,
    NoSource,
}

impl fmt::Display for WordFault {
    ghost output = { λ fault. Some (reason fault) };

    fn fmt<W: fmt::Write>(&self, f: &mut fmt::Formatter<W>) -> fmt::Result {
        f.write_str(match self {
            WordFault::Missing => "is missing",
            WordFault::Surplus => "is one too many",
            WordFault::NoNumber => "is no number from 0 to 4294967295",
            WordFault::NoFigure => "is no number from -2147483648 to 2147483647",
            WordFault::NoBoard => "is neither today nor yesterday",
            WordFault::NoSource => "is out of place in a source",
        })
    }
}

impl fmt::Display for Complaint {
    ghost output = { λ complaint. Some (wording complaint) };

    fn fmt<W: fmt::Write>(&self, f: &mut fmt::Formatter<W>) -> fmt::Result {
        match self {
            Complaint::UnknownCommand => f.write_str("unknown command"),
            Complaint::Word { place, fault } => write!(f, "word {place} {fault}"),
            Complaint::BoardNotMade { which } => write!(f, "no board for {which} yet"),
            Complaint::NoSourceChosen => f.write_str("no source chosen yet"),
        }
    }
}
