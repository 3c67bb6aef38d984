// Why a run ends before its time.
ghost use Rattle.closing.specs.Printed.{stop_text};

use journal::complaint::Complaint;
use std::{fmt, io};

#[derive(Drop)]
pub(crate) enum Input {
    Standard,
    File(String),
}

#[derive(Drop)]
pub(crate) enum Stop {
    BadLine { number: u64, complaint: Complaint },
    NoArguments { why: io::Error },
    Unreadable { input: Input, why: io::Error },
    Unwritable { why: io::Error },
}

impl fmt::Display for Input {
    fn fmt<W: fmt::Write>(&self, f: &mut fmt::Formatter<W>) -> fmt::Result {
        match self {
            Input::Standard => f.write_str("standard input"),
            Input::File(name) => f.write_str(name.as_str()),
        }
    }
}

impl fmt::Display for Stop {
    ghost output = { stop_text };

    fn fmt<W: fmt::Write>(&self, f: &mut fmt::Formatter<W>) -> fmt::Result {
        match self {
            Stop::BadLine { number, complaint } => write!(f, "error: line {number}: {complaint}"),
            Stop::NoArguments { why } => write!(f, "error: arguments: {why}"),
            Stop::Unreadable { input, why } => write!(f, "error: {input}: {why}"),
            Stop::Unwritable { why } => write!(f, "error: standard output: {why}"),
        }
    }
}

pub(crate) fn written<T>(outcome: io::Result<T>) -> Result<T, Stop> {
    outcome.map_err(|why| Stop::Unwritable { why })
}
