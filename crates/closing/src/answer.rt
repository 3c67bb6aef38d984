// What a command gave, as its result line and the detail lines below it say it.
ghost use Rattle.std.specs.Prelude.{◌≡◌};
ghost use Rattle.days.specs.Questions.{refusal_of};
ghost use Rattle.days.specs.Told.{told_source};
ghost use Rattle.closing.specs.Answers.{answer_to};
ghost use Rattle.closing.specs.Printed.{answer_text};

use crate::page::Page;
use days::fault::SourceFault;
use days::refusal::Refusal;
use std::fmt;

#[derive(Clone, Copy)]
pub(crate) enum Answer {
    Done,
    Page(Page),
    Refused(Refusal),
}

impl From<Result<(), SourceFault>> for Answer {
    ghost from_gives = { λ outcome answer. answer ≡ answer_to (refusal_of told_source outcome) };

    fn from(outcome: Result<(), SourceFault>) -> Answer {
        match outcome {
            Ok(()) => Answer::Done,
            Err(fault) => Answer::Refused(Refusal::from(fault)),
        }
    }
}

impl fmt::Display for Answer {
    ghost output = { answer_text };

    fn fmt<W: fmt::Write>(&self, f: &mut fmt::Formatter<W>) -> fmt::Result {
        match self {
            Answer::Done => f.write_str("ok"),
            Answer::Page(page) => write!(f, "ok {page}"),
            Answer::Refused(refusal) => write!(f, "refused {refusal}"),
        }
    }
}
