// Why a quote source, or a day table by itself, refuses a call.
ghost use Rattle.days.specs.Questions.{Tells};
ghost use Rattle.days.specs.Told.{told_source};

use crate::refusal::{Layer, Refusal};

#[derive(Clone, Copy)]
pub enum SourceFault {
    // A line's day breaks the lawful-day rule; no lower line's does.
    UnlawfulDay { line: usize },
    // Providers are numbered 0 to 7.
    NoProvider { provider: usize },
    // Lines are numbered 0 to 28.
    NoLine { line: usize },
    // The figure lies outside its line's range.
    FigureOutOfRange { line: usize },
    // A provider's share is above 10,000; no lower provider's is.
    ShareTooLarge { provider: usize },
    // The valuation day is above 100,000.
    ValuationDayTooLate,
}

impl From<SourceFault> for Refusal {
    // Number, layer and place; no two faults tell the same.
    ghost from_gives = { Tells told_source };

    fn from(fault: SourceFault) -> Refusal {
        let (number, place) = match fault {
            SourceFault::UnlawfulDay { line } => (15, line),
            SourceFault::NoProvider { provider } => (21, provider),
            SourceFault::NoLine { line } => (22, line),
            SourceFault::FigureOutOfRange { line } => (23, line),
            SourceFault::ShareTooLarge { provider } => (24, provider),
            SourceFault::ValuationDayTooLate => (25, 0),
        };
        let layer = Layer::Source;
        Refusal {
            number,
            layer,
            place,
        }
    }
}
