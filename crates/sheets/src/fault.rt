// Why a sheet is refused.
ghost use Rattle.days.specs.Questions.{Tells};
ghost use Rattle.sheets.specs.Told.{told_sheet};

use days::refusal::{Layer, Refusal};

#[derive(Clone, Copy)]
pub enum SheetFault {
    // A word is missing, or of a kind that is not due.
    NotDue { word: usize },
    // A head tells another line than the one that is due, or a spare bit of it is set.
    WrongHead { word: usize },
    // A valuation day or a figure lies outside its range, or the closing count is wrong.
    OutOfRange { word: usize },
    // The first word after the closing word.
    Surplus { word: usize },
    // A line's day breaks the lawful-day rule; no lower line's does.
    UnlawfulDay { line: usize },
}

impl From<SheetFault> for Refusal {
    // Number, layer and place; no two faults tell the same.
    ghost from_gives = { Tells told_sheet };

    fn from(fault: SheetFault) -> Refusal {
        let (number, place) = match fault {
            SheetFault::NotDue { word } => (11, word),
            SheetFault::WrongHead { word } => (12, word),
            SheetFault::OutOfRange { word } => (13, word),
            SheetFault::Surplus { word } => (14, word),
            SheetFault::UnlawfulDay { line } => (15, line),
        };
        let layer = Layer::Sheet;
        Refusal {
            number,
            layer,
            place,
        }
    }
}
