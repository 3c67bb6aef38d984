// How a sheet is read: word by word, and then its days.
ghost use Rattle.std.specs.Prelude.{◌≡◌, ◌+◌, ◌^◌, ◌<◌, None};
ghost use Rattle.days.specs.Questions.{refusal_of, first_failing};
ghost use Rattle.sheets.specs.Asked.{line as line_due, opening as opening_due, closing as closing_due, of_entry, of_words, of_days};
ghost use Rattle.sheets.specs.Kept.{Step, AfterOpening, Kept};
ghost use Rattle.sheets.specs.Reader.{ReadSo};
ghost use Rattle.sheets.specs.Told.{told_sheet};
ghost use Rattle.sheets.specs.Views.{seen};

use crate::entry::{Entries, Placed};
use crate::fault::SheetFault;
use crate::reading::Reading;
use crate::word::{Kind, load_of};
use days::lines::{LINES, in_range};
use days::refusal::Refusal;
use days::table::DayTable;
use sources::source::LAST_VALUATION_DAY;
use std::array;

// The valuation day that the opening word tells.
fn valuation_day(words: &[u32]) -> Result<u32, SheetFault>
    ensures { Step result (AfterOpening words.now) (of_words opening_due 0 words.now) }
{
    match words {
        [] => Err(SheetFault::NotDue { word: 0 }),
        [opening, ..] if Kind::of(*opening) != Kind::Opening => {
            Err(SheetFault::NotDue { word: 0 })
        }
        [opening, ..] if load_of(*opening) > LAST_VALUATION_DAY => {
            Err(SheetFault::OutOfRange { word: 0 })
        }
        [opening, ..] => Ok(load_of(*opening)),
    }
}

impl Placed<'_> {
    // Is it the entry of this line, with its figure in range?
    fn ask(&self, line: usize) -> Result<(), SheetFault>
        requires line { line < 29 }
        requires figure { self.now.place + 1 < 2 ^ 64 }
        ensures { refusal_of told_sheet result ≡ first_failing (of_entry line (seen self.now)) }
    {
        let Placed { place, entry } = *self;
        if entry.line() != line || entry.spare() != 0 {
            return Err(SheetFault::WrongHead { word: place });
        }
        if entry.figure().is_some_and(|figure| !in_range(line, figure)) {
            return Err(SheetFault::OutOfRange { word: place + 1 });
        }
        Ok(())
    }
}

// What the sheet tells of a line.
#[derive(Clone, Copy, Default)]
pub(crate) struct Line {
    pub(crate) day: u32,
    pub(crate) figure: Option<i32>,
}

impl Entries<'_> {
    // Takes each line's entry in its order.
    fn read_lines(&mut self) -> Result<[Line; LINES], SheetFault>
        ensures { Step result (ReadSo 29 self.old self.new) (of_words (line_due 0) self.old.place self.old.rest.now) }
    {
        let mut lines = [Line::default(); LINES];
        for (line, told) in lines.iter_mut().enumerate() {
            let Some(placed) = self.next() else {
                return Err(SheetFault::NotDue { word: self.place });
            };
            placed.ask(line)?;
            *told = Line {
                day: placed.entry.day(),
                figure: placed.entry.figure(),
            };
        }
        Ok(lines)
    }

    // Is the closing word there, with the right count, and nothing after it?
    fn ask_closing(&self) -> Result<(), SheetFault>
        ensures { refusal_of told_sheet result ≡ first_failing (of_words closing_due self.now.place self.now.rest.now) }
    {
        let word = self.place;
        match self.rest {
            [] => Err(SheetFault::NotDue { word }),
            [closing, ..] if Kind::of(*closing) != Kind::Closing => {
                Err(SheetFault::NotDue { word })
            }
            [closing, ..] if load_of(*closing) as usize != word => {
                Err(SheetFault::OutOfRange { word })
            }
            [_] => Ok(()),
            [_, _, ..] => Err(SheetFault::Surplus { word: word + 1 }),
        }
    }
}

// The table of these days; its refusal is told as the sheet's own.
fn day_table(days: [u32; LINES]) -> Result<DayTable, SheetFault>
    ensures { Step result (λ t. (t.days ≡ days) × (first_failing (of_days days 29 0) ≡ None)) (of_days days 29 0) }
{
    DayTable::new(days).map_err(|fault| SheetFault::UnlawfulDay {
        line: Refusal::from(fault).place,
    })
}

// What the words of a sheet tell, or why they are refused.
pub(crate) fn read_words(words: &[u32]) -> Result<Reading, SheetFault>
    ensures { Kept words.now result }
{
    let valuation = valuation_day(words)?;
    let mut entries = Entries::after_opening(words);
    let lines = entries.read_lines()?;
    entries.ask_closing()?;
    let days = day_table(array::from_fn(|line| lines[line].day))?;
    let figures = array::from_fn(|line| lines[line].figure);
    Ok(Reading {
        valuation,
        days,
        figures,
    })
}
