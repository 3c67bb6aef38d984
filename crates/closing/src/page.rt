// What a source shows: its valuation day, and each line's day and figure.
ghost use Rattle.closing.specs.Pages.{RowsOf, filled_page};

use days::lines::LINES;
use layers::gap::Gap;
use sources::source::QuoteSource;
use std::{array, fmt};

#[derive(Clone, Copy)]
pub(crate) struct Page {
    valuation: u32,
    rows: [Row; LINES],
}

#[derive(Clone, Copy)]
struct Row {
    day: u32,
    figure: Option<i32>,
}

impl Page {
    // The page that a source means, with its gaps filled or as it is.
    pub(crate) fn over<S: QuoteSource + Drop>(source: S, filled: bool) -> Page
        ensures { RowsOf (filled_page filled (S.page source)) result }
    {
        if filled {
            Page::of(&Gap::over(source))
        } else {
            Page::of(&source)
        }
    }

    // The page that a source means.
    fn of<S: QuoteSource>(source: &S) -> Page
        ensures { RowsOf (S.page source.now) result }
    {
        let rows = array::from_fn(|line| Row {
            day: source.day(line),
            figure: source.figure(line),
        });
        Page {
            valuation: source.valuation_day(),
            rows,
        }
    }
}

impl fmt::Display for Page {
    fn fmt<W: fmt::Write>(&self, f: &mut fmt::Formatter<W>) -> fmt::Result {
        let valuation = self.valuation;
        write!(f, "day {valuation}")?;
        for (line, row) in self.rows.iter().enumerate() {
            write!(f, "\n  line {line} {row}")?;
        }
        Ok(())
    }
}

impl fmt::Display for Row {
    fn fmt<W: fmt::Write>(&self, f: &mut fmt::Formatter<W>) -> fmt::Result {
        let day = self.day;
        match self.figure {
            Some(figure) => write!(f, "day {day} figure {figure}"),
            None => write!(f, "day {day} absent"),
        }
    }
}
