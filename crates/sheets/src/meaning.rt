// What a sheet means: as a quote source, and entry by entry.
ghost use Rattle.std.specs.Prelude.{◌≡◌, MatchOption};
ghost use Rattle.sheets.specs.Checked.{Checked};
ghost use Rattle.sheets.specs.Kept.{Holds};
ghost use Rattle.sheets.specs.Meaning.{blank_page, sheet_page};
ghost use Rattle.sheets.specs.Reader.{ReaderOf};
ghost use Rattle.sources.specs.Page.{Sound};

use crate::checking::read_words;
use crate::entry::Entries;
use crate::fault::SheetFault;
use crate::reading::Reading;
use crate::sheet::Sheet;
use days::table::DayTable;
use sources::source::QuoteSource;

impl<'a> Sheet<'a> {
    // The sheet of these words. Making it never refuses; its check does.
    pub fn of(words: &'a [u32]) -> Sheet<'a>
        ensures { result.words ≡ words.entry }
    {
        Sheet {
            words,
            outcome: read_words(words),
        }
    }

    // Accepts the sheet if it is the words of a sound page, which it then means; tells the first question that fails otherwise.
    pub fn check(&self) -> Result<(), SheetFault>
        ensures { Checked self.now.words.now result }
    {
        self.outcome.map(|_| ())
    }

    // Its entries, one for each line in order; a refused sheet has none.
    pub fn entries(&self) -> Entries<'a>
        ensures { ReaderOf self.now.words result }
    {
        if self.outcome.is_err() {
            return Entries {
                rest: &[],
                place: 0,
            };
        }
        Entries::after_opening(self.words)
    }

    // What it tells; a refused sheet, which means the blank page, tells nothing.
    fn reading(&self) -> Option<&Reading>
        ensures told { MatchOption result (sheet_page self.now.words.now ≡ blank_page) (λ r. Holds (sheet_page self.now.words.now) r.now) }
        ensures sound { Sound (sheet_page self.now.words.now) }
    {
        self.outcome.as_ref().ok()
    }
}

impl QuoteSource for Sheet<'_> {
    // A refused sheet means the blank page.
    ghost page = { λ s. sheet_page s.words.now };

    fn valuation_day(&self) -> u32 {
        self.reading().map_or(0, |reading| reading.valuation)
    }

    fn days(&self) -> DayTable {
        match self.reading() {
            Some(reading) => reading.days,
            None => DayTable::blank(),
        }
    }

    fn figure(&self, line: usize) -> Option<i32> {
        self.reading()?.figure(line)
    }
}
