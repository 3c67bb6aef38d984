// Where quotes come from.
ghost use Rattle.std.specs.Prelude.{◌≡◌};
ghost use Rattle.days.specs.Days.{day as day_of};
ghost use Rattle.sources.specs.Page.{Page, Sound};

use days::table::DayTable;

// A source's valuation day is at most this.
pub const LAST_VALUATION_DAY: u32 = 100_000;

pub trait QuoteSource {
    // The page that the source means. Every question answers from it and changes nothing.
    ghost page: { Self → Page };

    fn valuation_day(&self) -> u32
        ensures answer { result ≡ (page self.now).valuation }
        ensures sound { Sound (page self.now) };

    fn days(&self) -> DayTable
        ensures answer { result.days ≡ (page self.now).days }
        ensures sound { Sound (page self.now) };

    // A line's figure, or nothing; nothing above line 28.
    fn figure(&self, line: usize) -> Option<i32>
        ensures answer { result ≡ (page self.now).figure line }
        ensures sound { Sound (page self.now) };

    // A line's day; 0 above line 28.
    fn day(&self, line: usize) -> u32
        ensures answer { result ≡ day_of (page self.now).days line }
        ensures sound { Sound (page self.now) }
    {
        self.days().day(line)
    }
}
