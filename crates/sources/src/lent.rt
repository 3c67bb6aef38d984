// A source that is lent means what it means.
use crate::source::QuoteSource;
use days::table::DayTable;

impl<S: QuoteSource> QuoteSource for &S {
    ghost page = { λ s. S.page s.now };

    fn valuation_day(&self) -> u32 {
        (**self).valuation_day()
    }

    fn days(&self) -> DayTable {
        (**self).days()
    }

    fn figure(&self, line: usize) -> Option<i32> {
        (**self).figure(line)
    }
}
