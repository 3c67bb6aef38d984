// How a board is read: as a quote source.
ghost use Rattle.std.specs.Prelude.{◌≡◌, ℤ, Option as Maybe, None, slice_index_or};
ghost use Rattle.boards.specs.Mean.{weight, total, Shows, shown};
ghost use Rattle.boards.specs.Board.{shares_of, quotes_of, board_page};

use crate::board::Board;
use crate::provider::Provider;
use days::table::DayTable;
use sources::rounding::{floor_div, weigh};
use sources::source::QuoteSource;

impl Provider {
    // The latest quote for a line.
    fn latest(&self, line: usize) -> Option<i32>
        ensures { result ≡ slice_index_or self.now.quotes line None }
    {
        self.quotes.get(line).copied().flatten()
    }
}

// The shares that count at a line, and their figures by share, each summed up.
struct Sums {
    weight: u32,
    total: i64,
}

impl Board {
    fn sums(&self, line: usize) -> Sums
        ensures weights { result.weight ≡ weight (shares_of self.now) (quotes_of self.now) line 8 }
        ensures totals { result.total ≡ total (shares_of self.now) (quotes_of self.now) line 8 }
    {
        let mut weight: u32 = 0;
        let mut total: i64 = 0;
        for provider in &self.providers {
            if let Some(figure) = provider.latest(line) {
                weight += provider.share;
                total += weigh(provider.share, figure);
            }
        }
        Sums { weight, total }
    }

    // The mean of a line's quotes, weighted by share and rounded down; nothing where no quote counts.
    pub fn mean(&self, line: usize) -> Option<i32>
        ensures answer { result ≡ shown (shares_of self.now) (quotes_of self.now) line }
        ensures shows { Shows (shares_of self.now) (quotes_of self.now) line result }
        ensures one { (o : Maybe ℤ) → Shows (shares_of self.now) (quotes_of self.now) line o → o ≡ result }
    {
        let Sums { weight, total } = self.sums(line);
        let mean = floor_div(total, weight)?;
        Some(mean as i32)
    }
}

#[tactic(auto, using(crate::proofs::Pages::board_sound))]
impl QuoteSource for Board {
    ghost page = { board_page };

    fn valuation_day(&self) -> u32 {
        self.valuation
    }

    fn days(&self) -> DayTable {
        self.days
    }

    fn figure(&self, line: usize) -> Option<i32> {
        self.mean(line)
    }
}
