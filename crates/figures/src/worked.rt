// Worked figures: as one statement about the rules, and as runs whose results follow from the contracts of the calls alone.
ghost use Rattle.std.specs.Prelude.{◌≡◌, pos, negsuc, Some};
ghost use Rattle.figures.specs.Figures.{Figures};

use boards::board::Board;
use days::table::DayTable;
use layers::gap::Gap;
use sources::source::QuoteSource;

// The spot of two providers with shares 1 and 2, who quote 9,000,000 and 9,000,001.
pub fn two_quotes() -> Option<i32>
    ensures { result ≡ Some (pos 9000000) }
{
    let mut board = Board::new(0, DayTable::blank(), [1, 2, 0, 0, 0, 0, 0, 0]).ok()?;
    board.quote(0, 0, 9_000_000).ok()?;
    board.quote(1, 0, 9_000_001).ok()?;
    board.figure(0)
}

// The points at day 62 where −1 is quoted at day 32 and −2 at day 92.
pub fn hole_filled() -> Option<i32>
    ensures { result ≡ Some (negsuc 1) }
{
    let mut board = Board::new(0, DayTable::blank(), [1, 0, 0, 0, 0, 0, 0, 0]).ok()?;
    board.quote(0, 9, -1).ok()?;
    board.quote(0, 11, -2).ok()?;
    Gap::over(board).figure(10)
}

// The rules give these figures.
pub fn figures_met()
    ensures { Figures }
{}
