// What the tests call, and what a call told.
use boards::board::Board;
use days::refusal::Refusal;
use days::table::DayTable;
use std::test::Fail;

// Number and place of a refusal; nothing where the call was accepted.
pub(crate) fn told<T: Drop, E: Into<Refusal>>(answer: Result<T, E>) -> Option<(u32, usize)> {
    let Refusal { number, place, .. } = answer.err()?.into();
    Some((number, place))
}

// A board over the blank page's days.
pub(crate) fn board(valuation: u32, shares: [u32; 8]) -> Result<Board, Fail> {
    Board::new(valuation, DayTable::blank(), shares).map_err(|_| Fail::new("a board was refused"))
}
