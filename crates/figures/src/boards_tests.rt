// Boards: means, the latest quote, and every refusal of their calls.
use crate::calls::{board, told};
use boards::board::Board;
use days::table::DayTable;
use sources::source::QuoteSource;
use std::test::Fail;

#[test]
fn a_mean_is_weighted_and_rounds_down(rt: HostRuntime) -> Result<(), Fail> {
    let mut b = board(0, [1, 2, 0, 1, 0, 0, 0, 0])?;
    assert_eq!(rt; told(b.quote(0, 0, 9_000_000)), None);
    assert_eq!(rt; told(b.quote(1, 0, 9_000_001)), None);
    assert_eq!(rt; b.figure(0), Some(9_000_000), "27,000,002 over 3");
    assert_eq!(rt; told(b.quote(2, 0, 20_000_000)), None);
    assert_eq!(rt; b.figure(0), Some(9_000_000), "share 0 counts nowhere");
    assert_eq!(rt; told(b.quote(0, 8, -1)), None);
    assert_eq!(rt; told(b.quote(3, 8, -2)), None);
    assert_eq!(rt; b.figure(8), Some(-2), "-3 over 2 rounds down");
    Ok(())
}

#[test]
fn the_latest_quote_rules(rt: HostRuntime) -> Result<(), Fail> {
    let mut b = board(0, [3, 1, 0, 0, 0, 0, 0, 0])?;
    assert_eq!(rt; b.figure(16), None);
    assert_eq!(rt; told(b.quote(0, 16, 380_000_000)), None);
    assert_eq!(rt; told(b.quote(1, 16, 380_000_008)), None);
    assert_eq!(rt; b.figure(16), Some(380_000_002));
    assert_eq!(rt; told(b.quote(0, 16, 390_000_000)), None);
    assert_eq!(rt; b.figure(16), Some(387_500_002));
    assert_eq!(rt; told(b.unquote(1, 16)), None);
    assert_eq!(rt; b.figure(16), Some(390_000_000));
    assert_eq!(rt; told(b.unquote(1, 16)), None, "nothing left to take away");
    assert_eq!(rt; told(b.unquote(0, 16)), None);
    assert_eq!(rt; b.figure(16), None);
    Ok(())
}

#[test]
fn calls_are_refused_in_order(rt: HostRuntime) -> Result<(), Fail> {
    let mut b = board(0, [0; 8])?;
    assert_eq!(rt;
        told(b.quote(8, 29, 0)),
        Some((21, 8)),
        "the provider is asked first"
    );
    assert_eq!(rt;
        told(b.quote(4_000_000_000, 0, 9_000_000)),
        Some((21, 4_000_000_000))
    );
    assert_eq!(rt; told(b.quote(7, 29, 0)), Some((22, 29)), "then the line");
    assert_eq!(rt;
        told(b.quote(7, 0, 3_999_999)),
        Some((23, 0)),
        "then the figure"
    );
    assert_eq!(rt; told(b.quote(7, 15, 2_000_001)), Some((23, 15)));
    assert_eq!(rt; told(b.quote(7, 28, 800_000_001)), Some((23, 28)));
    assert_eq!(rt; told(b.unquote(8, 29)), Some((21, 8)));
    assert_eq!(rt; told(b.unquote(0, 29)), Some((22, 29)));
    assert_eq!(rt;
        told(b.quote(7, 0, 4_000_000)),
        None,
        "both ends belong to the range"
    );
    assert_eq!(rt; told(b.quote(7, 7, 500_000)), None);
    assert_eq!(rt; told(b.quote(7, 8, -2_000_000)), None);
    assert_eq!(rt; b.figure(0), None, "all shares are 0");
    assert_eq!(rt; b.figure(29), None);
    assert_eq!(rt; b.day(29), 0);
    Ok(())
}

#[test]
fn a_board_is_made_of_lawful_parts(rt: HostRuntime) {
    let blank = DayTable::blank();
    assert_eq!(rt; told(Board::new(100_000, blank, [10_000; 8])), None);
    assert_eq!(rt;
        told(Board::new(100_001, blank, [10_001; 8])),
        Some((25, 0)),
        "the valuation day is asked first"
    );
    assert_eq!(rt;
        told(Board::new(0, blank, [10_001, 0, 0, 0, 0, 0, 0, 10_001])),
        Some((24, 0))
    );
    assert_eq!(rt;
        told(Board::new(0, blank, [0, 0, 0, 4_000_000_000, 10_001, 0, 0, 0])),
        Some((24, 3))
    );
    assert_eq!(rt;
        told(Board::new(0, blank, [0, 0, 0, 0, 0, 0, 0, 10_001])),
        Some((24, 7))
    );
}
