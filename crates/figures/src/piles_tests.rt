// Gap and Reserve, one on the other and alone.
use crate::calls::board;
use boards::board::Board;
use layers::gap::Gap;
use layers::reserve::Reserve;
use sources::source::QuoteSource;
use std::process::Abort;
use std::test::Fail;

// A board of one provider with these forward points, by line.
fn points(valuation: u32, named: &[(usize, i32)]) -> Result<Board, Fail> {
    let mut board = board(valuation, [1, 0, 0, 0, 0, 0, 0, 0])?;
    for (line, figure) in named {
        board
            .quote(0, *line, *figure)
            .map_err(|_| Fail::new("a quote was refused"))?;
    }
    Ok(board)
}

// The source has these forward points, by line, and no other.
fn check_points<S: QuoteSource>(rt: &impl Abort, s: &S, named: &[(usize, i32)]) {
    for line in 8..16 {
        let expected = named.iter().find(|(at, _)| *at == line);
        assert_eq!(rt; s.figure(line), expected.map(|(_, figure)| *figure));
    }
}

#[test]
fn gap_draws_straight_lines(rt: HostRuntime) -> Result<(), Fail> {
    let today = points(5, &[(9, -1), (11, -2), (15, 100)])?;
    let gap = Gap::over(&today);
    check_points(
        &rt,
        &gap,
        &[
            (9, -1),
            (10, -2),
            (11, -2),
            (12, 18),
            (13, 38),
            (14, 59),
            (15, 100),
        ],
    );
    assert_eq!(rt; gap.figure(16), None);
    assert_eq!(rt; gap.figure(29), None);
    assert_eq!(rt; gap.day(10), 62);
    assert_eq!(rt; gap.valuation_day(), 5);
    Ok(())
}

#[test]
fn gap_keeps_groups_apart(rt: HostRuntime) -> Result<(), Fail> {
    let mut today = points(5, &[(15, 100)])?;
    assert!(rt; today.quote(0, 0, 9_000_000).is_ok());
    assert!(rt; today.quote(0, 3, 45_000).is_ok());
    assert!(rt; today.quote(0, 5, 47_000).is_ok());
    assert!(rt; today.quote(0, 18, 380_000_003).is_ok());
    let bare = Gap::over(&today);
    check_points(&rt, &bare, &[(15, 100)]);
    assert_eq!(rt; bare.figure(4), None, "rates are never filled");
    assert_eq!(rt; bare.figure(16), None, "line 15 is no neighbour of line 16");
    assert_eq!(rt; bare.figure(17), None);
    assert!(rt; today.quote(0, 16, 380_000_000).is_ok());
    assert_eq!(rt;
        Gap::over(&today).figure(17),
        Some(380_000_001),
        "the UF of the day is a neighbour, at day 0"
    );
    Ok(())
}

#[test]
fn reserve_takes_all_points_or_none(rt: HostRuntime) -> Result<(), Fail> {
    let yesterday = points(4, &[(8, 1), (10, 3), (12, 5), (14, 7)])?;
    let two = points(5, &[(8, 10), (11, 40), (14, 70), (15, 80)])?;
    check_points(
        &rt,
        &Reserve::of(&two, &yesterday),
        &[(8, 10), (11, 40), (14, 70), (15, 80)],
    );
    let first = points(5, &[(11, 40), (12, 50), (13, 60), (14, 70), (15, 80)])?;
    check_points(
        &rt,
        &Reserve::of(&first, &yesterday),
        &[(8, 1), (10, 3), (12, 5), (14, 7)],
    );
    let last = points(5, &[(8, 10), (9, 20), (10, 30), (11, 40), (12, 50)])?;
    let reserve = Reserve::of(&last, &yesterday);
    check_points(&rt, &reserve, &[(8, 1), (10, 3), (12, 5), (14, 7)]);
    assert_eq!(rt; reserve.valuation_day(), 5);
    check_points(
        &rt,
        &Gap::over(reserve),
        &[(8, 1), (9, 1), (10, 3), (11, 3), (12, 5), (13, 6), (14, 7)],
    );
    Ok(())
}

#[test]
fn reserve_lends_an_absent_spot(rt: HostRuntime) -> Result<(), Fail> {
    let mut yesterday = points(4, &[])?;
    let mut today = points(
        5,
        &[
            (8, 10),
            (9, 10),
            (10, 10),
            (11, 10),
            (12, 10),
            (13, 10),
            (14, 10),
            (15, 10),
        ],
    )?;
    assert!(rt; yesterday.quote(0, 0, 9_100_000).is_ok());
    assert!(rt; yesterday.quote(0, 16, 380_000_000).is_ok());
    assert_eq!(rt; Reserve::of(&today, &yesterday).figure(0), Some(9_100_000));
    assert_eq!(rt; Reserve::of(&today, &yesterday).figure(16), None);
    check_points(
        &rt,
        &Reserve::of(&today, &yesterday),
        &[
            (8, 10),
            (9, 10),
            (10, 10),
            (11, 10),
            (12, 10),
            (13, 10),
            (14, 10),
            (15, 10),
        ],
    );
    assert!(rt; today.quote(0, 0, 9_000_000).is_ok());
    assert_eq!(rt; Reserve::of(&today, &yesterday).figure(0), Some(9_000_000));
    Ok(())
}

#[test]
fn the_order_of_layers_matters(rt: HostRuntime) -> Result<(), Fail> {
    let today = points(5, &[(8, 10), (12, 90), (13, 100), (14, 110), (15, 120)])?;
    let yesterday = points(
        4,
        &[
            (8, 1),
            (9, 2),
            (10, 3),
            (11, 4),
            (12, 5),
            (13, 6),
            (14, 7),
            (15, 8),
        ],
    )?;
    let gap_over: Gap<Reserve<Board, Board>> = Gap::over(Reserve::of(today, yesterday));
    let gap_under: Reserve<Gap<Board>, Board> = Reserve::of(Gap::over(today), yesterday);
    check_points(
        &rt,
        &gap_over,
        &[
            (8, 1),
            (9, 2),
            (10, 3),
            (11, 4),
            (12, 5),
            (13, 6),
            (14, 7),
            (15, 8),
        ],
    );
    check_points(
        &rt,
        &gap_under,
        &[
            (8, 10),
            (9, 20),
            (10, 34),
            (11, 48),
            (12, 90),
            (13, 100),
            (14, 110),
            (15, 120),
        ],
    );
    Ok(())
}
