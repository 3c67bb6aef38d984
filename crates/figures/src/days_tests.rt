// Day tables: a breach of each sentence of the rule, told at its line.
use crate::calls::told;
use days::table::DayTable;
use std::test::Fail;

const BLANK: [u32; 29] = [
    2, 1, 2, 92, 183, 275, 367, 550, 9, 32, 62, 92, 183, 275, 367, 550, 0, 30, 60, 90, 120, 150,
    180, 210, 240, 270, 300, 330, 360,
];

// A line of the blank page's table put to another day, and the line that is then told, if one is.
const CHANGES: [(usize, u32, Option<usize>); 27] = [
    (0, 1, Some(0)),
    (0, 3, Some(0)),
    (1, 0, Some(1)),
    (1, 2, Some(2)),
    (2, 1, Some(0)),
    (2, 9, Some(0)),
    (3, 2, Some(3)),
    (3, 3, None),
    (3, 183, Some(4)),
    (4, 92, Some(4)),
    (7, 601, Some(7)),
    (7, 600, None),
    (7, 549, Some(15)),
    (7, 4_294_967_295, Some(7)),
    (8, 2, Some(8)),
    (8, 3, None),
    (8, 32, Some(9)),
    (15, 551, Some(15)),
    (15, 367, Some(15)),
    (16, 1, Some(16)),
    (17, 0, Some(17)),
    (17, 1, None),
    (17, 60, Some(18)),
    (18, 30, Some(18)),
    (28, 330, Some(28)),
    (28, 550, None),
    (28, 551, Some(28)),
];

// The line that a table of these days is refused at; none where it is made.
fn breach(days: [u32; 29]) -> Option<usize> {
    told(DayTable::new(days)).map(|(_, place)| place)
}

#[test]
fn each_sentence_is_told_at_its_line(rt: HostRuntime) -> Result<(), Fail> {
    assert_eq!(rt; breach(BLANK), None);
    for (line, day, expected) in CHANGES {
        let mut days = BLANK;
        *days.get_mut(line).ok_or_else(|| Fail::new("no such line"))? = day;
        assert_eq!(rt; breach(days), expected);
    }
    Ok(())
}

#[test]
fn the_lowest_breach_is_told(rt: HostRuntime) {
    let mut days = BLANK;
    days[28] = 0;
    days[17] = 0;
    assert_eq!(rt; breach(days), Some(17));
    days[9] = 9;
    assert_eq!(rt; breach(days), Some(9));
    assert_eq!(rt; breach([0; 29]), Some(1));
    assert_eq!(rt; breach([601; 29]), Some(0));
}

#[test]
fn a_line_has_its_day(rt: HostRuntime) {
    let blank = DayTable::blank();
    assert_eq!(rt; blank.day(0), 2);
    assert_eq!(rt; blank.day(7), 550);
    assert_eq!(rt; blank.day(16), 0);
    assert_eq!(rt; blank.day(28), 360);
    assert_eq!(rt; blank.day(29), 0);
}
