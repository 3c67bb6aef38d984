// Sheets: every refusal at its first, a middle and its last possible place, and what sheets mean.
// The words were worked out by hand from the format.
use crate::calls;
use layers::gap::Gap;
use layers::reserve::Reserve;
use sheets::entry::Placed;
use sheets::sheet::Sheet;
use sources::source::QuoteSource;
use std::test::Fail;

// A page with a figure at every line: valuation day 20410, the blank page's days.
const FULL: [u32; 60] = [
    0x8000_4fba,
    0x0000_0002,
    0x408f_edb4,
    0x0100_0001,
    0x4000_b98c,
    0x0200_0002,
    0x4000_b98c,
    0x0300_005c,
    0x4000_b8ce,
    0x0400_00b7,
    0x4000_b748,
    0x0500_0113,
    0x4000_b630,
    0x0600_016f,
    0x4000_b54a,
    0x0700_0226,
    0x4000_b464,
    0x0800_0009,
    0x401e_8020,
    0x0900_0020,
    0x401e_9506,
    0x0a00_003e,
    0x401e_a5be,
    0x0b00_005c,
    0x401e_b518,
    0x0c00_00b7,
    0x401e_e376,
    0x0d00_0113,
    0x401f_106c,
    0x0e00_016f,
    0x401f_3d12,
    0x0f00_0226,
    0x401f_91c2,
    0x1000_0000,
    0x5764_4fd0,
    0x1100_001e,
    0x5773_9210,
    0x1200_003c,
    0x5782_d450,
    0x1300_005a,
    0x5792_1690,
    0x1400_0078,
    0x57a1_58d0,
    0x1500_0096,
    0x57b0_9b10,
    0x1600_00b4,
    0x57bf_dd50,
    0x1700_00d2,
    0x57cf_1f90,
    0x1800_00f0,
    0x57de_61d0,
    0x1900_010e,
    0x57ed_a410,
    0x1a00_012c,
    0x57fc_e650,
    0x1b00_014a,
    0x580c_2890,
    0x1c00_0168,
    0x581b_6ad0,
    0xc000_003b,
];

// The blank page itself: no figure.
const BARE: [u32; 31] = [
    0x8000_0000,
    0x0000_0002,
    0x0100_0001,
    0x0200_0002,
    0x0300_005c,
    0x0400_00b7,
    0x0500_0113,
    0x0600_016f,
    0x0700_0226,
    0x0800_0009,
    0x0900_0020,
    0x0a00_003e,
    0x0b00_005c,
    0x0c00_00b7,
    0x0d00_0113,
    0x0e00_016f,
    0x0f00_0226,
    0x1000_0000,
    0x1100_001e,
    0x1200_003c,
    0x1300_005a,
    0x1400_0078,
    0x1500_0096,
    0x1600_00b4,
    0x1700_00d2,
    0x1800_00f0,
    0x1900_010e,
    0x1a00_012c,
    0x1b00_014a,
    0x1c00_0168,
    0xc000_001e,
];

// A word of FULL put in another's place, and the refusal that is then told, by number and place, if one is.
const CHANGES: [(usize, u32, Option<(u32, usize)>); 45] = [
    // a head where the sheet opens
    (0, 0x0000_4fba, Some((11, 0))),
    (0, 0xc000_4fba, Some((11, 0))),
    // the sheet opens twice
    (1, 0x8000_0002, Some((11, 1))),
    // a figure before any head
    (1, 0x4000_0002, Some((11, 1))),
    // closing before line 14's head
    (29, 0xc000_001d, Some((11, 29))),
    // a second figure of line 13
    (29, 0x4e00_016f, Some((11, 29))),
    // closing before line 28's head
    (57, 0xdc00_0168, Some((11, 57))),
    // after a head no opening word
    (58, 0x981b_6ad0, Some((11, 58))),
    // a second figure of line 28
    (59, 0x4000_003b, Some((11, 59))),
    // no head after line 28
    (59, 0x0000_003b, Some((11, 59))),
    // line 1 where line 0 is due
    (1, 0x0100_0002, Some((12, 1))),
    // the lowest spare bit
    (1, 0x0001_0002, Some((12, 1))),
    // the highest spare bit
    (1, 0x0080_0002, Some((12, 1))),
    // line 13 twice
    (29, 0x0d00_016f, Some((12, 29))),
    // a spare bit
    (29, 0x0e10_016f, Some((12, 29))),
    // there is no line 29
    (57, 0x1d00_0168, Some((12, 57))),
    // nor line 60
    (57, 0x3c00_0168, Some((12, 57))),
    // all spare bits
    (57, 0x1cff_0168, Some((12, 57))),
    // valuation day 100,001
    (0, 0x8001_86a1, Some((13, 0))),
    // the largest load
    (0, 0xbfff_ffff, Some((13, 0))),
    // spot 3,999,999
    (2, 0x403d_08ff, Some((13, 2))),
    // spot 20,000,001
    (2, 0x4131_2d01, Some((13, 2))),
    // TIP 500,001
    (4, 0x4007_a121, Some((13, 4))),
    // points 2,000,001
    (18, 0x403d_0901, Some((13, 18))),
    // the largest load
    (30, 0x7fff_ffff, Some((13, 30))),
    // UF 199,999,999
    (34, 0x4beb_c1ff, Some((13, 34))),
    // UF 800,000,001
    (58, 0x6faf_0801, Some((13, 58))),
    // one word too few counted
    (59, 0xc000_003a, Some((13, 59))),
    // one too many
    (59, 0xc000_003c, Some((13, 59))),
    // a count has no spare bits
    (59, 0xc100_003b, Some((13, 59))),
    // spot not at line 2's day
    (1, 0x0000_0003, Some((15, 0))),
    // TIP at day 0
    (3, 0x0100_0000, Some((15, 1))),
    // line 14 at line 13's day
    (29, 0x0e00_0113, Some((15, 14))),
    // the largest day
    (29, 0x0e00_ffff, Some((15, 14))),
    // line 28 at line 27's day
    (57, 0x1c00_014a, Some((15, 28))),
    // beyond line 7's day
    (57, 0x1c00_0227, Some((15, 28))),
    // valuation day 100,000
    (0, 0x8001_86a0, None),
    // valuation day 0
    (0, 0x8000_0000, None),
    // spot 4,000,000
    (2, 0x403d_0900, None),
    // spot 20,000,000
    (2, 0x4131_2d00, None),
    // points -2,000,000
    (18, 0x4000_0000, None),
    // points 2,000,000
    (18, 0x403d_0900, None),
    // UF 200,000,000
    (34, 0x4beb_c200, None),
    // UF 800,000,000
    (58, 0x6faf_0800, None),
    // line 28 at line 7's day
    (57, 0x1c00_0226, None),
];

// What a sheet's check tells.
fn told(words: &[u32]) -> Option<(u32, usize)> {
    calls::told(Sheet::of(words).check())
}

#[test]
fn a_word_changed_is_told(rt: HostRuntime) -> Result<(), Fail> {
    assert_eq!(rt; told(&FULL), None);
    assert_eq!(rt; told(&BARE), None);
    for (place, word, expected) in CHANGES {
        let mut words = FULL;
        *words
            .get_mut(place)
            .ok_or_else(|| Fail::new("no such word"))? = word;
        assert_eq!(rt; told(&words), expected);
    }
    Ok(())
}

#[test]
fn a_sheet_cut_short_lacks_its_next_word(rt: HostRuntime) {
    assert_eq!(rt; told(&[]), Some((11, 0)), "an empty sheet");
    for count in 0..60usize {
        assert_eq!(rt; told(&FULL[0..count]), Some((11, count)));
    }
    for count in 0..31usize {
        assert_eq!(rt; told(&BARE[0..count]), Some((11, count)));
    }
}

#[test]
fn nothing_comes_after_the_closing_word(rt: HostRuntime) -> Result<(), Fail> {
    let mut full = FULL.to_vec(rt.alloc())?;
    full.push(0xc000_003b)?;
    assert_eq!(rt;
        told(full.as_slice()),
        Some((14, 60)),
        "the last place that there is"
    );
    full.push(0)?;
    assert_eq!(rt;
        told(full.as_slice()),
        Some((14, 60)),
        "the first word is told"
    );
    let mut bare = BARE.to_vec(rt.alloc())?;
    bare.push(0x8000_0000)?;
    assert_eq!(rt;
        told(bare.as_slice()),
        Some((14, 31)),
        "the first place that there is"
    );
    let mut half = BARE[0..10].to_vec(rt.alloc())?;
    half.push(0x401e_8020)?;
    half.extend_from_slice(&BARE[10..30])?;
    half.push(0xc000_001f)?;
    assert_eq!(rt; told(half.as_slice()), None, "one figure");
    half.push(0xc000_001f)?;
    assert_eq!(rt; told(half.as_slice()), Some((14, 32)));
    Ok(())
}

#[test]
fn the_first_question_that_fails_is_told(rt: HostRuntime) -> Result<(), Fail> {
    let mut words = FULL.to_vec(rt.alloc())?;
    words.push(0)?;
    assert!(rt; words.len() == 61);
    words[57] = 0x1c00_0000;
    assert_eq!(rt; told(words.as_slice()), Some((14, 60)), "14 before 15");
    words[59] = 0xc000_003c;
    assert_eq!(rt; told(words.as_slice()), Some((13, 59)), "13 before 14");
    words[58] = 0x7fff_ffff;
    assert_eq!(rt; told(words.as_slice()), Some((13, 58)), "word by word");
    words[57] = 0x5c01_0000;
    assert_eq!(rt;
        told(words.as_slice()),
        Some((11, 57)),
        "11 before 12 of the same word"
    );
    words[57] = 0x1c01_0000;
    assert_eq!(rt; told(words.as_slice()), Some((12, 57)));
    words[0] = 0x0001_86a1;
    assert_eq!(rt;
        told(words.as_slice()),
        Some((11, 0)),
        "11 before 13 of the same word"
    );
    Ok(())
}

#[test]
fn a_sheet_means_its_page(rt: HostRuntime) {
    let sheet = Sheet::of(&FULL);
    assert_eq!(rt; sheet.valuation_day(), 20_410);
    assert_eq!(rt; sheet.day(7), 550);
    assert_eq!(rt; sheet.day(28), 360);
    assert_eq!(rt; sheet.day(29), 0);
    assert_eq!(rt; sheet.figure(0), Some(9_432_500));
    assert_eq!(rt; sheet.figure(8), Some(-1_120), "points are lowered");
    assert_eq!(rt; sheet.figure(15), Some(68_930));
    assert_eq!(rt; sheet.figure(16), Some(392_450_000));
    assert_eq!(rt; sheet.figure(28), Some(404_450_000));
    assert_eq!(rt; sheet.figure(29), None);
    assert_eq!(rt; Sheet::of(&BARE).figure(0), None);
    let refused = Sheet::of(&FULL[0..59]);
    assert_eq!(rt; refused.valuation_day(), 0, "the blank page");
    assert_eq!(rt; refused.day(3), 92);
    assert_eq!(rt; refused.figure(0), None);
}

// Place, line, day and figure of each entry, added up; each with a weight of its own.
fn summed(sheet: &Sheet<'_>) -> (u64, u64, i64) {
    let mut places = 0u64;
    let mut days = 0u64;
    let mut figures = 0i64;
    for Placed { place, entry } in sheet.entries() {
        let weight = entry.line() as u64 + 1;
        places = places.wrapping_add(weight.wrapping_mul(place as u64));
        days = days.wrapping_add(weight.wrapping_mul(u64::from(entry.day())));
        figures = figures.wrapping_add(i64::from(entry.figure().unwrap_or(0)));
    }
    (places, days, figures)
}

#[test]
fn entries_are_handed_out_in_order(rt: HostRuntime) -> Result<(), Fail> {
    let sheet = Sheet::of(&FULL);
    let mut entries = sheet.entries();
    let first = entries.next().ok_or_else(|| Fail::new("no entry"))?;
    assert_eq!(rt;
        (first.place, first.entry.line(), first.entry.day()),
        (1, 0, 2)
    );
    assert_eq!(rt; first.entry.figure(), Some(9_432_500));
    assert_eq!(rt; sheet.entries().count(), 29);
    assert_eq!(rt; Sheet::of(&BARE).entries().count(), 29);
    assert_eq!(rt;
        Sheet::of(&FULL[0..59]).entries().count(),
        0,
        "a refused sheet has none"
    );
    assert_eq!(rt; summed(&sheet), (16_675, 91_913, 5_189_811_330));
    assert_eq!(rt; summed(&Sheet::of(&BARE)), (8_555, 91_913, 0));
    Ok(())
}

#[test]
fn layers_stand_over_sheets(rt: HostRuntime) -> Result<(), Fail> {
    // line 10 without its figure
    let mut words = FULL[0..22].to_vec(rt.alloc())?;
    words.extend_from_slice(&FULL[23..59])?;
    words.push(0xc000_003a)?;
    let sheet = Sheet::of(words.as_slice());
    assert_eq!(rt; sheet.figure(10), None);
    // (4230·(92−62) + 12440·(62−32)) / 60 = 8335
    assert_eq!(rt; Gap::over(sheet).figure(10), Some(8_335));
    let today = calls::board(5, [1, 0, 0, 0, 0, 0, 0, 0])?;
    let reserve = Reserve::of(today, sheet);
    assert_eq!(rt;
        reserve.figure(0),
        Some(9_432_500),
        "the sheet lends its spot"
    );
    assert_eq!(rt; reserve.figure(9), Some(4_230), "and all its points");
    assert_eq!(rt; reserve.figure(16), None);
    assert_eq!(rt; reserve.valuation_day(), 5);
    assert_eq!(rt; Gap::over(reserve).figure(10), Some(8_335));
    Ok(())
}
