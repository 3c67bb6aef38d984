// The 29 quoted lines and the range of each one's figure.
ghost use Rattle.std.specs.Prelude.{◌≡◌, ◌<◌, ◌≤◌, ◌&&◌, MatchOption, nat_lt};
ghost use Rattle.days.specs.Lines.{lowest, highest, in_range};

pub const LINES: usize = 29;

// The lowest and the highest figure that a line may show.
#[derive(Clone, Copy)]
pub struct FigureRange {
    pub lowest: i32,
    pub highest: i32,
}

const SPOT: FigureRange = FigureRange {
    lowest: 4_000_000,
    highest: 20_000_000,
};

const RATE: FigureRange = FigureRange {
    lowest: 0,
    highest: 500_000,
};

const POINTS: FigureRange = FigureRange {
    lowest: -2_000_000,
    highest: 2_000_000,
};

const UF: FigureRange = FigureRange {
    lowest: 200_000_000,
    highest: 800_000_000,
};

// The range of a line's figure; none above line 28.
pub fn figure_range(line: usize) -> Option<FigureRange>
    ensures { MatchOption result (29 ≤ line) (λ range. (line < 29) × (range.lowest ≡ lowest line) × (range.highest ≡ highest line)) }
{
    let range = match line {
        0 => SPOT,
        1..8 => RATE,
        8..16 => POINTS,
        16..29 => UF,
        _ => return None,
    };
    Some(range)
}

// Is this a figure that the line may show?
pub fn in_range(line: usize, figure: i32) -> bool
    ensures { result ≡ (nat_lt line 29 && in_range line figure) }
{
    figure_range(line).is_some_and(|range| range.lowest <= figure && figure <= range.highest)
}
