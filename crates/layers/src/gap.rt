// A layer that fills gaps by straight lines.
ghost use Rattle.std.specs.Prelude.{◌≡◌, ℕ, ◌<◌, ◌≤◌, Some, None, MatchOption};
ghost use Rattle.days.specs.Days.{day};
ghost use Rattle.sources.specs.Page.{Page};
ghost use Rattle.layers.specs.Gap.{straight, Hole, Below, Above, NoneBelow, NoneAbove, Gapped};
ghost use Rattle.layers.specs.GapPage.{gap_figure, gap_page};

use days::table::DayTable;
use sources::rounding::{floor_div, weigh};
use sources::source::QuoteSource;
use std::ops::Range;

// A figure at its day.
#[derive(Clone, Copy)]
struct Dated {
    day: u32,
    figure: i32,
}

// The straight line through two figures, at the lower one's day or between theirs.
fn straight_at(low: Dated, high: Dated, day: u32) -> Option<i32>
    requires after { low.day ≤ day }
    requires before { day < high.day }
    ensures { result ≡ Some (straight low.day low.figure high.day high.figure day) }
{
    let sum = weigh(high.day - day, low.figure) + weigh(day - low.day, high.figure);
    let figure = floor_div(sum, high.day - low.day)?;
    Some(figure as i32)
}

// A line's figure at its day, if the line is present.
fn shown<S: QuoteSource>(s: &S, line: usize) -> Option<Dated>
    ensures { MatchOption result ((S.page s.now).figure line ≡ None) (λ n. (n.day ≡ day (S.page s.now).days line) × ((S.page s.now).figure line ≡ Some n.figure)) }
{
    s.figure(line).map(|figure| Dated {
        day: s.day(line),
        figure,
    })
}

// The nearest present line below a line, from line `from` on.
fn nearest_below<S: QuoteSource>(s: &S, from: usize, line: usize) -> Option<Dated>
    ensures { MatchOption result (NoneBelow (S.page s.now) from line) (λ n. (j : ℕ) × Below (S.page s.now) from line j n.figure × (n.day ≡ day (S.page s.now).days j)) }
{
    (from..line).rev().find_map(|j| shown(s, j))
}

// The nearest present line above a line, before line `end`.
fn nearest_above<S: QuoteSource>(s: &S, line: usize, end: usize) -> Option<Dated>
    requires { line < 29 }
    ensures { MatchOption result (NoneAbove (S.page s.now) end line) (λ n. (j : ℕ) × Above (S.page s.now) end line j n.figure × (n.day ≡ day (S.page s.now).days j)) }
{
    (line + 1..end).find_map(|j| shown(s, j))
}

// The figure of an absent line of a group.
fn bridge<S: QuoteSource>(s: &S, group: Range<usize>, line: usize) -> Option<i32>
    requires { Hole (S.page s.now) group.start group.end line }
    ensures { result ≡ gap_figure (S.page s.now) line }
{
    let low = nearest_below(s, group.start, line)?;
    let high = nearest_above(s, line, group.end)?;
    straight_at(low, high, s.day(line))
}

// What an absent line has once the gaps are filled.
#[tactic(auto, using(crate::proofs::Filling::at_apart))]
fn fill<S: QuoteSource>(s: &S, line: usize) -> Option<i32>
    requires { (S.page s.now).figure line ≡ None }
    ensures { result ≡ gap_figure (S.page s.now) line }
{
    match line {
        8..16 => bridge(s, 8..16, line),
        16..29 => bridge(s, 16..29, line),
        _ => None,
    }
}

// A source with its gaps filled.
#[derive(Clone, Copy, Drop)]
pub struct Gap<S> {
    below: S,
}

impl<S: QuoteSource> Gap<S> {
    // The source below with its gaps filled: its page is the one page so filled.
    pub fn over(below: S) -> Gap<S>
        ensures kept { result.below ≡ below }
        ensures means { Gapped (S.page below) (gap_page (S.page below)) }
        ensures one { (q : Page) → Gapped (S.page below) q → q ≡ gap_page (S.page below) }
    {
        Gap { below }
    }
}

#[tactic(auto, using(crate::proofs::Filling::at_line, crate::proofs::Neighbours::gap_sound))]
impl<S: QuoteSource> QuoteSource for Gap<S> {
    ghost page = { λ g. gap_page (S.page g.below) };

    fn valuation_day(&self) -> u32 {
        self.below.valuation_day()
    }

    fn days(&self) -> DayTable {
        self.below.days()
    }

    fn figure(&self, line: usize) -> Option<i32> {
        self.below.figure(line).or_else(|| fill(&self.below, line))
    }
}
