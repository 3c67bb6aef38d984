// How a day table is made and asked.
ghost use Rattle.std.specs.Prelude.{◌≡◌, ◌<◌, Decides, MatchOption};
ghost use Rattle.days.specs.Days.{day, Lawful, Breach, blank_days};
ghost use Rattle.days.specs.Tabled.{Tabled};
ghost use Rattle.days.specs.Bounds.{Bounded};

use crate::fault::SourceFault;
use crate::lines::LINES;
use crate::table::DayTable;

const BLANK_DAYS: [u32; LINES] = [
    2, 1, 2, 92, 183, 275, 367, 550, 9, 32, 62, 92, 183, 275, 367, 550, 0, 30, 60, 90, 120, 150,
    180, 210, 240, 270, 300, 330, 360,
];

// Does the rule allow the line its day, given the other days?
fn is_bounded(days: &[u32; LINES], line: usize) -> bool
    requires { line < 29 }
    ensures { Decides result (Bounded days.now line) }
{
    let day = |line: usize| u64::from(days[line]);
    let reach = day(7).min(600);
    let (least, most) = match line {
        0 => (day(2), day(2).min(600)),
        1 => (1, 600),
        2 => (day(1) + 1, 600),
        3 => (day(2) + 1, 600),
        4..8 => (day(line - 1) + 1, 600),
        8 => (day(2) + 1, reach),
        16 => (0, 0),
        17 => (1, reach),
        _ => (day(line - 1) + 1, reach),
    };
    least <= day(line) && day(line) <= most
}

// The lowest line in breach of the lawful-day rule, if there is one.
fn lowest_breach(days: &[u32; LINES]) -> Option<usize>
    ensures { MatchOption result (Lawful days.now) (Breach days.now) }
{
    (0..LINES).find(|line| !is_bounded(days, *line))
}

impl DayTable {
    // The table of these days, or a refusal at the lowest line in breach of the lawful-day rule.
    pub fn new(days: [u32; LINES]) -> Result<DayTable, SourceFault>
        ensures { Tabled days result }
    {
        match lowest_breach(&days) {
            Some(line) => Err(SourceFault::UnlawfulDay { line }),
            None => Ok(DayTable { days }),
        }
    }

    // The blank page's days.
    pub fn blank() -> DayTable
        ensures days { result.days ≡ blank_days }
        ensures lawful { Lawful result.days }
    {
        DayTable { days: BLANK_DAYS }
    }

    // A line's day; 0 above line 28.
    pub fn day(&self, line: usize) -> u32
        ensures answer { result ≡ day self.now.days line }
        ensures lawful { Lawful self.now.days }
    {
        self.days.get(line).copied().unwrap_or(0)
    }
}
