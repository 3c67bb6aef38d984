// What reading a sheet gives.
ghost use Rattle.std.specs.Prelude.{◌≡◌, None, slice_index_or};

use days::lines::LINES;
use days::table::DayTable;

#[derive(Clone, Copy)]
pub(crate) struct Reading {
    pub(crate) valuation: u32,
    pub(crate) days: DayTable,
    pub(crate) figures: [Option<i32>; LINES],
}

impl Reading {
    // A line's figure, or nothing; nothing above line 28.
    pub(crate) fn figure(&self, line: usize) -> Option<i32>
        ensures { result ≡ slice_index_or self.now.figures line None }
    {
        *self.figures.get(line)?
    }
}
