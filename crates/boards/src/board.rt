// A board of eight providers' quotes for the 29 lines.
ghost use Rattle.std.specs.Prelude.{◌≡◌, ◌≤◌, length};

use crate::provider::Provider;
use crate::quoting::PROVIDERS;
use days::table::DayTable;

#[derive(Clone, Copy)]
pub struct Board {
    pub(crate) valuation: u32,
    pub(crate) days: DayTable,
    pub(crate) providers: [Provider; PROVIDERS],
    ghost dated: { valuation ≤ 100000 },
    ghost eight: { length providers ≡ 8 },
}
