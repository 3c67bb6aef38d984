// A table of the 29 lines' days. No unlawful one exists.
ghost use Rattle.std.specs.Prelude.{◌≡◌, ℕ, ◌<◌, length};
ghost use Rattle.days.specs.Bounds.{Bounded};

use crate::lines::LINES;

#[derive(Clone, Copy)]
pub struct DayTable {
    pub(crate) days: [u32; LINES],
    ghost long: { length days ≡ 29 },
    ghost lawful: { (k : ℕ) → k < 29 → Bounded days k },
}
