// A provider on a board: its share in every mean, and its latest quotes for the 29 lines.
ghost use Rattle.std.specs.Prelude.{◌≡◌, ℕ, ◌≤◌, true, None, length, slice_index_or};
ghost use Rattle.boards.specs.Quotes.{fits};

use days::lines::LINES;

#[derive(Clone, Copy)]
pub(crate) struct Provider {
    pub(crate) share: u32,
    pub(crate) quotes: [Option<i32>; LINES],
    ghost shared: { share ≤ 10000 },
    ghost long: { length quotes ≡ 29 },
    ghost ranged: { (k : ℕ) → fits k (slice_index_or quotes k None) ≡ true },
}
