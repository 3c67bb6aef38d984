// The entries of a sheet, and their reader.
ghost use Rattle.std.specs.Prelude.{◌+◌, ◌^◌, ◌<◌, length};

// One line of a sheet, as the sheet's own words.
#[derive(Clone, Copy)]
pub enum Entry<'a> {
    // A head alone: its line shows no figure.
    Bare { head: &'a u32 },
    // A head with its figure.
    Quoted { head: &'a u32, figure: &'a u32 },
}

// An entry with the place of its head among the sheet's words, from 0; its figure stands at the next place.
#[derive(Clone, Copy)]
pub struct Placed<'a> {
    pub place: usize,
    pub entry: Entry<'a>,
}

// Hands out one entry after another: those of the words that are left, from a place on.
#[derive(Clone, Copy)]
pub struct Entries<'a> {
    pub(crate) rest: &'a [u32],
    pub(crate) place: usize,
    ghost fits: { place + length rest.now < 2 ^ 64 },
}
