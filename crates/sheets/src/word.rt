// The fields of a sheet's words.
ghost use Rattle.std.specs.Prelude.{◌≡◌, ◌/◌, ◌%◌, ◌^◌, ◌<◌};
ghost use Rattle.sheets.specs.Words.{kind, load, line_of, spare_of, day_of, figure_of};
ghost use Rattle.sheets.specs.Views.{kind_number};

// What a word is for.
#[derive(Clone, Copy, Debug, PartialEq, Eq)]
pub(crate) enum Kind {
    Head,
    Figure,
    Opening,
    Closing,
}

impl Kind {
    // A word's kind, by the number in its top two bits.
    pub(crate) fn of(word: u32) -> Kind
        ensures { kind_number result ≡ kind word }
    {
        match word >> 30 {
            0 => Kind::Head,
            1 => Kind::Figure,
            2 => Kind::Opening,
            _ => Kind::Closing,
        }
    }
}

// The field of so many bits, from bit `low` up.
fn bits(word: u32, low: u32, count: u32) -> u32
    requires low { low < 32 }
    requires count { count < 32 }
    ensures { result ≡ word / 2 ^ low % 2 ^ count }
{
    (word >> low) % (1 << count)
}

// The thirty bits below the kind.
pub(crate) fn load_of(word: u32) -> u32
    ensures { result ≡ load word }
{
    bits(word, 0, 30)
}

// The line that a head tells.
pub(crate) fn line_of(head: u32) -> usize
    ensures { result ≡ line_of head }
{
    bits(head, 24, 6) as usize
}

// The bits of a head that tell nothing.
pub(crate) fn spare_of(head: u32) -> u32
    ensures { result ≡ spare_of head }
{
    bits(head, 16, 8)
}

// The day that a head tells.
pub(crate) fn day_of(head: u32) -> u32
    ensures { result ≡ day_of head }
{
    bits(head, 0, 16)
}

// By how much a figure of forward points is raised.
const RAISE: i32 = 2_000_000;

// The figure that a word tells of a line.
pub(crate) fn figure_of(line: usize, word: u32) -> i32
    ensures { result ≡ figure_of line word }
{
    let load = load_of(word) as i32;
    match line {
        8..16 => load - RAISE,
        _ => load,
    }
}
