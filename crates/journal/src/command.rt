// What a line of a journal asks for.
ghost use Rattle.std.specs.Prelude.{Some};
ghost use Rattle.journal.specs.Grammar.{board_key};
ghost use Rattle.journal.specs.Spelling.{spelled};

use boards::quoting::PROVIDERS;
use days::lines::LINES;
use std::fmt;

#[derive(Clone, Copy)]
pub enum Which {
    Today,
    Yesterday,
}

#[derive(Clone, Copy)]
pub enum Base {
    Today,
    ReserveTodayYesterday,
}

// What a source is made of: boards, and whether its gaps are filled.
#[derive(Clone, Copy)]
pub struct Pile {
    pub filled: bool,
    pub base: Base,
}

#[derive(Clone, Copy)]
pub enum Command {
    BlankDays,
    Days {
        days: [u32; LINES],
    },
    Make {
        which: Which,
        day: u32,
        shares: [u32; PROVIDERS],
    },
    Quote {
        which: Which,
        provider: u32,
        line: u32,
        figure: i32,
    },
    Unquote {
        which: Which,
        provider: u32,
        line: u32,
    },
    Source {
        pile: Pile,
    },
    Page,
}

impl fmt::Display for Which {
    ghost output = { λ w. Some (spelled (board_key w)) };

    // The word that names it in a journal.
    fn fmt<W: fmt::Write>(&self, f: &mut fmt::Formatter<W>) -> fmt::Result {
        f.write_str(match self {
            Which::Today => "today",
            Which::Yesterday => "yesterday",
        })
    }
}
