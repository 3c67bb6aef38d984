// What an entry tells, and how entries are handed out.
ghost use Rattle.std.specs.Prelude.{◌≡◌, ◌≤◌, length, drop};
ghost use Rattle.sheets.specs.Words.{line_of, spare_of, day_of};
ghost use Rattle.sheets.specs.Entries.{figure_in};
ghost use Rattle.sheets.specs.Views.{head_of, seen_at};
ghost use Rattle.sheets.specs.Reader.{Steps, ReadsFrom};
ghost use Rattle.std.specs.Iterator.{at_most};

use crate::entry::{Entries, Entry, Placed};
use crate::word::{Kind, day_of, figure_of, line_of, spare_of};

impl Entry<'_> {
    fn head(&self) -> u32
        ensures { result ≡ head_of self.now }
    {
        match self {
            Entry::Bare { head } | Entry::Quoted { head, .. } => **head,
        }
    }

    // The line that its head tells.
    pub fn line(&self) -> usize
        ensures { result ≡ line_of (head_of self.now) }
    {
        line_of(self.head())
    }

    // The bits of its head that tell nothing.
    pub(crate) fn spare(&self) -> u32
        ensures { result ≡ spare_of (head_of self.now) }
    {
        spare_of(self.head())
    }

    // The line's day.
    pub fn day(&self) -> u32
        ensures { result ≡ day_of (head_of self.now) }
    {
        day_of(self.head())
    }

    // The line's figure, if the entry has one.
    pub fn figure(&self) -> Option<i32>
        ensures { result ≡ figure_in (seen_at 0 self.now) }
    {
        match self {
            Entry::Bare { .. } => None,
            Entry::Quoted { figure, .. } => Some(figure_of(self.line(), **figure)),
        }
    }
}

impl<'a> Entries<'a> {
    // The entries of words that follow an opening word.
    pub(crate) fn after_opening(words: &'a [u32]) -> Entries<'a>
        ensures place { result.place ≡ 1 }
        ensures rest { result.rest.now ≡ drop 1 words.now }
        ensures lent { 1 ≤ length words.now → ReadsFrom words.entry result }
    {
        let rest = match words {
            [_, rest @ ..] => rest,
            [] => words,
        };
        Entries { rest, place: 1 }
    }
}

impl<'a> Iterator for Entries<'a> {
    type Item = Placed<'a>;

    ghost next_gives = { Steps };

    ghost remaining = { λ s. at_most (length s.rest.now) };

    // The next entry; at the end nothing, and the reader stays there.
    fn next(&mut self) -> Option<Placed<'a>> {
        let place = self.place;
        match self.rest {
            [head, figure, rest @ ..]
                if Kind::of(*head) == Kind::Head && Kind::of(*figure) == Kind::Figure => {
                self.place = place + 2;
                self.rest = rest;
                let entry = Entry::Quoted { head, figure };
                Some(Placed { place, entry })
            }
            [head, rest @ ..] if Kind::of(*head) == Kind::Head => {
                self.place = place + 1;
                self.rest = rest;
                let entry = Entry::Bare { head };
                Some(Placed { place, entry })
            }
            _ => None,
        }
    }
}
