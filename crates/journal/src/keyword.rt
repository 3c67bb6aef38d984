// The words that a journal is made of, but for its numbers.
ghost use Rattle.std.specs.Prelude.{◌≡◌, Decides, MatchOption};
ghost use Rattle.journal.specs.Spelling.{spelled, Unspelled};

#[derive(Clone, Copy, PartialEq, Eq)]
pub(crate) enum Keyword {
    Quote,
    Unquote,
    Today,
    Yesterday,
    Source,
    Gap,
    Reserve,
    Page,
    Days,
    Blank,
}

impl Keyword {
    // The keyword that a word spells, if it spells one.
    pub(crate) fn of(word: &[u8]) -> Option<Keyword>
        ensures { MatchOption result (Unspelled word.now) (λ k. spelled k ≡ word.now) }
    {
        match word {
            b"quote" => Some(Keyword::Quote),
            b"unquote" => Some(Keyword::Unquote),
            b"today" => Some(Keyword::Today),
            b"yesterday" => Some(Keyword::Yesterday),
            b"source" => Some(Keyword::Source),
            b"gap" => Some(Keyword::Gap),
            b"reserve" => Some(Keyword::Reserve),
            b"page" => Some(Keyword::Page),
            b"days" => Some(Keyword::Days),
            b"blank" => Some(Keyword::Blank),
            _ => None,
        }
    }

    // Is it what a word spells?
    pub(crate) fn is(&self, word: &[u8]) -> bool
        ensures { Decides result (spelled self.now ≡ word.now) }
    {
        Keyword::of(word) == Some(*self)
    }
}
