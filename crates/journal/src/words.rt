// The words of a line, one after another.
ghost use Rattle.std.specs.Prelude.{◌≡◌, ℕ, ◌≤◌, Bool, length, take, drop};
ghost use Rattle.std.specs.Iterator.{at_most};
ghost use Rattle.journal.specs.Speech.{is_end, is_blank, before, since, said, Steps};

// What is left of a line, and how many words were taken from it.
#[derive(Clone, Copy)]
pub(crate) struct Words<'a> {
    rest: &'a [u8],
    taken: usize,
}

impl<'a> Words<'a> {
    pub(crate) fn of(line: &'a [u8]) -> Words<'a>
        ensures { result.rest.now ≡ said line.now }
    {
        let (rest, _) = line.split_at(run(line, is_end));
        Words { rest, taken: 0 }
    }

    // The place of the word taken last, counted from 1.
    pub(crate) fn place(&self) -> usize {
        self.taken
    }
}

impl<'a> Iterator for Words<'a> {
    type Item = &'a [u8];

    ghost next_gives = { Steps };

    ghost remaining = { λ s. at_most (length s.rest.now) };

    // The next word, if there is one.
    fn next(&mut self) -> Option<&'a [u8]> {
        let (_, text) = self.rest.split_at(run(self.rest, |byte| !is_blank(byte)));
        let (word, rest) = text.split_at(run(text, is_blank));
        self.rest = rest;
        self.taken = self.taken.saturating_add(1);
        (!word.is_empty()).then_some(word)
    }
}

// How many bytes come before the first that a test takes.
fn run<F: Fn(u8) -> bool>(text: &[u8], ends: F) -> usize
    ghost is: { ℕ → Bool }
    requires may { F.IsAlwaysCallable ends }
    requires tells { (x : ℕ) (r : Bool) → F.post ends x r → r ≡ is x }
    ensures within { result ≤ length text.now }
    ensures front { take result text.now ≡ before is text.now }
    ensures back { drop result text.now ≡ since is text.now }
{
    text.iter().copied().position(ends).unwrap_or(text.len())
}

// What a line says ends before a number sign or a newline.
fn is_end(byte: u8) -> bool
    ensures { result ≡ is_end byte }
{
    matches!(byte, b'#' | b'\n')
}

// What stands between words.
fn is_blank(byte: u8) -> bool
    ensures { result ≡ is_blank byte }
{
    matches!(byte, b' ' | b'\t' | b'\r')
}
