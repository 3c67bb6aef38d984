// Commands out of the words of a line.
ghost use Rattle.std.specs.Prelude.{◌≡◌, ℕ, List, [], if◌then◌else◌, Some, None, ◌⊎◌, Decides, MatchOption, MatchResult, ◌≢◌};
ghost use Rattle.std.specs.Fn.{FnOnceReturnsAt};
ghost use Rattle.std.specs.Result.{result_ok};
ghost use Rattle.journal.specs.Decimal.{natural_of, figure_of};
ghost use Rattle.journal.specs.Speech.{first_word, after_word};
ghost use Rattle.journal.specs.Grammar.{after, Numbers, board_key, BaseWords, base_count, Taken, Led, Parsed};
ghost use Rattle.journal.specs.Spelling.{spelled};
ghost use Rattle.journal.specs.declared.command.Which.{Which as Board};
ghost use Rattle.journal.specs.declared.command.Base.{Base as Bottom};
ghost use Rattle.journal.specs.declared.keyword.Keyword.TheVariants.{Quote as quote_key, Unquote as unquote_key, Source as source_key, Days as days_key};

use crate::command::{Base, Command, Pile, Which};
use crate::complaint::{Complaint, WordFault};
use crate::keyword::Keyword;
use crate::number;
use crate::words::Words;
use boards::quoting::PROVIDERS;
use days::lines::LINES;

// A word that the command needs.
fn word<'a>(words: &mut Words<'a>) -> Result<&'a [u8], Complaint>
    ensures found { MatchResult result (λ w. (w.now ≡ first_word words.old.rest.now) × (w.now ≢ [])) (λ _. first_word words.old.rest.now ≡ []) }
    ensures left { words.new.rest.now ≡ after_word words.old.rest.now }
{
    words
        .next()
        .ok_or_else(|| complaint(words, WordFault::Missing))
}

// What is wrong with the word taken last.
fn complaint(words: &Words<'_>, fault: WordFault) -> Complaint {
    Complaint::Word {
        place: words.place(),
        fault,
    }
}

// Reads a word that the command needs.
fn read<T, F: FnOnce(&[u8]) -> Option<T>>(
    words: &mut Words<'_>,
    says: F,
    fault: WordFault,
) -> Result<T, Complaint>
    requires { F.IsAlwaysCallable says }
    ensures value { MatchResult result (λ x. FnOnceReturnsAt F.FnOnce says (first_word words.old.rest.now) (Some x)) (λ _. (first_word words.old.rest.now ≡ []) ⊎ FnOnceReturnsAt F.FnOnce says (first_word words.old.rest.now) None) }
    ensures left { words.new.rest.now ≡ after_word words.old.rest.now }
{
    let word = word(words)?;
    says(word).ok_or_else(|| complaint(words, fault))
}

fn number(words: &mut Words<'_>) -> Result<u32, Complaint>
    ensures value { result_ok result ≡ natural_of (first_word words.old.rest.now) }
    ensures left { words.new.rest.now ≡ after_word words.old.rest.now }
{
    read(words, number::natural, WordFault::NoNumber)
}

fn figure(words: &mut Words<'_>) -> Result<i32, Complaint>
    ensures value { result_ok result ≡ figure_of (first_word words.old.rest.now) }
    ensures left { words.new.rest.now ≡ after_word words.old.rest.now }
{
    read(words, number::figure, WordFault::NoFigure)
}

fn which(words: &mut Words<'_>) -> Result<Which, Complaint>
    ensures board { MatchResult result (λ w. first_word words.old.rest.now ≡ spelled (board_key w)) (λ _. (w : Board) → first_word words.old.rest.now ≢ spelled (board_key w)) }
    ensures left { words.new.rest.now ≡ after_word words.old.rest.now }
{
    read(words, board, WordFault::NoBoard)
}

// The board that a word names, if it names one.
fn board(word: &[u8]) -> Option<Which>
    ensures { MatchOption result ((w : Board) → word.now ≢ spelled (board_key w)) (λ w. word.now ≡ spelled (board_key w)) }
{
    match Keyword::of(word)? {
        Keyword::Today => Some(Which::Today),
        Keyword::Yesterday => Some(Which::Yesterday),
        _ => None,
    }
}

// As many numbers as the array holds.
fn numbers<const N: usize>(words: &mut Words<'_>) -> Result<[u32; N], Complaint>
    ensures { MatchResult result (λ ns. Numbers words.old.rest.now N ns × (words.new.rest.now ≡ after words.old.rest.now N)) (λ _. (ns : List ℕ) → Numbers words.old.rest.now N ns → ⊥) }
{
    let mut values = [0; N];
    for value in &mut values {
        *value = number(words)?;
    }
    Ok(values)
}

fn make(which: Which, words: &mut Words<'_>) -> Result<Command, Complaint>
    ensures { Taken (board_key which) words.old.rest.now words.new.rest.now result }
{
    let day = number(words)?;
    let shares = numbers::<PROVIDERS>(words)?;
    Ok(Command::Make { which, day, shares })
}

fn quote(words: &mut Words<'_>) -> Result<Command, Complaint>
    ensures { Taken quote_key words.old.rest.now words.new.rest.now result }
{
    let which = which(words)?;
    let provider = number(words)?;
    let line = number(words)?;
    let figure = figure(words)?;
    Ok(Command::Quote {
        which,
        provider,
        line,
        figure,
    })
}

fn unquote(words: &mut Words<'_>) -> Result<Command, Complaint>
    ensures { Taken unquote_key words.old.rest.now words.new.rest.now result }
{
    let which = which(words)?;
    let provider = number(words)?;
    let line = number(words)?;
    Ok(Command::Unquote {
        which,
        provider,
        line,
    })
}

// Takes the next word if it is this one.
fn take(words: &mut Words<'_>, key: Keyword) -> bool
    ensures test { Decides result (first_word words.old.rest.now ≡ spelled key) }
    ensures left { words.new.rest.now ≡ (if result then after_word words.old.rest.now else words.old.rest.now) }
{
    let mut ahead = *words;
    let found = ahead.next().is_some_and(|word| key.is(word));
    if found {
        *words = ahead;
    }
    found
}

fn days(words: &mut Words<'_>) -> Result<Command, Complaint>
    ensures { Taken days_key words.old.rest.now words.new.rest.now result }
{
    if take(words, Keyword::Blank) {
        return Ok(Command::BlankDays);
    }
    let days = numbers::<LINES>(words)?;
    Ok(Command::Days { days })
}

// Takes the next word, which has to be this one in a source.
fn expect(words: &mut Words<'_>, key: Keyword) -> Result<(), Complaint>
    ensures test { MatchResult result (λ _. first_word words.old.rest.now ≡ spelled key) (λ _. first_word words.old.rest.now ≢ spelled key) }
    ensures left { words.new.rest.now ≡ after_word words.old.rest.now }
{
    if key.is(word(words)?) {
        Ok(())
    } else {
        Err(complaint(words, WordFault::NoSource))
    }
}

fn base(words: &mut Words<'_>) -> Result<Base, Complaint>
    ensures { MatchResult result (λ b. BaseWords words.old.rest.now b × (words.new.rest.now ≡ after words.old.rest.now (base_count b))) (λ _. (b : Bottom) → BaseWords words.old.rest.now b → ⊥) }
{
    if take(words, Keyword::Today) {
        return Ok(Base::Today);
    }
    expect(words, Keyword::Reserve)?;
    expect(words, Keyword::Today)?;
    expect(words, Keyword::Yesterday)?;
    Ok(Base::ReserveTodayYesterday)
}

fn source(words: &mut Words<'_>) -> Result<Command, Complaint>
    ensures { Taken source_key words.old.rest.now words.new.rest.now result }
{
    let filled = take(words, Keyword::Gap);
    let base = base(words)?;
    let pile = Pile { filled, base };
    Ok(Command::Source { pile })
}

fn command(first: &[u8], words: &mut Words<'_>) -> Result<Command, Complaint>
    ensures { Led first.now words.old.rest.now words.new.rest.now result }
{
    match Keyword::of(first) {
        Some(Keyword::Days) => days(words),
        Some(Keyword::Today) => make(Which::Today, words),
        Some(Keyword::Yesterday) => make(Which::Yesterday, words),
        Some(Keyword::Quote) => quote(words),
        Some(Keyword::Unquote) => unquote(words),
        Some(Keyword::Source) => source(words),
        Some(Keyword::Page) => Ok(Command::Page),
        _ => Err(Complaint::UnknownCommand),
    }
}

// The command of a line, or none if the line says nothing.
pub fn parse(line: &[u8]) -> Result<Option<Command>, Complaint>
    ensures { Parsed line.now result }
{
    let mut words = Words::of(line);
    let Some(first) = words.next() else {
        return Ok(None);
    };
    let command = command(first, &mut words)?;
    match words.next() {
        None => Ok(Some(command)),
        Some(_) => Err(complaint(&words, WordFault::Surplus)),
    }
}
