// How a board is made and quoted on.
ghost use Rattle.std.specs.Prelude.{◌≡◌, ℕ, ◌<◌, ◌≤◌, Some, None, MatchResult, OnOk, set, map, replicate, [], ◌∷◌, ◌++◌};
ghost use Rattle.days.specs.Questions.{ask as question, refusal_of, first_failing};
ghost use Rattle.days.specs.Told.{told_source};
ghost use Rattle.sources.specs.Page.{Present};
ghost use Rattle.boards.specs.declared.provider.Provider.{Provider as Provided};
ghost use Rattle.boards.specs.Quotes.{share_of};
ghost use Rattle.boards.specs.Board.{shares_of, board_page, Fresh, OnlyQuote, OnlyLine};
ghost use Rattle.boards.specs.Quoting.{of_provider, of_line, of_figure, unquoting, quoting, Refused};

use crate::board::Board;
use crate::provider::Provider;
use days::fault::SourceFault;
use days::lines::{LINES, in_range};
use days::table::DayTable;
use sources::source::LAST_VALUATION_DAY;
use std::array;

pub const PROVIDERS: usize = 8;

const LARGEST_SHARE: u32 = 10_000;

// Puts a question; where it fails this fault is told.
fn ask(passes: bool, fault: SourceFault) -> Result<(), SourceFault>
    ensures { refusal_of told_source result ≡ first_failing (question passes (told_source fault) ∷ []) }
{
    passes.then_some(()).ok_or(fault)
}

// Is there such a provider?
fn ask_provider(provider: usize) -> Result<(), SourceFault>
    ensures { refusal_of told_source result ≡ first_failing (of_provider provider) }
{
    ask(provider < PROVIDERS, SourceFault::NoProvider { provider })
}

// Is there such a line?
fn ask_line(line: usize) -> Result<(), SourceFault>
    ensures { refusal_of told_source result ≡ first_failing (of_line line) }
{
    ask(line < LINES, SourceFault::NoLine { line })
}

impl Provider {
    // A provider that has quoted nothing.
    fn new(share: u32) -> Provider
        requires { share ≤ 10000 }
        ensures shared { result.share ≡ share }
        ensures silent { result.quotes ≡ replicate 29 None }
    {
        Provider {
            share,
            quotes: [None; LINES],
        }
    }

    // Makes the latest quote for a line this figure.
    fn quote(&mut self, line: usize, figure: i32) -> Result<(), SourceFault>
        ensures answer { refusal_of told_source result ≡ first_failing (of_line line ++ of_figure line figure) }
        ensures quotes { MatchResult result (λ _. (line < 29) × (self.new.quotes ≡ set self.old.quotes line (Some figure))) (λ _. self.new ≡ self.old) }
        ensures share { self.new.share ≡ self.old.share }
    {
        ask_line(line)?;
        ask(
            in_range(line, figure),
            SourceFault::FigureOutOfRange { line },
        )?;
        self.quotes[line] = Some(figure);
        Ok(())
    }

    // Takes the latest quote for a line away.
    fn unquote(&mut self, line: usize) -> Result<(), SourceFault>
        ensures answer { refusal_of told_source result ≡ first_failing (of_line line) }
        ensures quotes { MatchResult result (λ _. (line < 29) × (self.new.quotes ≡ set self.old.quotes line None)) (λ _. self.new ≡ self.old) }
        ensures share { self.new.share ≡ self.old.share }
    {
        ask_line(line)?;
        self.quotes[line] = None;
        Ok(())
    }
}

// Providers who have quoted nothing, with these shares. Not inlined: they are then moved all at once, and not one by one.
#[inline(never)]
fn silent(shares: [u32; PROVIDERS]) -> [Provider; PROVIDERS]
    requires { (p : ℕ) → share_of shares p ≤ 10000 }
    ensures { (map (λ (p : Provided). p.share) result ≡ shares) × (map (λ (p : Provided). p.quotes) result ≡ replicate 8 (replicate 29 None)) }
{
    array::from_fn(|provider| Provider::new(shares[provider]))
}

impl Board {
    // A board without quotes, or a refusal: of its valuation day, or of the lowest provider's share that is too large.
    pub fn new(
        valuation: u32,
        days: DayTable,
        shares: [u32; PROVIDERS],
    ) -> Result<Board, SourceFault>
        ensures { MatchResult result (Fresh valuation days shares) (Refused valuation shares) }
    {
        ask(
            valuation <= LAST_VALUATION_DAY,
            SourceFault::ValuationDayTooLate,
        )?;
        if let Some(provider) = shares.iter().position(|share| *share > LARGEST_SHARE) {
            return Err(SourceFault::ShareTooLarge { provider });
        }
        Ok(Board {
            valuation,
            days,
            providers: silent(shares),
        })
    }

    // A provider's quote for a line; the latest rules. Its line then shows a figure, unless the provider's share is 0.
    pub fn quote(&mut self, provider: usize, line: usize, figure: i32) -> Result<(), SourceFault>
        ensures answer { refusal_of told_source result ≡ first_failing (quoting provider line figure) }
        ensures board { MatchResult result (λ _. OnlyQuote self.old self.new provider line (Some figure)) (λ _. self.new ≡ self.old) }
        ensures page { OnOk result (OnlyLine (board_page self.old) (board_page self.new) line) }
        ensures shown { OnOk result (0 < share_of (shares_of self.old) provider → Present (board_page self.new) line) }
    {
        ask_provider(provider)?;
        let providers = &mut self.providers;
        providers[provider].quote(line, figure)
    }

    // Takes a provider's quote for a line away; where there is none nothing changes.
    pub fn unquote(&mut self, provider: usize, line: usize) -> Result<(), SourceFault>
        ensures answer { refusal_of told_source result ≡ first_failing (unquoting provider line) }
        ensures board { MatchResult result (λ _. OnlyQuote self.old self.new provider line None) (λ _. self.new ≡ self.old) }
        ensures page { OnOk result (OnlyLine (board_page self.old) (board_page self.new) line) }
    {
        ask_provider(provider)?;
        let providers = &mut self.providers;
        providers[provider].unquote(line)
    }
}
