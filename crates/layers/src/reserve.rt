// A layer that keeps a second source in reserve for the spot and the forward points.
ghost use Rattle.std.specs.Prelude.{◌≡◌, ◌<◌, Decides};
ghost use Rattle.sources.specs.Page.{Page};
ghost use Rattle.layers.specs.Reserve.{Thin, Reserved};
ghost use Rattle.layers.specs.ReservePage.{gone, reserve_page};

use days::table::DayTable;
use sources::source::QuoteSource;

// Are the line and the two after it absent?
fn is_gone<S: QuoteSource>(s: &S, line: usize) -> bool
    requires { line < 27 }
    ensures { result ≡ gone (S.page s.now) line }
{
    (line..line + 3).all(|k| s.figure(k).is_none())
}

// Are some three point lines in a row absent?
fn is_thin<S: QuoteSource>(s: &S) -> bool
    ensures { Decides result (Thin (S.page s.now)) }
{
    (8..14).any(|line| is_gone(s, line))
}

// A source with another in reserve.
#[derive(Clone, Copy, Drop)]
pub struct Reserve<A, B> {
    first: A,
    second: B,
}

impl<A: QuoteSource, B: QuoteSource> Reserve<A, B> {
    // The first source with the second in reserve: its page is the one page so made.
    pub fn of(first: A, second: B) -> Reserve<A, B>
        ensures kept { (result.first ≡ first) × (result.second ≡ second) }
        ensures means { Reserved (A.page first) (B.page second) (reserve_page (A.page first) (B.page second)) }
        ensures one { (r : Page) → Reserved (A.page first) (B.page second) r → r ≡ reserve_page (A.page first) (B.page second) }
    {
        Reserve { first, second }
    }
}

// Every question asks both sources: only a source's own answers show that its page is sound.
#[tactic(auto, using(crate::proofs::Lending::points_lent, crate::proofs::Lending::points_kept, crate::proofs::Lending::reserve_sound))]
impl<A: QuoteSource, B: QuoteSource> QuoteSource for Reserve<A, B> {
    ghost page = { λ s. reserve_page (A.page s.first) (B.page s.second) };

    fn valuation_day(&self) -> u32 {
        let _ = self.second.valuation_day();
        self.first.valuation_day()
    }

    fn days(&self) -> DayTable {
        let _ = self.second.valuation_day();
        self.first.days()
    }

    fn figure(&self, line: usize) -> Option<i32> {
        let own = self.first.figure(line);
        let lent = self.second.figure(line);
        match line {
            0 => own.or(lent),
            8..16 => if is_thin(&self.first) { lent } else { own },
            _ => own,
        }
    }
}
