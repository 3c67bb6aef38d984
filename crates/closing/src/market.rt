// What a journal has told so far: the day table, the boards, and the chosen source.
ghost use Rattle.std.specs.Prelude.{◌≡◌, is_ok, if◌then◌else◌, Some, None, Err, MatchResult};
ghost use Rattle.days.specs.Days.{blank_days};
ghost use Rattle.std.specs.Borrow.{sem};
ghost use Rattle.std.specs.Option.{option_copied_mut};
ghost use Rattle.closing.specs.Lending.{LendsBoard, LendsFound};
ghost use Rattle.closing.specs.Carried.{Carried, DaysSet, BoardMade};
ghost use Rattle.journal.specs.declared.complaint.Complaint.TheVariants.{BoardNotMade};
ghost use Rattle.closing.specs.Pages.{base_page, RowsIf, Paged};
ghost use Rattle.closing.specs.Markets.{board_of, choosing, chosen, Beside};

use crate::answer::Answer;
use crate::page::Page;
use boards::board::Board;
use boards::quoting::PROVIDERS;
use days::fault::SourceFault;
use days::lines::LINES;
use days::table::DayTable;
use journal::command::{Base, Command, Pile, Which};
use journal::complaint::Complaint;
use layers::reserve::Reserve;

#[derive(Drop)]
pub(crate) struct Market {
    // The day table of boards made from now on.
    days: DayTable,
    today: Option<Board>,
    yesterday: Option<Board>,
    // What the chosen source is made of.
    pile: Option<Pile>,
}

impl Market {
    pub(crate) fn new() -> Market
        ensures days { result.days.days ≡ blank_days }
        ensures today { result.today ≡ None }
        ensures yesterday { result.yesterday ≡ None }
        ensures pile { result.pile ≡ None }
    {
        Market {
            days: DayTable::blank(),
            today: None,
            yesterday: None,
            pile: None,
        }
    }

    // Carries a command out; one that needs a board or a source that is not there is no command.
    pub(crate) fn carry_out(&mut self, command: &Command) -> Result<Answer, Complaint>
        ensures { Carried command.now self.old self.new result }
    {
        match *command {
            Command::BlankDays => {
                self.days = DayTable::blank();
                Ok(Answer::Done)
            }
            Command::Days { days } => Ok(Answer::from(self.set_days(days))),
            Command::Make { which, day, shares } => {
                Ok(Answer::from(self.make_board(which, day, shares)))
            }
            Command::Quote {
                which,
                provider,
                line,
                figure,
            } => {
                let outcome = self
                    .board_mut(which)?
                    .quote(provider as usize, line as usize, figure);
                Ok(Answer::from(outcome))
            }
            Command::Unquote {
                which,
                provider,
                line,
            } => {
                let outcome = self
                    .board_mut(which)?
                    .unquote(provider as usize, line as usize);
                Ok(Answer::from(outcome))
            }
            Command::Source { pile } => self.choose(pile),
            Command::Page => self.page(),
        }
    }

    fn set_days(&mut self, days: [u32; LINES]) -> Result<(), SourceFault>
        ensures { DaysSet days self.old self.new result }
    {
        self.days = DayTable::new(days)?;
        Ok(())
    }

    fn make_board(
        &mut self,
        which: Which,
        day: u32,
        shares: [u32; PROVIDERS],
    ) -> Result<(), SourceFault>
        ensures { BoardMade which day shares self.old self.new result }
    {
        let board = Board::new(day, self.days, shares)?;
        match which {
            Which::Today => self.today = Some(board),
            Which::Yesterday => self.yesterday = Some(board),
        }
        Ok(())
    }

    fn choose(&mut self, pile: Pile) -> Result<Answer, Complaint>
        ensures answer { result ≡ choosing pile.base self.old }
        ensures after { self.new ≡ (if is_ok result then chosen pile self.old else self.old) }
    {
        self.board(Which::Today)?;
        if let Base::ReserveTodayYesterday = pile.base {
            self.board(Which::Yesterday)?;
        }
        self.pile = Some(pile);
        Ok(Answer::Done)
    }

    fn page(&self) -> Result<Answer, Complaint>
        ensures { Paged self.now.pile self.now result }
    {
        let pile = self.pile.ok_or(Complaint::NoSourceChosen)?;
        Ok(Answer::Page(self.shown(pile)?))
    }

    // The page of a source that is made so.
    fn shown(&self, pile: Pile) -> Result<Page, Complaint>
        ensures { MatchResult result (RowsIf pile.filled (base_page pile.base self.now.today self.now.yesterday)) (λ c. choosing pile.base self.now ≡ Err c) }
    {
        let today = self.board(Which::Today)?;
        match pile.base {
            Base::Today => Ok(Page::over(today, pile.filled)),
            Base::ReserveTodayYesterday => {
                let yesterday = self.board(Which::Yesterday)?;
                Ok(Page::over(Reserve::of(today, yesterday), pile.filled))
            }
        }
    }

    fn board(&self, which: Which) -> Result<&Board, Complaint>
        ensures { MatchResult result (λ b. board_of which self.now ≡ Some b.now) (λ c. (board_of which self.now ≡ None) × (c ≡ BoardNotMade which)) }
    {
        let board = match which {
            Which::Today => &self.today,
            Which::Yesterday => &self.yesterday,
        };
        board.as_ref().ok_or(Complaint::BoardNotMade { which })
    }

    fn board_mut(&mut self, which: Which) -> Result<&mut Board, Complaint>
        ensures* writes_back { sem 𝓛 (LendsBoard which self.entry result) }
        ensures value { MatchResult result (λ b. board_of which self.old ≡ Some b.now) (λ c. (board_of which self.old ≡ None) × (c ≡ BoardNotMade which)) }
    {
        match self.find_mut(which) {
            Some(board) => Ok(board),
            None => Err(Complaint::BoardNotMade { which }),
        }
    }

    fn find_mut(&mut self, which: Which) -> Option<&mut Board>
        ensures* writes_back { sem 𝓛 (LendsFound which self.entry result) }
        ensures value { option_copied_mut result ≡ board_of which self.old }
    {
        match which {
            Which::Today => self.today.as_mut(),
            Which::Yesterday => self.yesterday.as_mut(),
        }
    }
}
