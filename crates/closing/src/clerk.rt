// Carries journals out line by line, and writes what each line gave.
use crate::answer::Answer;
use crate::market::Market;
use crate::stop::{Input, Stop, written};
use journal::complaint::Complaint;
use journal::parsing::parse;
use std::alloc::Global;
use std::io::{BufRead, Write};

#[derive(Drop)]
pub(crate) struct Clerk<'a, W> {
    market: Market,
    // Lines are numbered from 1, over all inputs.
    number: u64,
    // The line at hand. The buffer is kept from line to line.
    line: Vec<u8>,
    out: &'a mut W,
}

impl<'a, W: Write> Clerk<'a, W> {
    pub(crate) fn new(heap: Global, out: &'a mut W) -> Clerk<'a, W> {
        Clerk {
            market: Market::new(),
            number: 0,
            line: Vec::new(heap),
            out,
        }
    }

    // Works through an input, from its first line to its last.
    pub(crate) fn work_through<R: BufRead>(
        &mut self,
        input: Input,
        lines: &mut R,
    ) -> Result<(), Stop> {
        for _ in 0..u64::MAX {
            self.line.clear();
            match lines.read_until(b'\n', &mut self.line) {
                Ok(0) => break,
                Ok(_) => self.work_on_line()?,
                Err(why) => return Err(Stop::Unreadable { input, why }),
            }
        }
        Ok(())
    }

    fn work_on_line(&mut self) -> Result<(), Stop> {
        self.number = self.number.saturating_add(1);
        let number = self.number;
        match self.answer() {
            Ok(Some(answer)) => written(writeln!(self.out, "{number}: {answer}")),
            Ok(None) => Ok(()),
            Err(complaint) => Err(Stop::BadLine { number, complaint }),
        }
    }

    // What the line gave; none if it says nothing.
    fn answer(&mut self) -> Result<Option<Answer>, Complaint> {
        let Some(command) = parse(self.line.as_slice())? else {
            return Ok(None);
        };
        Ok(Some(self.market.carry_out(&command)?))
    }

    // Closes the journal.
    pub(crate) fn close(self) -> Result<(), Stop> {
        written(writeln!(self.out, "end: 0 accounts, received sum 0"))
    }
}
