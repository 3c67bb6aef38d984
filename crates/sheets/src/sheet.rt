// A sheet of words, with what reading them gave.
ghost use Rattle.sheets.specs.Kept.{Kept};

use crate::fault::SheetFault;
use crate::reading::Reading;

#[derive(Clone, Copy)]
pub struct Sheet<'a> {
    pub(crate) words: &'a [u32],
    pub(crate) outcome: Result<Reading, SheetFault>,
    ghost read: { ∥ Kept words.now outcome ∥₁ },
}
