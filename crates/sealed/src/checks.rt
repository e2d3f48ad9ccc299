// The checks of the calls, each by the fault that it refuses with.
ghost use Rattle.std.specs.Prelude.{◌≡◌, ◌*◌, ◌<◌, length};
ghost use Rattle.strips.specs.declared.fault.StripFault.TheVariants.{NoSuchRow, WrongAnswerPlace, WrongMemory};
ghost use Rattle.sealed.specs.Calls.{Checks};

use crate::Strip;
use strips::StripFault;

impl Strip {
    // Is memory of so many bytes sixteen bytes for each row?
    pub(crate) fn fits(&self, len: usize) -> Result<(), StripFault>
        ensures { Checks (len ≡ 16 * self.now.rows.count) WrongMemory result }
    {
        if len != 16 * self.rows.get() {
            return Err(StripFault::WrongMemory);
        }
        Ok(())
    }

    // Is there such a row?
    pub(crate) fn has(&self, row: usize) -> Result<(), StripFault>
        ensures { Checks (row < self.now.rows.count) (NoSuchRow row) result }
    {
        if row >= self.rows.get() {
            return Err(StripFault::NoSuchRow(row));
        }
        Ok(())
    }
}

// Is this an answer place?
pub(crate) fn takes_answer(answer: &[u8]) -> Result<(), StripFault>
    ensures { Checks (length answer.now ≡ 16) WrongAnswerPlace result }
{
    if answer.len() != 16 {
        return Err(StripFault::WrongAnswerPlace);
    }
    Ok(())
}
