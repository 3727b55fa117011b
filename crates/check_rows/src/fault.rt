use crate::answer::Answer;
use cr_base::{Refusal, Stop};

/// Why a row has no type and no value.
#[derive(Clone, Copy)]
pub(crate) enum RowFault {
    /// Its text breaks a rule.
    Broken(Refusal),
    /// It hasn't the form of a row.
    Form,
    /// Want of memory.
    Memory,
}

impl RowFault {
    /// Writes the broken rule, or why there is no answer.
    pub(crate) fn write(self, out: &mut Answer) {
        match self {
            RowFault::Broken(refusal) => {
                out.text(refusal.rule.code());
                out.text(" on line ");
                out.value(refusal.line);
            }
            RowFault::Form => out.text("no answer: not the form of a row"),
            RowFault::Memory => out.text("no answer: out of memory"),
        }
    }
}

/// What was made, or why it wasn't.
pub(crate) fn given<T: Drop>(made: Result<T, Stop>) -> Result<T, RowFault> {
    match made {
        Ok(made) => Ok(made),
        Err(Stop::Refused(refusal)) => Err(RowFault::Broken(refusal)),
        Err(Stop::Memory) => Err(RowFault::Memory),
    }
}
