use cr_base::{Refusal, Stop};

/// Why a row has no run.
#[derive(Clone, Copy)]
pub(crate) enum RowFault {
    /// Its units break a rule.
    Broken(Refusal),
    /// It hasn't the form of a row.
    Form,
    /// Want of memory.
    Memory,
}

impl RowFault {
    /// Why units were stopped.
    pub(crate) fn of(stop: Stop) -> RowFault {
        match stop {
            Stop::Refused(refusal) => RowFault::Broken(refusal),
            Stop::Memory => RowFault::Memory,
        }
    }
}
