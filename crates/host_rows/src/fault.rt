/// Why a row has no answer.
#[derive(Clone, Copy)]
pub(crate) enum RowFault {
    /// It hasn't the form of a row.
    Form,
    /// Want of memory.
    Memory,
}
