/// Why a row has no answer.
#[derive(Clone, Copy)]
pub enum RowFault {
    /// Its first word names no stage.
    NoStage,
    /// It hasn't the form that its stage asks for.
    Form,
    /// Want of memory.
    Memory,
}

impl RowFault {
    /// What is said in the place of an answer.
    pub fn text(self) -> &'static str {
        match self {
            RowFault::NoStage => "no answer: no stage of this name",
            RowFault::Form => "no answer: not the form of a row of this stage",
            RowFault::Memory => "no answer: out of memory",
        }
    }
}
