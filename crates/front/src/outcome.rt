use cr_base::{Name, Refusal, Text};
use run_ends::Told;

/// How a job ended.
#[derive(Drop)]
pub(crate) enum Outcome<'a> {
    /// What it is for was done.
    Done,
    /// The units break a rule of the profile: that of this file, or all together.
    Refused { file: &'a str, refusal: Refusal },
    /// The words are no job.
    Usage,
    /// The file of this name couldn't be read.
    CannotRead(&'a str),
    /// The file of this name, which is one of a crate, couldn't be read.
    CannotReadPart(Text),
    /// The file of this name couldn't be written.
    CannotWrite(Text),
    /// Want of memory.
    Memory,
    /// A program was run, and this is told of it.
    Told(Told<'a>),
    /// The files of a crate are none of the subset: that of this name is at fault, at this line.
    NotRust { name: Text, line: u32 },
    /// An item of a crate, counted from 0, isn't well typed, in the module of this name.
    IllTyped { module: Name, item: u32 },
}
