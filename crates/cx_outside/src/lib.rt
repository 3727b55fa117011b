//! What comes to a run of C from outside of its expressions and statements (ISO C99, 5.1.2.3, 6.2.4 and 7.20.3): answers
//! of calls, blocks of objects, and what the functions of the library do.
#![tactic(auto)]

mod calls;
mod kept;
mod library;
mod outside;
mod texts;

pub use calls::{Halt, Returned, external_call};
pub use kept::Kept;
pub use library::{Done, Library, effect_of, library_named};
pub use outside::{Lack, begin, grant, tell};
