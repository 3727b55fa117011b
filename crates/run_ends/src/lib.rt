//! How runs of both languages end: what a run with the answers of a host is to the meaning of its program, and what is told of it.
#![tactic(auto)]

mod end;
mod report;
mod texts;
mod told;

pub use end::End;
pub use report::{joined, report_of};
pub use texts::{cause_of, code_of, words_of};
pub use told::Told;
