//! Rows of tests as data: each line of standard input is a row, and each line of standard output is the answer to the row
//! on the same line. What the programs of rows share.
//!
//! The first word of a row names a stage, and what follows is what that stage is asked. Where there is no answer, that is the
//! answer. A line that is empty or begins with `#` is written as it stands, so that answers have the headings of their rows.
//!
//! The text of a row stands as it is, but for what `$` begins: `$n` is a newline, and `$` with two hexadecimal
//! digits is the byte of that number, so that `$24` is `$` itself. Texts of C don't need it otherwise, since
//! `$` isn't in the basic source character set (ISO C99, 5.2.1). Where a row asks several steps, which ` | `
//! separates, a text in it needs `$7c` for the bar between two blanks. Answers are written in the same way.
#![tactic(auto)]

mod answer;
mod asked;
mod calls;
mod fault;
mod random;
mod row;
mod scalars;
mod steps;
mod stores;

pub use answer::Answer;
pub use asked::{Asked, under_name};
pub use calls::write_made;
pub use fault::RowFault;
pub use random::Random;
pub use row::{Answers, answer_to};
pub use scalars::{integer, scalar, scalar_of, whole, write_scalar};
pub use steps::{Steps, answer_steps, first_step};
pub use stores::region;
