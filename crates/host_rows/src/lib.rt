//! Calls of the standard host, as data: each line of standard input is a row, and each line of standard output is the answer to the
//! row on the same line. A line that is empty or begins with `#` is written as it stands.
//!
//! `'INPUT READS WRITES MOST | CALL; CALL; ..`: these calls, in their order, of a standard host over a source with these bytes and a sink
//! that takes so many bytes a write at most. READS and WRITES are the numbers, from 0, of the reads of the source and of the writes of
//! the sink that fail, with commas between them, or `-` for none. A call is the name of a function and its arguments: `'TEXT`, or a number
//! with its type, as `i32:-5`, where the type is `bool` or a sign and a width, `i8` to `u64`.
//!
//! The answer has the answers to the calls: a number, `refused`, `failed` or `memory`; then what the sink has taken; and then what the calls
//! write by themselves, or `none` where one of them doesn't fit.
//!
//! In a text `$n` is a newline, and `$` with two hexadecimal digits is the byte of that number.
#![tactic(auto)]

mod answer;
mod asked;
mod call;
mod fault;
mod row;

pub use row::answer_to;
