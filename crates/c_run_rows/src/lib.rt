//! Runs of C programs from their text, as data: each line of standard input is a row, and each line of standard output is the answer to
//! the row on the same line. A line that is empty or begins with `#` is written as it stands.
//!
//! `run STEPS STORE ORDER HOST | UNITS`: how the program of these units runs (ISO C99, 5.1.2.3), for so many steps at most. The store is
//! `list`, without limit, or `region:BYTES:BLOCKS`, which holds so many bytes and live blocks. The order is `leftmost`, or numbers that
//! commas separate. The host is `ANSWERS`, numbers that it answers in their order and 0 behind them, or `ANSWERS / FAILS` with the
//! numbers of the calls that fail, from 0; `without NAME` in front is a host that doesn't take a function with this name. Units are
//! texts that `$u` separates.
//!
//! The answer is how the run came out, the answers that it took, and the calls that it made, each with its answer; or the first rule
//! that the units break. `count STEPS ..` in place of `run STEPS ..` tells the steps that it took, too.
//!
//! In a text `$n` is a newline, and `$` with two hexadecimal digits is the byte of that number. Answers are written in the same way.
//! Where there is no answer, that is the answer.
#![tactic(auto)]

mod answer;
mod asked;
mod fault;
mod host;
mod row;
mod run;
mod store;
mod units;

pub use row::answer_to;
