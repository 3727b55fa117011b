//! Rows of the checks of expressions and units: each line of standard input is a row, and each line of standard output is the answer to the row
//! on the same line. A line that is empty or begins with `#` is written as it stands.
//!
//! `expression TEXT`: the type of an expression's value (ISO C99, 6.3.2.1, 6.5) in a unit of this text. The declarations outside of functions
//! come into scope one by one, without their initialisers; the expression is the statement with which the first function begins. Where it
//! breaks a rule, or a type of the unit does, the answer is the first such rule, as `K1 on line 3`.
//!
//! `constant TEXT`: the type and the value of that expression, which is an integer constant expression (6.6).
//!
//! `unit TEXT`: `typed` where the unit breaks no rule (6.5 to 6.9), and else the first one that it breaks.
//!
//! `units TEXT`: the same of all units of this text, and of the rules that they break together (6.2.2, 6.2.7, 6.9p5). Between two units stands `$u`; a
//! unit behind the first is told by its number from 0, as `L1 in unit 1 on line 2`, and what stands at no line without one.
//!
//! In a text `$n` is a newline. Where there is no answer, that is the answer.
#![tactic(auto)]

mod answer;
mod fault;
mod meant;
mod place;
mod row;
mod text;
mod types;
mod units;

pub use row::answer_to;
