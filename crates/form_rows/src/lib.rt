//! Rows of tests of forms: how expressions of C are written in Rust. `row_words` says how rows are read and answered.
//!
//! `value STEP | STEP ..`: the value of an operand; `test STEP | ..`: its test as a condition; `store BYTE BIT WIDTH | STEP | ..`: the
//! statements that store the last operand in a bit-field of the object that the one before it points to. The answer is the text of the
//! expression, or of the statements, with ` | ` between them.
//!
//! Steps put operands on a pile. Those that make one: `local NAME TYPE` and `static MODULE NAME TYPE`, objects; `number N TYPE`, `zero TYPE`
//! and `null TYPE`, constants; `function MODULE NAME TYPE`, a function. Those that take one from the pile, and put another there: `plus`,
//! `minus`, `complement` and `not`, operators with the type of the result; `as TYPE`, a conversion; `used TYPE`, the object with another
//! type; `pointed TYPE`, what the operand points to; `member NAME TYPE`, a field; `address TYPE`, the address of a place, as a pointer to
//! this type; `bits BYTE BIT WIDTH SIGN`, a bit-field of the object that the operand points to, where SIGN is `signed` or `unsigned`. Those
//! that take two, the right one on top, name an operator of two operands, as `add TYPE`, `and TYPE` or `or TYPE`; `choice TYPE` takes the
//! condition and two choices. A type is one of Rust, as it is written.
#![tactic(auto)]

mod operand;
mod places;
mod stage;
mod steps;
mod text;
mod types;

pub use stage::Stages;
