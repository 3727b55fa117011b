//! The typed program of a unit: each name stands for a thing, each operand has its type, and every
//! conversion is a node. Straight `int` programs are typed today.
#![tactic(auto)]

mod declaration;
mod expr;
mod function;
mod object_names;
mod scope;
mod unit;

pub use unit::program_of;
