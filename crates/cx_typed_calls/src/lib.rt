//! Law: functions of a typed program that are called end typed (ISO C99, 6.5.2.2 and 6.9.1).
#![tactic(auto)]

mod laws;

pub use laws::calls_end_typed;
