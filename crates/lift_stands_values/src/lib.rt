//! Members, compound literals, arguments and operands of C under the relation between the memory of a written crate and that of the C program that it is
//! written for (ISO C99, 6.5.2.2, 6.5.2.3 and 6.5.2.5). `specs/Given.antt` says what the crate has for what an operand gives; each function here is a law.
#![tactic(auto)]

mod laws;

pub use laws::{arguments_stand, literals_stand, members_stand, operands_stay, ranges_stand};
