//! Operands of expressions, and questions about them: the types of their values, constants, how operators take them (ISO C99, 6.3,
//! 6.5 and 6.6). No answer takes memory.
#![tactic(auto)]

mod assigning;
mod constants;
mod joining;
mod nulls;
mod operand;
mod pairings;
mod value_ty;

pub use assigning::is_assignable;
pub use constants::constant_of;
pub use nulls::{
    gives_nothing, holds_nothing, is_null_constant, is_null_operand, is_place, is_register_array,
    operand_constant, width_of,
};
pub use operand::{Operand, value_type};
pub use pairings::{pairing, void_beside};
pub use value_ty::ValueTy;
