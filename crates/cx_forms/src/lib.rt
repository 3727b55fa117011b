//! Nodes of typed expressions and types, made (ISO C99, 6.2.5 and 6.5). Each answer is refused only for want of memory.
#![tactic(auto)]

mod effects;
mod operators;
mod places;
mod types;

pub use effects::{assign_by_node, assign_node, call_by_node, call_node, step_node};
pub use operators::{and_node, binary_node, comma_node, cond_node, or_node, unary_node};
pub use places::{
    address_node, code_node, convert_node, deref_node, load_node, member_node, null_node,
    object_node, whole_node,
};
pub use types::{basic_ty, pointer_to, void_ty};
