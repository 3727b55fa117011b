//! Nodes of the trees of Rust, and equal trees: each maker gives the tree that it names, want of memory aside (the Rust Reference, "Expressions" and "Types").
#![tactic(auto)]

mod copied;
mod exprs;
mod makers;
mod types;

pub use exprs::{copy_expr, copy_exprs, copy_place};
pub use makers::{
    address, and, binary, call, call_by, cast, choose, field, is_none, is_null, literal, local,
    neg, no_function, not, null_pointer, offset, offset_from, or, read, some_function,
    static_object, target, transmute, truth, wrapped, wrapping_neg,
};
pub use types::{copy_given, copy_path, copy_ty, copy_tys};
