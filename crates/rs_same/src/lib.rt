//! Equal types of Rust (the Rust Reference, "Type system"). Each function is equal to its definition in `rs_mean`.
#![tactic(auto)]

mod same;

pub use same::{
    is_integer_of, is_signed_integer, same_integer, same_path, same_results, same_type, same_types,
};
