//! The steps of the walk over expressions: each node with what its children mean, the rule that it breaks or what it means, and
//! what it changes of the scope (ISO C99, 6.5).
#![tactic(auto)]

mod expressions;
mod handed;
mod marks;
mod names;
mod uses;

pub use expressions::{
    assign_seen, binary_seen, comma_seen, cond_seen, index_seen, letter_seen, number_seen,
    step_seen, unary_seen,
};
pub use handed::{arrow_seen, cast_seen, dot_seen, sizeof_type_seen};
pub use names::calls_by_name;
pub use uses::{call_seen, name_seen, sizeof_seen, text_seen};
