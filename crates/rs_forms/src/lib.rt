//! What expressions and statements of written crates are made of, by how they run; what operators give of
//! values, as steps of a run; and what is done at once where literals and locals tell all operands (the Rust
//! Reference, "Statements and expressions").
#![tactic(auto)]

mod forms;
mod left;
mod operations;
mod quick;

pub use forms::{
    CallForm, Form, Nested, Pair, PlaceUse, Plain, Side, StmtForm, form_of, stmt_form,
};
pub use left::{Left, quick_stmt};
pub use operations::{pair_value, plain_value, unary_value, used_value};
pub use quick::{quick_spot, quick_value};
