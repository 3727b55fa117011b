//! What is written for an expression, as code: statements, temporaries and stores, each equal to its definition (ISO C99, 6.5; the Rust Reference, "Statements").
#![tactic(auto)]

mod assigning;
mod holding;
mod kinds;
mod names;
mod places;
mod targets;
mod written;

pub use assigning::{Change, changed_behind, changed_first, promoted_type, step_by_one, stored};
pub use holding::{assign, held_by, held_gives, one_stmt, then_held};
pub use kinds::{NodeKind, held_type, kind_of_node, value_kind};
pub use names::{object_at, temporary_place, temporary_value, type_in};
pub use places::{address_of_given, as_bytes, copied, place_at, place_of_given};
pub use targets::{
    Target, field_form, narrowed, stored_value, stores, target_of, target_type, whole_target,
};
pub use written::{Written, gives, in_turn, number_behind, then_does, then_gives, then_takes};
