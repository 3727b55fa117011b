//! What stands ahead of a parser, and what it makes of that: what begins a specifier, a declarator or a type name,
//! how an expression goes on behind an operand, and which name a declarator declares (ISO C99, 6.5 to 6.7).
#![tactic(auto)]

mod continuation;
mod form;
pub mod level;
mod names;
mod words;

pub use continuation::{Continuation, continuation_of, goes_on};
pub use form::Form;
pub use names::{declare, declared_name, has_name, is_identifier, is_type_spec, says_typedef};
pub use words::{
    begins_declarator, begins_group, begins_spec, is_no_qualifier, is_plain, no_further, no_param,
    no_tail, sees_decl, sees_designator, sees_else, sees_label, sees_star, sees_type, shows_spec,
    stops_specs,
};
