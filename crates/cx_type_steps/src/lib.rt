//! The steps of the walk over type names: each node with what its children mean, the rule that it breaks or what it means, and
//! what it changes of the scope (ISO C99, 6.7).
#![tactic(auto)]

mod lasts;
mod params;
mod records;
mod types;
mod written;

pub use lasts::{ends_declarators, ends_decls, is_single};
pub use params::param_derived;
pub use records::record_ended;
pub use types::{
    derives_seen, enum_ended, enum_use_seen, identifiers_seen, params_ended, record_use_seen,
    specs_seen, typedef_seen,
};
pub use written::{array_seen, enumerator_seen, member_seen};
