//! Which rule of the profile names, and the parts of type names and declarators, break (ISO C99, 6.5.1 and 6.7.1 to 6.7.6). No
//! answer takes memory, but that of specifiers.
#![tactic(auto)]

mod arrays;
mod derivation;
mod members;
mod names;
mod params;
mod specifiers;
mod tags;
mod written;

pub use arrays::{array_rule, identifiers_rule};
pub use derivation::derives_rule;
pub use members::member_rule;
pub use names::{enumerator_rule, name_rule};
pub use params::param_rule;
pub use specifiers::specs_rule;
pub use tags::{enum_rule, enum_use_rule, record_rule, record_use_rule};
