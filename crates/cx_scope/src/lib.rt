//! What is known at a place in a unit: the declarations whose scope holds it (ISO C99, 6.2.1), the types and objects so
//! far, and what the unit did with names that have linkage.
#![tactic(auto)]

mod declarations;
mod laws;
mod lists;
mod literals;
mod lookup;
mod made;
mod meant;
mod members;
mod mentions;
mod names;
mod objects;
mod param;
mod scope;
mod tags;
mod texts;
mod thing;
mod things;
mod types;

pub use declarations::Declarations;
pub use laws::scopes_begin_and_end;
pub use literals::literal_made;
pub use made::Made;
pub use meant::{Declared, Meant, Tag};
pub use members::Members;
pub use objects::Objects;
pub use param::Param;
pub use scope::Scope;
pub use texts::{joined_bytes, text_ty};
pub use thing::{Labels, Thing};
pub use things::Things;
