//! What each thing of a C program has become in a written crate: its name in the module, function or record that has it, the Rust types of C
//! types, and the records that structures and unions are written as (ISO C99, 6.2.1, 6.2.3, 6.7.2.1; the Rust Reference, "Type system" and
//! "The C representation").
#![tactic(auto)]

mod known;
mod map;
mod records;
mod sizes;
mod types;
mod walk;

pub use known::{Known, MemberField, Named};
pub use map::NameMap;
pub use records::record_item;
pub use rs_items_sets::{NameScope, names_are_first, names_differ};
pub use sizes::size_of;
pub use types::rust_type;
