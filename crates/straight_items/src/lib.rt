//! The names of the written crate: which names of C it keeps, the names of modules, and the names of
//! temporaries (the Rust Reference, "Identifiers" and "Keywords").
#![tactic(auto)]

mod kept;
mod laws;
mod modules;
mod scope;
mod temporaries;
mod words;

pub use kept::keeps_name;
pub use laws::{kept_names_are_rust_names, plain_stems_name_modules};
pub use modules::{is_plain, stem_of};
pub use scope::NameScope;
pub use temporaries::Temporaries;
