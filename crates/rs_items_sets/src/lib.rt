//! The Rust names of the names of a C program, and the sets in which they are taken: of a module's items, of a function's parameters and
//! locals, and of a record's fields (ISO C99, 6.2.1, 6.2.3; the Rust Reference, "Identifiers" and "Keywords").
#![tactic(auto)]

mod candidates;
mod laws;
mod scope;
mod scopes;
mod sets;
mod words;

pub use candidates::suffixed;
pub use laws::{names_are_first, names_differ};
pub use scope::NameScope;
pub use scopes::Scopes;
pub use words::{is_keyword, is_path_word, is_reserved};
