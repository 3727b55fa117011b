//! What the things of a C program have become in the modules of a written crate: kept once for the program, then for each module (ISO C99, 6.2.1, 6.2.2, 6.2.4).
#![tactic(auto)]

mod callocs;
mod entries;
mod externals;
mod program;
mod types;

pub use entries::{code_type_of, local_entry, object_entry};
pub use externals::{enter_module, is_base_again};
pub use program::{begin_program, keep};
pub use types::type_of;
