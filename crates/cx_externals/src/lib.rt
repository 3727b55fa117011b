//! The types that external functions may have (ISO C99, 7.20.3, 7.20.4 and 7.21), and that of `main` (5.1.2.2.1). No answer takes memory.
#![tactic(auto)]

mod basics;
mod library;
mod main_type;
mod opaque;
mod outside;

pub use main_type::is_main_type;
pub use opaque::is_opaque_trailing;
pub use outside::is_external_type;
