//! The bytes of a written crate.
#![tactic(auto)]

mod bytes;
mod files;
mod laws;

pub use bytes::bytes_of;
pub use files::print;
pub use laws::valid_crates_are_printable;
