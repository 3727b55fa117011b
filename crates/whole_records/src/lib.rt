//! The records of a written crate, and the fields of the members of structures and unions (ISO C99, 6.7.2.1; the Rust Reference, "The C representation").
#![tactic(auto)]

mod laid;
mod records;

pub use laid::{LaidOut, laid_out};
pub use records::{keep_fields, record_items};
