//! The units of a job from their bytes (ISO C99, 5.1.1.1 to 6.9): their typed units, or the first rule of the profile that they break.
#![tactic(auto)]

mod checked;
mod laws;
mod source;

pub use checked::{MOST_BYTES, check_units};
pub use laws::{one_is_first, one_meaning, unbroken_breaks_none};
pub use source::Source;
