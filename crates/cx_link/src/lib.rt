//! Units put together (ISO C99, 5.1.1.1, 6.2.2): the program of typed units, or the first rule that they break together.
#![tactic(auto)]

mod broken;
mod chain;
mod counts;
mod joined;
mod rules;

pub use broken::{MOST_UNITS, broken_links};
pub use counts::{counts_of, narrow, no_counts, together};
pub use joined::all_types;
