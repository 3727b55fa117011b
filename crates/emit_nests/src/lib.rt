//! Nests as values: how the nodes of a flow stand in one another in the text that is written from them.
#![tactic(auto)]

mod entries;
mod flattening;
mod nests;

pub use entries::{chain_entries, chain_is_told, is_among, nest_entries, nest_is_told};
pub use flattening::flat;
pub use nests::{Chain, Nest};
