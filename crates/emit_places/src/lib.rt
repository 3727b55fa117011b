//! Which nests of a list go into arms of others, as code, equal to its definition: a list is gone through once, and each way out
//! of a nest is looked at once.
#![tactic(auto)]

mod ahead;
mod copies;
mod loops;
mod nodes;
mod placing;
mod seeing;
mod ways;

pub use copies::copy_nest;
pub use nodes::nest_nodes;
pub use placing::{Inner, Sibling, put_all};
