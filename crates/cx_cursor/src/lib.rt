//! What is read of a unit's tokens, one after the other: the tokens ahead, the names in scope, and what one
//! token gives.
#![tactic(auto)]

mod cursor;
mod fault;
mod listed;
mod measured;
mod scope;
mod sight;

pub use cursor::Cursor;
pub use fault::Fault;
pub use listed::{Listed, one_line, three_lines, two_lines};
pub use measured::Measured;
pub use scope::{Bound, Scope};
pub use sight::{Sight, same_key, same_mark};
