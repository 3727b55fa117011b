//! The steps of the walk over declarations: each node with what its children mean, the rule that it breaks or what it means, and what it
//! changes of the scope (ISO C99, 6.7 and 6.9).
#![tactic(auto)]

mod begun;
mod ends;
mod heads;
mod meant;
mod nodes;

pub use begun::{Begun, Site, declared_begins};
pub use ends::declared_ended;
pub use heads::{Head, body_ended, head_seen, name_or_none};
pub use meant::Meant;
pub use nodes::empty_seen;
