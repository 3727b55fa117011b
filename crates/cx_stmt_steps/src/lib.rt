//! The steps of the walk over statements: each node with what its parts mean, the rule that it breaks or what it means, and what it
//! changes of the scope (ISO C99, 6.8).
#![tactic(auto)]

mod blocks;
mod cases;
mod ends;
mod forms;
mod jumps;
mod labels;
mod literals;
mod marks;
mod named;
mod simple;
mod site;
mod stated;

pub use blocks::as_block;
pub use cases::{case_seen, default_seen, switch_begins, switch_ended};
pub use ends::{ForBegun, Tested, block_ended, do_ended, for_ended, if_ended, while_ended};
pub use forms::block_stmt;
pub use jumps::{break_seen, continue_seen, goto_seen, return_seen};
pub use labels::Cases;
pub use literals::literals_since;
pub use marks::{Marks, scope_begins, scope_ends};
pub use named::{label_seen, labels_of};
pub use simple::{controls_seen, dropped_seen, expression_ended, null_seen};
pub use site::Site;
pub use stated::Stated;
