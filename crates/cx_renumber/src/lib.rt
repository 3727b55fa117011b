//! The trees of a unit with the numbers that its types and things take in the whole program (ISO C99, 5.1.1.1, 6.2.2p2). Each call copies:
//! the unit stays as it was.
#![tactic(auto)]

mod expressions;
mod numbers;
mod orders;
mod statements;
mod things;
mod types;

pub use expressions::{expr_there, puts_there};
pub use numbers::{Counts, Numbers};
pub use orders::order_there;
pub use statements::stmt_there;
pub use things::{function_there, mention_there, object_there, outer_there};
pub use types::{record_there, type_there, types_there};
