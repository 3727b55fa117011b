//! What is written for the parts of a body does what they do, wherever both stand in the body: from the law of lifted expressions (ISO C99, 6.8).
#![tactic(auto)]

mod laws;

pub use laws::{ends_done, nodes_told, parts_done};
