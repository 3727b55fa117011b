//! The flow of linear code: the places that control reaches, their numbers, and what is done from each on (ISO C99, 6.8).
#![tactic(auto)]

mod behind;
mod branches;
mod code;
mod copies;
mod index;
mod numbers;
mod table;
mod walk;

pub use code::flow_of_code;
