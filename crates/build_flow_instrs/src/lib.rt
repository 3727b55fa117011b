//! Linear code of a body: places, statements of Rust and branches, as values (ISO C99, 6.8).
#![tactic(auto)]

mod instrs;
mod places;

pub use instrs::{Instr, PlacedBranch, PlacedCase, push_body, push_branch, push_jump, push_mark};
pub use places::{
    FlowPlace, copy_path, copy_place, edge_at, part_path, statement_at, test_at, third_at,
};
