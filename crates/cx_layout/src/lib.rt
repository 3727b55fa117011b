//! Sizes and alignments of the types of a program, and where the members of its records stand.
#![tactic(auto)]

mod bits;
mod build;
mod extent;
mod laws;
mod layouts;
mod put;
mod row;

pub use bits::have_fitting_bits;
pub use laws::{
    adding_is_completing, members_do_not_overlap, members_lie_inside, types_are_grounded,
};
pub use layouts::{LayoutFault, Layouts};
