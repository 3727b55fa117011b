use cr_base::{Boxed, Items};
use cx_core::Ty;

/// A part of an object (ISO C99, 6.7.8p17, p18).
#[derive(Drop)]
pub struct At {
    /// The numbers of the elements and members that lead to it, each in the one before.
    pub path: Items<u64>,
    pub ty: Boxed<Ty>,
}
