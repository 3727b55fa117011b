use cr_base::{Boxed, Items};
use cx_core::CoreStmt;

/// A typed statement, and the objects that belong to the block in which it stands (ISO C99, 6.2.4p5, 6.5.2.5p6).
#[derive(Drop)]
pub struct Stated {
    pub stmt: Boxed<CoreStmt>,
    pub objects: Items<u32>,
}
