/// A tree that was read, and its depth in nodes.
#[derive(Drop)]
pub struct Measured<T> {
    pub tree: T,
    pub depth: u32,
}
