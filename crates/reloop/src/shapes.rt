//! Shapes: loops and labelled blocks.

use cr_base::{Boxed, Items};

/// How control goes through the nodes of a graph (Zakai's Relooper, with labelled blocks in the place of its
/// multiple blocks).
#[cycle(shape)]
#[derive(Drop)]
pub enum Shape {
    /// A node, by its number.
    Simple(u32),
    /// Members in order, of which each can be left for the beginning of a later one.
    Blocks(Items<Shape>),
    /// A loop that is entered at its head alone.
    Loop {
        head: u32,
        body: Boxed<Shape>,
    },
    /// A loop that is entered at several heads, by a variable that says at which.
    Dispatch {
        heads: Items<u32>,
        body: Boxed<Shape>,
    },
}
