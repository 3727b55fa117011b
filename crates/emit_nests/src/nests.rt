//! Nests.

use cr_base::Items;

/// How nodes stand in one another in the text.
#[cycle(nest)]
#[derive(Drop)]
pub enum Nest {
    /// A node, and what stands in each arm of its branch; an arm that isn't there is empty.
    Single {
        node: u32,
        arms: Items<Chain>,
    },
    /// The choice of a head by `current_block`, and what stands in its arms.
    Choice {
        heads: Items<u32>,
        arms: Items<Chain>,
    },
    /// Several as one.
    Group(Items<Nest>),
    /// A loop, which is entered at its head.
    Repeated {
        head: u32,
        body: Items<Nest>,
    },
    /// A loop that is entered at several heads; its body begins with the choice of one.
    Dispatched {
        heads: Items<u32>,
        body: Items<Nest>,
    },
}

/// Nests in order, of which each can be left for the beginning of the next one.
#[cycle(nest)]
#[derive(Drop)]
pub struct Chain {
    pub nests: Items<Nest>,
}
