use cr_base::{Int, Items, Name};
use cx_core::{Linkage, Ty};

/// An object or a function that has linkage (ISO C99, 6.2.2).
#[derive(Drop)]
pub struct Thing {
    pub name: Name,
    pub linkage: Linkage,
    pub is_function: bool,
    /// Its number, among objects or among functions.
    pub number: u32,
    /// The composite of the types that its declarations gave it so far (6.2.7p3).
    pub ty: Ty,
    /// Whether it has a body or an initialiser.
    pub is_defined: bool,
    /// The line of its first tentative definition (6.9.2p2).
    pub tentative: Option<u32>,
}

/// The labels of a function so far, and those of its innermost `switch` (ISO C99, 6.8.1).
#[derive(Drop)]
pub struct Labels {
    pub labels: Items<Name>,
    /// The values of the `case` labels.
    pub cases: Items<Int>,
    /// Whether there was a `default`.
    pub has_default: bool,
}
