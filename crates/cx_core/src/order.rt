use cr_base::Items;

/// What a later stage gives a name of its own, by its number. Units declare functions and objects; the others are keys of names alone.
#[derive(Clone, Copy)]
pub enum Key {
    Function(u32),
    Object(u32),
    Record(u32),
    /// The function `calloc`, which no number stands for.
    Calloc,
}

/// The order of a unit's declarations.
#[derive(Drop)]
pub struct DeclaredOrder {
    /// What has linkage, in the order of first declarations: what the unit only declares, and what it declares in blocks alone,
    /// too (ISO C99, 6.2.2).
    pub things: Items<Key>,
    /// The numbers of records, in the order in which they were completed (ISO C99, 6.7.2.3p4).
    pub completed: Items<u32>,
}
