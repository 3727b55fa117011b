use cr_base::{Boxed, Int, Items, Name, Place};
use cx_core::CoreExpr;

/// An initialiser whose expressions are typed (ISO C99, 6.7.8).
#[cycle(given)]
#[derive(Drop)]
pub enum Given {
    /// A value.
    Value(Boxed<CoreExpr>),
    /// String literals beside each other.
    Text {
        /// Their bytes, with one zero byte at their end.
        bytes: Name,
        /// The number that their object has where they fill no array of characters.
        object: u32,
        /// Where they stand.
        place: Place,
    },
    /// A list in braces.
    List(Items<Entry>),
}

/// An entry of a list in braces (ISO C99, 6.7.8p6, p7).
#[cycle(given)]
#[derive(Drop)]
pub struct Entry {
    /// The designators, from the left; none where it stands behind the entry before.
    pub at: Items<To>,
    pub given: Given,
}

/// A designator (ISO C99, 6.7.8p6, p7).
#[derive(Drop)]
pub enum To {
    /// `[N]`: the element of an array with this index.
    Index(Int),
    /// `.NAME`: the member with this name.
    Field(Name),
}
