use cr_base::{Int, Name};
use cx_core::{Linkage, Ty};

/// What an identifier means (ISO C99, 6.2.1p1).
#[derive(Drop)]
pub enum Meant {
    /// An object by its number.
    Object {
        object: u32,
        ty: Ty,
        /// Whether it is declared `register`.
        register: bool,
        linkage: Linkage,
    },
    /// A function by its number.
    Function {
        function: u32,
        ty: Ty,
        linkage: Linkage,
    },
    /// A typedef name (6.7.7).
    TypeName(Ty),
    /// An enumeration constant (6.4.4.3).
    Enumerator(Int),
    /// The tag of a structure or union, or of an enumeration, by the number of the type (6.7.2.3).
    Tag {
        is_record: bool,
        /// Whether it is an enumeration whose list hasn't ended.
        is_open: bool,
        number: u32,
    },
}

/// A declaration (ISO C99, 6.7): an identifier, and what it means.
#[derive(Drop)]
pub struct Declared {
    pub name: Name,
    pub meant: Meant,
}

/// A tag without its name (ISO C99, 6.7.2.3).
#[derive(Clone, Copy)]
pub struct Tag {
    pub is_record: bool,
    /// Whether it is an enumeration whose list hasn't ended.
    pub is_open: bool,
    pub number: u32,
}
