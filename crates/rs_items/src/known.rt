use cr_base::{Boxed, Name};
use rs_tree::RTy;

/// A thing that has a name or a type of its own in the written crate: a thing of the C program by its number there, a temporary of a function by its number
/// from 0, or the place to which a function writes the structure or union that it gives.
#[derive(Clone, Copy, Debug, PartialEq, Eq, Hash)]
pub enum Named {
    Object(u32),
    Function(u32),
    /// The item without parameters of an external function, for calls without arguments, where its own item lists some.
    BareFunction(u32),
    Record(u32),
    Enum(u32),
    Temporary(u32),
    Result,
}

/// What a thing has become in the written crate.
#[derive(Drop)]
pub struct Known {
    pub named: Named,
    /// The number of the unit that has it.
    pub unit: u32,
    /// The name of the module of which it is an item, or in whose block of external functions it is declared. A local, a parameter, a temporary and an
    /// enumerated type have none.
    pub module: Option<Name>,
    /// Its Rust name; that of an enumerated type says nothing.
    pub name: Name,
    /// The name in C of a function that no unit defines, which is its symbol. All else has none.
    pub symbol: Option<Name>,
    /// Its Rust type: of a function the type of a pointer to it, of a record the record, of an enumerated type `i32` or `u32`.
    pub ty: RTy,
    /// The size of an object or a record in bytes.
    pub size: u64,
}

/// The field of a member of a structure or union that is no bit-field.
#[derive(Drop)]
pub struct MemberField {
    /// The byte at which it stands, from 0.
    pub byte: u64,
    /// Its Rust type.
    pub ty: Boxed<RTy>,
    pub name: Name,
}
