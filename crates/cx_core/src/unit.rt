use crate::order::DeclaredOrder;
use crate::program::{CoreObject, Fun, Linkage, Outer};
use crate::ty::{Ty, Types};
use cr_base::{Items, Name, Place};

/// What a unit does with a thing that it names (ISO C99, 6.2.2, 6.7 and 6.9).
#[derive(Drop)]
pub enum Does {
    /// A declaration that is no definition.
    Declares,
    /// A definition, tentative or not.
    Defines,
    /// A call by name, with the types of the arguments behind those that parameters take.
    Calls(Items<Ty>),
    /// Any other use in an expression outside the operand of `sizeof`.
    Uses,
}

/// One place in a unit that names an external object or function, or a static function.
#[derive(Drop)]
pub struct Mention {
    pub name: Name,
    /// The unit and the line of the name.
    pub place: Place,
    /// The type that the thing has there.
    pub ty: Ty,
    pub linkage: Linkage,
    pub does: Does,
}

/// A typed unit.
#[derive(Drop)]
pub struct CoreUnit {
    pub types: Types,
    /// The objects that it declares, in text order of their first declarations.
    pub objects: Items<CoreObject>,
    /// The functions that it defines, in text order.
    pub functions: Items<Fun>,
    /// The functions that it declares and doesn't define, in text order.
    pub externals: Items<Outer>,
    /// Where it names external things and static functions, in text order.
    pub mentions: Items<Mention>,
    /// The order of its declarations.
    pub order: DeclaredOrder,
}
