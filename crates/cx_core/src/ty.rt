ghost use Rattle.std.specs.Prelude.{◌≡◌, false};
ghost use Rattle.cx_core.specs.Trees.{ty, basic, no_types_yet};
ghost use Rattle.cx_core.specs.Views.{view_type, view_types};

use cr_base::{Boxed, Items, Name};
use std::alloc::Global;

/// A basic type of the profile: `char` or a standard integer type (ISO C99, 6.2.5p14).
#[derive(Clone, Copy, PartialEq, Eq)]
pub enum Basic {
    /// `_Bool`.
    Truth,
    /// `char`, which is signed in this profile.
    Char,
    SignedChar,
    UnsignedChar,
    Short,
    UnsignedShort,
    Int,
    Unsigned,
    Long,
    UnsignedLong,
    LongLong,
    UnsignedLongLong,
}

/// A type (ISO C99, 6.2.5) beside its qualifier (6.7.3).
#[cycle(ty)]
#[derive(Drop)]
pub struct Ty {
    /// The type without its qualifier.
    pub form: TyForm,
    /// Whether it is qualified by `const`. An array type never is: its elements are (6.7.3p8).
    pub is_const: bool,
}

/// A type without its qualifier (ISO C99, 6.2.5).
#[cycle(ty)]
#[derive(Drop)]
pub enum TyForm {
    /// `void`.
    Void,
    /// `char` or a standard integer type.
    Basic(Basic),
    /// The enumerated type with this number (6.7.2.2).
    Enum(u32),
    /// A pointer to this type (6.7.5.1).
    Pointer(Boxed<Ty>),
    /// An array of elements of this type (6.7.5.2), so many, or None where its length isn't known.
    Array(Boxed<Ty>, Option<u64>),
    /// The structure or union type with this number (6.7.2.1).
    Record(u32),
    /// A function type (6.7.5.3).
    Function(Boxed<FunctionTy>),
}

/// A function type (ISO C99, 6.7.5.3).
#[cycle(ty)]
#[derive(Drop)]
pub struct FunctionTy {
    pub result_ty: Ty,
    pub params: Params,
    /// Whether further arguments may follow.
    pub is_variadic: bool,
}

impl Ty {
    /// The unqualified basic type.
    pub fn basic(which: Basic) -> Ty
        ensures { view_type result ≡ ty (basic which) false }
    {
        Ty {
            form: TyForm::Basic(which),
            is_const: false,
        }
    }
}

/// What a function type says of its parameters (ISO C99, 6.7.5.3).
#[cycle(ty)]
#[derive(Drop)]
pub enum Params {
    /// There is no parameter list (6.7.5.3p14).
    Unlisted,
    /// Their types from the left, after arrays and functions became pointers (6.7.5.3p7, p8).
    Listed(Items<Ty>),
}

/// A member of a structure or union type (ISO C99, 6.7.2.1).
#[derive(Drop)]
pub struct Member {
    /// None for an unnamed bit-field.
    pub name: Option<Name>,
    pub ty: Ty,
    /// The width of a bit-field in bits, or None for a member that is none.
    pub bits: Option<u32>,
}

/// A completed structure or union type (ISO C99, 6.7.2.1).
#[derive(Drop)]
pub struct RecordTy {
    /// Its number among the records of the program, from 0.
    pub number: u32,
    /// None where it was declared without a tag.
    pub tag: Option<Name>,
    pub is_union: bool,
    /// Its members in text order.
    pub members: Items<Member>,
}

/// What is known of a structure or union type before it is completed (ISO C99, 6.7.2.3).
#[derive(Drop)]
pub struct RecordTag {
    /// None where it was declared without a tag.
    pub tag: Option<Name>,
    pub is_union: bool,
}

/// The structure, union and enumerated types of a program, by their numbers from 0.
#[derive(Drop)]
pub struct Types {
    /// None for a record that isn't completed.
    pub records: Items<Option<RecordTy>>,
    /// The tag and the kind of each record, completed or not.
    pub record_tags: Items<RecordTag>,
    /// The number of the unit of each record.
    pub record_units: Items<u32>,
    /// Whether an enumerated type is compatible with `int`; it is with `unsigned int` otherwise
    /// (6.7.2.2p4).
    pub enums: Items<bool>,
    /// The number of the unit of each enumerated type.
    pub enum_units: Items<u32>,
}

impl Types {
    /// No types; they take no memory until one is declared.
    pub fn new(alloc: Global) -> Types
        ensures { view_types result ≡ no_types_yet }
    {
        Types {
            records: Items::new(alloc),
            record_tags: Items::new(alloc),
            record_units: Items::new(alloc),
            enums: Items::new(alloc),
            enum_units: Items::new(alloc),
        }
    }
}
