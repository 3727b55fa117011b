ghost use Rattle.std.specs.Prelude.{◌≡◌, false, map, IfOk, option_map};
ghost use Rattle.straight_core.specs.Trees.{ty, function, listed};
ghost use Rattle.straight_core.specs.Views.{params_of, types_of, view_type};

use cr_base::{Boxed, Items, Memory, Name};
use std::alloc::Global;

/// A type (ISO C99, 6.2.5) beside its qualifier (6.7.3).
#[cycle(ty)]
#[derive(Drop)]
pub struct Ty {
    /// The type without its qualifier.
    pub form: TyForm,
    /// Whether it is qualified by `const`.
    pub is_const: bool,
}

/// A type without its qualifier (ISO C99, 6.2.5).
#[cycle(ty)]
#[derive(Drop)]
pub enum TyForm {
    /// `void`.
    Void,
    /// `int`.
    Int,
    /// A function type (6.7.5.3): its result, its parameters from the left, or None where it has no
    /// parameter list, and whether further arguments may follow.
    Function(Boxed<Ty>, Option<Items<Ty>>, bool),
}

impl Ty {
    /// The function type with this result, these parameters from the left or None where it has no
    /// parameter list, and further arguments or not (ISO C99, 6.7.5.3). Refused only for want of
    /// memory.
    pub fn function(
        alloc: Global,
        result_ty: Ty,
        params: Option<Items<Ty>>,
        variadic: bool,
    ) -> Result<Ty, Memory>
        ensures { IfOk result (λ made. view_type made ≡
            ty (function (view_type result_ty) (params_of (option_map (map view_type) params)) variadic) false) }
    {
        let result_ty = Boxed::new(alloc, result_ty)?;
        Ok(Ty {
            form: TyForm::Function(result_ty, params, variadic),
            is_const: false,
        })
    }
}

/// The type of a function that gives this and has these parameters from the left, and no further
/// arguments (ISO C99, 6.7.5.3). Refused only for want of memory.
pub fn function_type(alloc: Global, gives: Ty, params: Items<Ty>) -> Result<Ty, Memory>
    ensures { IfOk result (λ made. view_type made ≡
        ty (function (view_type gives) (listed (types_of (map view_type params))) false) false) }
{
    Ty::function(alloc, gives, Some(params), false)
}

/// Where a part of an object stands in it (ISO C99, 6.7.2.1).
#[derive(Clone, Copy, Debug, PartialEq, Eq)]
pub struct Spot {
    /// The first byte of the part, counted in bytes from the start of the object.
    pub byte: u64,
    /// The first bit of a bit-field in that byte, from 0 for the lowest; 0 for any other part.
    pub bit: u32,
    /// The width of a bit-field in bits; 0 for any other part.
    pub width: u32,
}

/// A member of a structure or union type (ISO C99, 6.7.2.1).
#[derive(Drop)]
pub struct Member {
    /// None for an unnamed bit-field.
    pub name: Option<Name>,
    pub ty: Ty,
    /// The width of a bit-field in bits, or None for a member that is none.
    pub bits: Option<u32>,
}

/// A completed structure or union type (ISO C99, 6.7.2.1).
#[derive(Drop)]
pub struct RecordTy {
    /// Its number among the records of the program, from 0.
    pub number: u32,
    /// None where it was declared without a tag.
    pub tag: Option<Name>,
    pub is_union: bool,
    /// Its members in text order.
    pub members: Items<Member>,
}

/// The structure, union and enumerated types of a program, by their numbers.
#[derive(Drop)]
pub struct Types {
    /// None for a record that isn't completed.
    pub records: Items<Option<RecordTy>>,
    /// Whether an enumerated type is compatible with `int`; it is with `unsigned int` otherwise
    /// (6.7.2.2p4).
    pub enums: Items<bool>,
    /// The number of the unit of each record.
    pub record_units: Items<u32>,
    /// The number of the unit of each enumerated type.
    pub enum_units: Items<u32>,
}
