//! External functions: the types of those whose meaning is known, and what any other may have.

ghost use Rattle.std.specs.Prelude.{◌≡◌, map, option_map};
ghost use Rattle.std.specs.List.{list_all};
ghost use Rattle.cr_world.specs.Known.{known_named};
ghost use Rattle.rs_mean.specs.Lookups.{symbol_of};
ghost use Rattle.rs_mean.specs.Typing as typing;
ghost use Rattle.rs_text.specs.Names.{bare_name};
ghost use Rattle.rs_tree.specs.Views.{module_view, outer_view, ty_view};
ghost use Rattle.rs_layout.specs.Layouts.{ModulesAreAligned};
ghost use Rattle.rs_types.specs.KnownTypes.{known_view, param_view, params_view};

use crate::heads::outer_head_typed;
use cr_base::{Boxed, Items};
use rs_kinds::{result_stands, type_stands};
use rs_same::is_integer_of;
use rs_tree::{IntegerTy, Module, Outer, RTy};

/// A function whose meaning is known.
#[derive(Clone, Copy)]
pub(crate) enum Known {
    Malloc,
    Calloc,
    Free,
    Memcpy,
    Memmove,
    Memset,
    Exit,
    Abort,
}

/// The type of a parameter of a known function: `int`, `unsigned long`, `void *` and `const void *`.
#[derive(Clone, Copy)]
pub(crate) enum ParamTy {
    Int,
    Size,
    Bytes,
    ConstBytes,
}

// The known function with a symbol.
#[tactic(auto, unfolding(cr_world::specs::Known::known_table))]
fn known_named(symbol: &[u8]) -> Option<Known>
    ensures { option_map known_view result ≡ known_named symbol.now }
{
    if symbol == b"malloc".as_slice() {
        return Some(Known::Malloc);
    }
    if symbol == b"calloc".as_slice() {
        return Some(Known::Calloc);
    }
    if symbol == b"free".as_slice() {
        return Some(Known::Free);
    }
    if symbol == b"memcpy".as_slice() {
        return Some(Known::Memcpy);
    }
    if symbol == b"memmove".as_slice() {
        return Some(Known::Memmove);
    }
    if symbol == b"memset".as_slice() {
        return Some(Known::Memset);
    }
    if symbol == b"exit".as_slice() {
        return Some(Known::Exit);
    }
    if symbol == b"abort".as_slice() {
        return Some(Known::Abort);
    }
    None
}

// The types of the parameters of a known function.
fn params_of(known: Known) -> &'static [ParamTy]
    ensures { params_view result.now ≡ (known_view known).params }
{
    match known {
        Known::Malloc => &[ParamTy::Size],
        Known::Calloc => &[ParamTy::Size, ParamTy::Size],
        Known::Free => &[ParamTy::Bytes],
        Known::Memcpy | Known::Memmove => &[ParamTy::Bytes, ParamTy::ConstBytes, ParamTy::Size],
        Known::Memset => &[ParamTy::Bytes, ParamTy::Int, ParamTy::Size],
        Known::Exit => &[ParamTy::Int],
        Known::Abort => &[],
    }
}

fn is_pointer(ty: &RTy) -> bool
    ensures { result ≡ typing.is_pointer (ty_view ty.now) }
{
    matches!(ty, RTy::Pointer(_))
}

// Whether a parameter has the type of one of a known function; all pointers count as one.
#[tactic(auto, using(crate::proofs::Externals::same_as_integer))]
fn is_known_type(known: ParamTy, ty: &RTy) -> bool
    ensures { result ≡ typing.is_known_type (param_view known) (ty_view ty.now) }
{
    match known {
        ParamTy::Int => is_integer_of(IntegerTy::I32, ty),
        ParamTy::Size => is_integer_of(IntegerTy::U64, ty),
        ParamTy::Bytes | ParamTy::ConstBytes => is_pointer(ty),
    }
}

fn are_known_types(known: &[ParamTy], params: &[RTy]) -> bool
    ensures { result ≡ typing.are_known_types (params_view known.now) (map ty_view params.now) }
{
    let mut rest = params;
    for one in known {
        let [param, others @ ..] = rest else {
            return false;
        };
        if !is_known_type(*one, param) {
            return false;
        }
        rest = others;
    }
    rest.is_empty()
}

// Whether a result is that of a known function.
fn is_known_result(known: Known, given: &Option<Boxed<RTy>>) -> bool
    ensures { result ≡ typing.is_known_result (known_view known).result (option_map ty_view given.now) }
{
    match known {
        Known::Malloc | Known::Calloc | Known::Memcpy | Known::Memmove | Known::Memset => {
            match given {
                None => false,
                Some(ty) => is_pointer(ty.get()),
            }
        }
        Known::Free | Known::Exit | Known::Abort => given.is_none(),
    }
}

fn known_typed(known: Known, outer: &Outer) -> bool
    ensures { result ≡ typing.known_typed (known_view known) (outer_view outer.now) }
{
    !outer.variadic
        && are_known_types(params_of(known), outer.params.as_slice())
        && is_known_result(known, &outer.result)
}

fn is_bits(ty: &RTy) -> bool
    ensures { result ≡ typing.is_bits (ty_view ty.now) }
{
    matches!(ty, RTy::Integer(_) | RTy::Boolean)
}

// Whether any other external function may have a parameter of this type.
#[tactic(auto, using(crate::proofs::Externals::same_as_integer))]
fn is_opaque_param(ty: &RTy) -> bool
    ensures { result ≡ typing.is_opaque_param (ty_view ty.now) }
{
    match ty {
        RTy::Pointer(target) => is_integer_of(IntegerTy::I8, target.get()),
        _ => is_bits(ty),
    }
}

fn are_opaque_params(params: &Items<RTy>) -> bool
    ensures { result ≡ list_all typing.is_opaque_param (map ty_view params.now) }
{
    for param in params.as_slice() {
        if !is_opaque_param(param) {
            return false;
        }
    }
    true
}

fn opaque_typed(outer: &Outer) -> bool
    ensures { result ≡ typing.opaque_typed (outer_view outer.now) }
{
    are_opaque_params(&outer.params) && is_opaque_result(&outer.result)
}

fn is_opaque_result(given: &Option<Boxed<RTy>>) -> bool
    ensures { result ≡ typing.is_opaque_result (option_map ty_view given.now) }
{
    match given {
        None => true,
        Some(ty) => is_bits(ty.get()),
    }
}

fn params_stand(modules: &[Module], params: &Items<RTy>) -> bool
    requires { ModulesAreAligned (map module_view modules.now) }
    ensures { result ≡ list_all (typing.type_stands (map module_view modules.now)) (map ty_view params.now) }
{
    for param in params.as_slice() {
        if !type_stands(modules, param) {
            return false;
        }
    }
    true
}

// The name by which the linker knows an external function.
fn symbol_of(outer: &Outer) -> &[u8]
    ensures { result.now ≡ symbol_of (outer_view outer.now) }
{
    match &outer.link_name {
        Some(symbol) => symbol.bytes(),
        None => bare_name(outer.name.bytes()),
    }
}

// A name without `r#`.
fn bare_name(name: &[u8]) -> &[u8]
    ensures { result.now ≡ bare_name name.now }
{
    match name.strip_prefix(b"r#".as_slice()) {
        Some(bare) => bare,
        None => name,
    }
}

/// Whether an external function has types that one may have: those of `main_0` where that is its name, those
/// of a known one where its symbol is one's, and otherwise integers, `bool` and `*mut i8`.
pub(crate) fn outer_typed(modules: &[Module], outer: &Outer) -> bool
    requires { ModulesAreAligned (map module_view modules.now) }
    ensures { result ≡ typing.outer_typed (map module_view modules.now) (outer_view outer.now) }
{
    if !(outer_head_typed(outer)
        && params_stand(modules, &outer.params)
        && result_stands(modules, &outer.result))
    {
        return false;
    }
    match known_named(symbol_of(outer)) {
        Some(known) => known_typed(known, outer),
        None => opaque_typed(outer),
    }
}
