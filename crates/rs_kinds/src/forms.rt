//! The kinds of forms of expressions, by those of their operands (the Rust Reference, "Expressions").

ghost use Rattle.std.specs.Prelude.{◌≡◌, map, option_map};
ghost use Rattle.std.specs.Option.{option_copied};
ghost use Rattle.rs_mean.specs.Scalars.{is_scalar};
ghost use Rattle.rs_mean.specs.Typing as typing;
ghost use Rattle.rs_mean.specs.Typing.{is_code, is_of_type, only_if, own_type};
ghost use Rattle.rs_text.specs.Tree as tree;
ghost use Rattle.rs_text.specs.Tree.{tys, option_ty};
ghost use Rattle.rs_tree.specs.Views.{ty_view, function_view, module_view};
ghost use Rattle.rs_kinds.specs.Forms as forms;
ghost use Rattle.rs_kinds.specs.Kinds.{kind_view};
ghost use Rattle.rs_layout.specs.Layouts.{ModulesAreAligned};

use crate::kind::{HeldKind, common, is_of_pointer, kept, kind_of_type};
use crate::operands::{casts, is_integer_of, is_of_type};
use crate::signature::are_types_of;
use crate::stands::{
    is_scalar_type, is_target, params_stand, pointer_stands, result_stands, type_stands,
};
use cr_base::{Boxed, Items, Name};
use rs_layout::{field_type_at, own_function_at};
use rs_same::same_results;
use rs_tree::{IntegerTy, Module, RPath, RTy};

/// What is read at a place of a type, where it is scalar.
pub(crate) fn read_kind(ty: Option<&RTy>) -> Option<HeldKind<'_>>
    ensures { option_map kind_view result ≡ typing.where_is is_scalar (option_map ty_view (option_copied ty.entry)) }
{
    match ty {
        Some(ty) => kept(is_scalar_type(ty), kind_of_type(ty)),
        None => None,
    }
}

/// The address of a place of a type.
pub(crate) fn address_kind<'t>(ty: Option<&'t RTy>) -> Option<HeldKind<'t>>
    ensures { option_map kind_view result ≡ forms.address_kind (option_map ty_view (option_copied ty.entry)) }
{
    match ty {
        Some(ty) => kept(is_target(ty), HeldKind::Pointer(ty)),
        None => None,
    }
}

/// The null pointer to a value of a type.
pub(crate) fn null_pointer_kind<'t>(modules: &[Module], ty: &'t RTy) -> Option<HeldKind<'t>>
    requires { ModulesAreAligned (map module_view modules.now) }
    ensures { option_map kind_view result ≡ only_if (typing.type_stands (map module_view modules.now) (tree.Pointer (ty_view ty.now))) (tree.Pointer (ty_view ty.now)) }
{
    kept(pointer_stands(modules, ty), HeldKind::Pointer(ty))
}

/// `offset`.
pub(crate) fn offset_kind<'t>(
    pointer: Option<HeldKind<'t>>,
    count: Option<HeldKind<'_>>,
) -> Option<HeldKind<'t>>
    ensures { option_map kind_view result ≡ typing.offset_kind (own_type (option_map kind_view pointer.entry)) (option_map kind_view count.entry) }
{
    match pointer {
        Some(HeldKind::Pointer(target)) => kept(
            is_target(target) && is_integer_of(IntegerTy::Isize, count),
            HeldKind::Pointer(target),
        ),
        _ => None,
    }
}

fn is_pointer_to(target: &RTy, kind: Option<HeldKind<'_>>) -> bool
    ensures { result ≡ is_of_type (tree.Pointer (ty_view target.now)) (option_map kind_view kind.entry) }
{
    match kind {
        Some(kind) => is_of_pointer(target, kind),
        None => false,
    }
}

/// `offset_from`.
pub(crate) fn apart_kind<'t>(
    pointer: Option<HeldKind<'_>>,
    other: Option<HeldKind<'_>>,
) -> Option<HeldKind<'t>>
    ensures { option_map kind_view result ≡ typing.apart_kind (own_type (option_map kind_view pointer.entry)) (option_map kind_view other.entry) }
{
    match pointer {
        Some(HeldKind::Pointer(target)) => kept(
            is_target(target) && is_pointer_to(target, other),
            HeldKind::Integer(IntegerTy::Isize),
        ),
        _ => None,
    }
}

/// `as`.
pub(crate) fn cast_kind<'t>(
    modules: &[Module],
    ty: &'t RTy,
    from: Option<HeldKind<'_>>,
) -> Option<HeldKind<'t>>
    requires { ModulesAreAligned (map module_view modules.now) }
    ensures { option_map kind_view result ≡ typing.cast_kind (map module_view modules.now) (ty_view ty.now) (own_type (option_map kind_view from.entry)) }
{
    match from {
        Some(from) => kept(
            casts(from, ty) && type_stands(modules, ty),
            kind_of_type(ty),
        ),
        None => None,
    }
}

fn is_code(ty: &RTy) -> bool
    ensures { result ≡ is_code (ty_view ty.now) }
{
    matches!(ty, RTy::Code(_, _))
}

/// A function pointer as one of another type.
pub(crate) fn transmute_kind<'t>(
    modules: &[Module],
    from: &RTy,
    to: &'t RTy,
    kind: Option<HeldKind<'_>>,
) -> Option<HeldKind<'t>>
    requires { ModulesAreAligned (map module_view modules.now) }
    ensures { option_map kind_view result ≡ forms.transmute_kind (map module_view modules.now) (ty_view from.now) (ty_view to.now) (option_map kind_view kind.entry) }
{
    kept(
        is_code(from)
            && is_code(to)
            && type_stands(modules, from)
            && type_stands(modules, to)
            && is_of_type(from, kind),
        kind_of_type(to),
    )
}

fn is_function_of(
    modules: &[Module],
    path: &RPath,
    params: &Items<RTy>,
    given: &Option<Boxed<RTy>>,
) -> bool
    ensures { result ≡ typing.is_function_of (tys (map ty_view params.now)) (option_ty (option_map ty_view given.now)) (typing.own_function_at (map module_view modules.now) path.now.home path.now.name) }
{
    match own_function_at(modules, path) {
        Some(fun) => are_types_of(params, &fun.params) && same_results(given, &fun.result),
        None => false,
    }
}

/// The address of a function with a body that has just these types, which stand.
pub(crate) fn function_kind<'t>(
    modules: &[Module],
    path: &RPath,
    params: &'t Items<RTy>,
    given: &'t Option<Boxed<RTy>>,
) -> Option<HeldKind<'t>>
    requires { ModulesAreAligned (map module_view modules.now) }
    ensures { option_map kind_view result ≡ forms.function_kind (map module_view modules.now) path.now.home path.now.name (tys (map ty_view params.now)) (option_ty (option_map ty_view given.now)) }
{
    kept(
        params_stand(modules, params)
            && result_stands(modules, given)
            && is_function_of(modules, path, params, given),
        HeldKind::Code(params, given),
    )
}

/// The type of a field of a place of a type.
pub(crate) fn field_type<'t>(
    modules: &'t [Module],
    name: &Name,
    ty: Option<&RTy>,
) -> Option<&'t RTy>
    ensures { option_map ty_view (option_copied result) ≡ typing.field_type (map module_view modules.now) name.now (option_map ty_view (option_copied ty.entry)) }
{
    match ty {
        Some(RTy::Record(path)) => field_type_at(modules, path, name),
        _ => None,
    }
}

/// The one kind of what `if` chooses from, where its condition is a `bool`.
pub(crate) fn chosen_kind<'t>(
    is_truth: bool,
    if_true: Option<HeldKind<'t>>,
    if_false: Option<HeldKind<'t>>,
) -> Option<HeldKind<'t>>
    ensures { option_map kind_view result ≡ typing.chosen_kind is_truth (typing.common (option_map kind_view if_true.entry) (option_map kind_view if_false.entry)) }
{
    if is_truth {
        common(if_true, if_false)
    } else {
        None
    }
}
