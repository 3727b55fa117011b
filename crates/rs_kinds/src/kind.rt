//! The kinds of values.

ghost use Rattle.std.specs.Prelude.{◌≡◌, Some, map, option_map};
ghost use Rattle.std.specs.Option.{option_copied};
ghost use Rattle.rs_mean.specs.Scalars.{is_scalar, is_integer};
ghost use Rattle.rs_mean.specs.Typing.{of, is_of, common, own_type, is_signed, is_bits, is_pointer, target_type};
ghost use Rattle.rs_text.specs.Tree as tree;
ghost use Rattle.rs_text.specs.Tree.{tys, option_ty};
ghost use Rattle.rs_tree.specs.Views.{ty_view};
ghost use Rattle.rs_kinds.specs.Kinds.{kind_view, has_type, is_none_kind, is_of_kind, is_ordered, kept, takes_none};

use cr_base::{Boxed, Items};
use rs_same::{is_signed_integer, same_integer, same_path, same_results, same_type, same_types};
use rs_tree::{IntegerTy, RPath, RTy};

/// The type of a value, of which the parts are the crate's own, or that of `None`, which is of every
/// function pointer type.
#[derive(Clone, Copy)]
pub(crate) enum HeldKind<'t> {
    Integer(IntegerTy),
    Boolean,
    Void,
    /// A pointer to a value of this type.
    Pointer(&'t RTy),
    Array(&'t RTy, u64),
    Code(&'t Items<RTy>, &'t Option<Boxed<RTy>>),
    Record(&'t RPath),
    NoFunction,
}

/// The kind of the values of a type.
pub(crate) fn kind_of_type(ty: &RTy) -> HeldKind<'_>
    ensures { kind_view result ≡ of (ty_view ty.now) }
{
    match ty {
        RTy::Integer(ty) => HeldKind::Integer(*ty),
        RTy::Boolean => HeldKind::Boolean,
        RTy::Void => HeldKind::Void,
        RTy::Pointer(target) => HeldKind::Pointer(target.get()),
        RTy::Array(element, size) => HeldKind::Array(element.get(), *size),
        RTy::Code(params, given) => HeldKind::Code(params, given),
        RTy::Record(path) => HeldKind::Record(path),
    }
}

// ---- values of a type

/// Whether a value of a kind is one of an integer type.
pub(crate) fn is_of_integer(ty: IntegerTy, kind: HeldKind<'_>) -> bool
    ensures { result ≡ is_of (tree.Integer ty) (kind_view kind.entry) }
{
    match kind {
        HeldKind::Integer(other) => same_integer(ty, other),
        _ => false,
    }
}

/// Whether a value of a kind is a `bool`.
pub(crate) fn is_of_boolean(kind: HeldKind<'_>) -> bool
    ensures { result ≡ is_of tree.Boolean (kind_view kind.entry) }
{
    matches!(kind, HeldKind::Boolean)
}

fn is_of_void(kind: HeldKind<'_>) -> bool
    ensures { result ≡ is_of tree.Void (kind_view kind.entry) }
{
    matches!(kind, HeldKind::Void)
}

/// Whether a value of a kind is a pointer to a value of a type.
pub(crate) fn is_of_pointer(target: &RTy, kind: HeldKind<'_>) -> bool
    ensures { result ≡ is_of (tree.Pointer (ty_view target.now)) (kind_view kind.entry) }
{
    match kind {
        HeldKind::Pointer(other) => same_type(target, other),
        _ => false,
    }
}

fn is_of_array(element: &RTy, size: u64, kind: HeldKind<'_>) -> bool
    ensures { result ≡ is_of (tree.Array (ty_view element.now) size) (kind_view kind.entry) }
{
    match kind {
        HeldKind::Array(other, other_size) => same_type(element, other) && size == other_size,
        _ => false,
    }
}

fn is_of_code(params: &Items<RTy>, given: &Option<Boxed<RTy>>, kind: HeldKind<'_>) -> bool
    ensures { result ≡ is_of (tree.Code (tys (map ty_view params.now)) (option_ty (option_map ty_view given.now))) (kind_view kind.entry) }
{
    match kind {
        HeldKind::Code(other_params, other_given) => {
            same_types(params, other_params) && same_results(given, other_given)
        }
        HeldKind::NoFunction => true,
        _ => false,
    }
}

fn is_of_record(path: &RPath, kind: HeldKind<'_>) -> bool
    ensures { result ≡ is_of (tree.Record path.now.home path.now.name) (kind_view kind.entry) }
{
    match kind {
        HeldKind::Record(other) => same_path(path, other),
        _ => false,
    }
}

/// Whether a value of a kind is one of a type.
pub(crate) fn is_of(ty: &RTy, kind: HeldKind<'_>) -> bool
    ensures { result ≡ is_of (ty_view ty.now) (kind_view kind.entry) }
{
    match ty {
        RTy::Integer(ty) => is_of_integer(*ty, kind),
        RTy::Boolean => is_of_boolean(kind),
        RTy::Void => is_of_void(kind),
        RTy::Pointer(target) => is_of_pointer(target.get(), kind),
        RTy::Array(element, size) => is_of_array(element.get(), *size, kind),
        RTy::Code(params, given) => is_of_code(params, given, kind),
        RTy::Record(path) => is_of_record(path, kind),
    }
}

// ---- one kind of two values

// Whether a value of a kind is one of another kind, which isn't that of `None`.
fn is_of_kind(kind: HeldKind<'_>, other: HeldKind<'_>) -> bool
    ensures { result ≡ is_of_kind (kind_view kind.entry) (kind_view other.entry) }
{
    match kind {
        HeldKind::Integer(ty) => is_of_integer(ty, other),
        HeldKind::Boolean => is_of_boolean(other),
        HeldKind::Void => is_of_void(other),
        HeldKind::Pointer(target) => is_of_pointer(target, other),
        HeldKind::Array(element, size) => is_of_array(element, size, other),
        HeldKind::Code(params, given) => is_of_code(params, given, other),
        HeldKind::Record(path) => is_of_record(path, other),
        HeldKind::NoFunction => false,
    }
}

fn takes_none(kind: HeldKind<'_>) -> bool
    ensures { result ≡ takes_none (kind_view kind.entry) }
{
    matches!(kind, HeldKind::Code(_, _) | HeldKind::NoFunction)
}

fn is_none_kind(kind: HeldKind<'_>) -> bool
    ensures { result ≡ is_none_kind (kind_view kind.entry) }
{
    matches!(kind, HeldKind::NoFunction)
}

// The one kind of two values.
#[tactic(auto, using(crate::proofs::Common::common_kinds))]
fn agreed<'t>(left: HeldKind<'t>, right: HeldKind<'t>) -> Option<HeldKind<'t>>
    ensures { option_map kind_view result ≡ common (Some (kind_view left.entry)) (Some (kind_view right.entry)) }
{
    if is_none_kind(left) {
        return kept(takes_none(right), right);
    }
    kept(is_of_kind(left, right), left)
}

/// A kind where a test holds.
pub(crate) fn kept(test: bool, kind: HeldKind<'_>) -> Option<HeldKind<'_>>
    ensures { option_map kind_view result ≡ kept test (kind_view kind.entry) }
{
    if test { Some(kind) } else { None }
}

/// The one kind of two values, where both have one.
pub(crate) fn common<'t>(
    left: Option<HeldKind<'t>>,
    right: Option<HeldKind<'t>>,
) -> Option<HeldKind<'t>>
    ensures { option_map kind_view result ≡ common (option_map kind_view left.entry) (option_map kind_view right.entry) }
{
    match (left, right) {
        (Some(left), Some(right)) => agreed(left, right),
        _ => None,
    }
}

// ---- tests

pub(crate) fn is_integer(kind: HeldKind<'_>) -> bool
    ensures { result ≡ has_type is_integer (kind_view kind.entry) }
{
    matches!(kind, HeldKind::Integer(_))
}

pub(crate) fn is_bits(kind: HeldKind<'_>) -> bool
    ensures { result ≡ has_type is_bits (kind_view kind.entry) }
{
    matches!(kind, HeldKind::Integer(_) | HeldKind::Boolean)
}

pub(crate) fn is_signed(kind: HeldKind<'_>) -> bool
    ensures { result ≡ has_type is_signed (kind_view kind.entry) }
{
    match kind {
        HeldKind::Integer(ty) => is_signed_integer(ty),
        _ => false,
    }
}

pub(crate) fn is_ordered(kind: HeldKind<'_>) -> bool
    ensures { result ≡ has_type is_ordered (kind_view kind.entry) }
{
    matches!(kind, HeldKind::Integer(_) | HeldKind::Pointer(_))
}

pub(crate) fn is_scalar(kind: HeldKind<'_>) -> bool
    ensures { result ≡ has_type is_scalar (kind_view kind.entry) }
{
    matches!(
        kind,
        HeldKind::Integer(_) | HeldKind::Boolean | HeldKind::Pointer(_) | HeldKind::Code(_, _)
    )
}
