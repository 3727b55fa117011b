//! The kinds of what operators give, by those of their operands (the Rust Reference, "Operator
//! expressions").

ghost use Rattle.std.specs.Prelude.{◌≡◌, map, option_map};
ghost use Rattle.std.specs.Option.{option_copied};
ghost use Rattle.rs_mean.specs.Scalars.{is_integer};
ghost use Rattle.rs_mean.specs.Typing.{as_truth, binary_kind, both_are, is_bits, is_of_type, is_signed, is_trailing, none_kind, null_kind, of_type, own_type, shift_kind, target_type, where_is};
ghost use Rattle.rs_text.specs.declared.operator.Operator.TheVariants.{Equal, Less};
ghost use Rattle.rs_text.specs.Tree as tree;
ghost use Rattle.rs_tree.specs.Views.{ty_view};
ghost use Rattle.rs_kinds.specs.Kinds.{casts_from, kind_view};

use crate::kind::{
    HeldKind, common, is_bits, is_integer, is_of, is_of_boolean, is_of_integer, is_ordered,
    is_scalar, is_signed, kept,
};
use rs_tree::{IntegerTy, Operator, RTy};

/// Whether a value, where there is one, is of a type.
pub(crate) fn is_of_type(ty: &RTy, kind: Option<HeldKind<'_>>) -> bool
    ensures { result ≡ is_of_type (ty_view ty.now) (option_map kind_view kind.entry) }
{
    match kind {
        Some(kind) => is_of(ty, kind),
        None => false,
    }
}

/// Whether a value, where there is one, is of an integer type.
pub(crate) fn is_integer_of(ty: IntegerTy, kind: Option<HeldKind<'_>>) -> bool
    ensures { result ≡ is_of_type (tree.Integer ty) (option_map kind_view kind.entry) }
{
    match kind {
        Some(kind) => is_of_integer(ty, kind),
        None => false,
    }
}

/// Whether a value, where there is one, is a `bool`.
pub(crate) fn is_truth(kind: Option<HeldKind<'_>>) -> bool
    ensures { result ≡ is_of_type tree.Boolean (option_map kind_view kind.entry) }
{
    match kind {
        Some(kind) => is_of_boolean(kind),
        None => false,
    }
}

// ---- one operand

/// An integer.
pub(crate) fn where_integer(kind: Option<HeldKind<'_>>) -> Option<HeldKind<'_>>
    ensures { option_map kind_view result ≡ where_is is_integer (own_type (option_map kind_view kind.entry)) }
{
    match kind {
        Some(kind) => kept(is_integer(kind), kind),
        None => None,
    }
}

/// An integer with a sign.
pub(crate) fn where_signed(kind: Option<HeldKind<'_>>) -> Option<HeldKind<'_>>
    ensures { option_map kind_view result ≡ where_is is_signed (own_type (option_map kind_view kind.entry)) }
{
    match kind {
        Some(kind) => kept(is_signed(kind), kind),
        None => None,
    }
}

/// An integer or a `bool`.
pub(crate) fn where_bits(kind: Option<HeldKind<'_>>) -> Option<HeldKind<'_>>
    ensures { option_map kind_view result ≡ where_is is_bits (own_type (option_map kind_view kind.entry)) }
{
    match kind {
        Some(kind) => kept(is_bits(kind), kind),
        None => None,
    }
}

/// `bool`, where a test holds.
pub(crate) fn truth_where<'t>(test: bool) -> Option<HeldKind<'t>>
    ensures { option_map kind_view result ≡ as_truth test }
{
    if test { Some(HeldKind::Boolean) } else { None }
}

/// What `is_null` gives, of a raw pointer.
pub(crate) fn null_kind<'t>(kind: Option<HeldKind<'_>>) -> Option<HeldKind<'t>>
    ensures { option_map kind_view result ≡ null_kind (own_type (option_map kind_view kind.entry)) }
{
    match kind {
        Some(HeldKind::Pointer(_)) => Some(HeldKind::Boolean),
        _ => None,
    }
}

/// What `is_none` gives, of a function pointer.
pub(crate) fn none_kind<'t>(kind: Option<HeldKind<'_>>) -> Option<HeldKind<'t>>
    ensures { option_map kind_view result ≡ none_kind (own_type (option_map kind_view kind.entry)) }
{
    match kind {
        Some(HeldKind::Code(_, _)) => Some(HeldKind::Boolean),
        _ => None,
    }
}

/// What a pointer points to.
pub(crate) fn target_of<'t>(kind: Option<HeldKind<'t>>) -> Option<&'t RTy>
    ensures { option_map ty_view (option_copied result) ≡ target_type (own_type (option_map kind_view kind.entry)) }
{
    match kind {
        Some(HeldKind::Pointer(target)) => Some(target),
        _ => None,
    }
}

// ---- two operands

/// Two integers of one type.
pub(crate) fn both_integers<'t>(
    left: Option<HeldKind<'t>>,
    right: Option<HeldKind<'t>>,
) -> Option<HeldKind<'t>>
    ensures { option_map kind_view result ≡ of_type (both_are is_integer (option_map kind_view left.entry) (option_map kind_view right.entry)) }
{
    match common(left, right) {
        Some(kind) => kept(is_integer(kind), kind),
        None => None,
    }
}

fn both_bits<'t>(left: Option<HeldKind<'t>>, right: Option<HeldKind<'t>>) -> Option<HeldKind<'t>>
    ensures { option_map kind_view result ≡ of_type (both_are is_bits (option_map kind_view left.entry) (option_map kind_view right.entry)) }
{
    match common(left, right) {
        Some(kind) => kept(is_bits(kind), kind),
        None => None,
    }
}

// An integer that is shifted by a `u32`.
fn shifted<'t>(left: Option<HeldKind<'t>>, right: Option<HeldKind<'t>>) -> Option<HeldKind<'t>>
    ensures { option_map kind_view result ≡ shift_kind (own_type (option_map kind_view left.entry)) (option_map kind_view right.entry) }
{
    match left {
        Some(kind) => kept(
            is_integer(kind) && is_integer_of(IntegerTy::U32, right),
            kind,
        ),
        None => None,
    }
}

fn equality<'t>(left: Option<HeldKind<'t>>, right: Option<HeldKind<'t>>) -> Option<HeldKind<'t>>
    ensures { option_map kind_view result ≡ binary_kind Equal (option_map kind_view left.entry) (option_map kind_view right.entry) }
{
    match common(left, right) {
        Some(kind) => truth_where(is_scalar(kind)),
        None => None,
    }
}

fn order<'t>(left: Option<HeldKind<'t>>, right: Option<HeldKind<'t>>) -> Option<HeldKind<'t>>
    ensures { option_map kind_view result ≡ binary_kind Less (option_map kind_view left.entry) (option_map kind_view right.entry) }
{
    match common(left, right) {
        Some(kind) => truth_where(is_ordered(kind)),
        None => None,
    }
}

/// What an operator gives.
pub(crate) fn binary_kind<'t>(
    operator: Operator,
    left: Option<HeldKind<'t>>,
    right: Option<HeldKind<'t>>,
) -> Option<HeldKind<'t>>
    ensures { option_map kind_view result ≡ binary_kind operator (option_map kind_view left.entry) (option_map kind_view right.entry) }
{
    match operator {
        Operator::Add | Operator::Sub | Operator::Mul | Operator::Div | Operator::Rem => {
            both_integers(left, right)
        }
        Operator::BitAnd | Operator::BitOr | Operator::BitXor => both_bits(left, right),
        Operator::Shl | Operator::Shr => shifted(left, right),
        Operator::Equal | Operator::NotEqual => equality(left, right),
        Operator::Less | Operator::LessEqual | Operator::Greater | Operator::GreaterEqual => {
            order(left, right)
        }
    }
}

// ---- conversions and arguments

pub(crate) fn casts(from: HeldKind<'_>, ty: &RTy) -> bool
    ensures { result ≡ casts_from (kind_view from.entry) (ty_view ty.now) }
{
    match ty {
        RTy::Integer(_) => is_bits(from),
        RTy::Pointer(_) => matches!(from, HeldKind::Pointer(_)),
        _ => false,
    }
}

/// Whether an argument behind the parameters may be of this kind.
pub(crate) fn is_trailing(kind: Option<HeldKind<'_>>) -> bool
    ensures { result ≡ is_trailing (own_type (option_map kind_view kind.entry)) }
{
    match kind {
        Some(HeldKind::Integer(ty)) => matches!(
            ty,
            IntegerTy::I32 | IntegerTy::U32 | IntegerTy::I64 | IntegerTy::U64
        ),
        Some(HeldKind::Pointer(RTy::Integer(ty))) => matches!(ty, IntegerTy::I8 | IntegerTy::U8),
        _ => false,
    }
}
