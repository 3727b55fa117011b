//! What nodes give, and how it is held in a temporary. Each maker is refused only for want of memory.

ghost use Rattle.std.specs.Prelude.{◌≡◌, map, [], ◌∷◌, IfOk};
ghost use Rattle.cx_core.specs.Views.{view_expr, view_type};
ghost use Rattle.lift_exprs.specs.Names as names_spec;
ghost use Rattle.lift_exprs.specs.Written.{kind_of_node, value_kind, place_kind, held_type, held_by, held_gives, copied, place_at, place_of_given, address_of_given, as_bytes};
ghost use Rattle.lift_exprs.specs.Written as spec;
ghost use Rattle.lift_forms_code.specs.Views.{given_view};
ghost use Rattle.lift_stores.specs.Names.{lift_names};
ghost use Rattle.lift_stores.specs.Views.{kind_view};
ghost use Rattle.rs_items.specs.Known.{view_names};
ghost use Rattle.rs_text.specs.Tree as tree;
ghost use Rattle.rs_tree.specs.Views.{ty_view, place_view, expr_view, stmt_view};

use crate::names::type_in;
use cr_base::{Boxed, Items, Memory, Name};
use cx_core::{CoreExpr, Form, Ty};
use lift_forms_code::{RGiven, address_of, value_of};
use lift_held::{is_lvalue, is_record};
use rs_items::{NameMap, size_of};
use rs_makers::{address, cast, literal, local, read, target};
use rs_tree::{IntegerTy, RExpr, RPlace, RStmt, RTy};
use std::alloc::Global;

/// What a node gives.
#[derive(Drop)]
pub enum NodeKind {
    /// A value of a type.
    Value(Boxed<RTy>),
    /// A structure or union, of a size in bytes.
    Record(Boxed<RTy>, u64),
    /// An lvalue.
    Place(Boxed<RTy>),
    /// The lvalue of a bit-field, by the address of the structure or union in which it stands.
    BitField(Boxed<RTy>),
}

fn record_kind(alloc: Global, names: &NameMap, ty: &Ty) -> Result<NodeKind, Memory>
    ensures { IfOk result (λ made. kind_view made ≡
        spec.a_record (names_spec.type_in (lift_names (view_names names.now)) (view_type ty.now)) ((lift_names (view_names names.now)).size_of (view_type ty.now))) }
{
    let size = size_of(ty, names)?;
    Ok(NodeKind::Record(type_in(alloc, names, ty)?, size))
}

/// What a value of a type is.
pub fn value_kind(alloc: Global, names: &NameMap, ty: &Ty) -> Result<NodeKind, Memory>
    ensures { IfOk result (λ made. kind_view made ≡ value_kind (lift_names (view_names names.now)) (view_type ty.now)) }
{
    if is_record(ty) {
        record_kind(alloc, names, ty)
    } else {
        Ok(NodeKind::Value(type_in(alloc, names, ty)?))
    }
}

fn place_kind(alloc: Global, names: &NameMap, e: &CoreExpr) -> Result<NodeKind, Memory>
    ensures { IfOk result (λ made. kind_view made ≡ place_kind (lift_names (view_names names.now)) (view_expr e.now)) }
{
    match &e.form {
        Form::Member(of, spot) if spot.width != 0 => {
            Ok(NodeKind::BitField(type_in(alloc, names, &of.get().ty)?))
        }
        _ => Ok(NodeKind::Place(type_in(alloc, names, &e.ty)?)),
    }
}

/// What a node gives.
pub fn kind_of_node(alloc: Global, names: &NameMap, e: &CoreExpr) -> Result<NodeKind, Memory>
    ensures { IfOk result (λ made. kind_view made ≡ kind_of_node (lift_names (view_names names.now)) (view_expr e.now)) }
{
    if is_lvalue(e) {
        place_kind(alloc, names, e)
    } else {
        value_kind(alloc, names, &e.ty)
    }
}

/// The type of a temporary that holds it.
pub fn held_type(alloc: Global, kind: NodeKind) -> Result<Boxed<RTy>, Memory>
    ensures { IfOk result (λ made. ty_view made ≡ held_type (kind_view kind)) }
{
    match kind {
        NodeKind::Value(ty) | NodeKind::Record(ty, _) => Ok(ty),
        NodeKind::Place(ty) | NodeKind::BitField(ty) => Boxed::new(alloc, RTy::Pointer(ty)),
    }
}
