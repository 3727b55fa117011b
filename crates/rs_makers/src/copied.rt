//! Nodes whose parts are copies of those of others. Each is refused only for want of memory, also where a part was.

ghost use Rattle.std.specs.Prelude.{◌≡◌, map, option_map, IfOk};
ghost use Rattle.rs_text.specs.Tree as tree;
ghost use Rattle.rs_text.specs.Tree.{exprs, tys, option_ty};
ghost use Rattle.rs_tree.specs.Views.{ty_view, place_view, expr_view};

use crate::makers::{
    address, call, call_by, cast, field, is_none, is_null, local, neg, not, null_pointer, read,
    some_function, static_object, target, wrapping_neg,
};
use crate::types::{copy_given, copy_path, copy_ty, copy_tys};
use cr_base::{Boxed, Items, Memory, Name};
use rs_tree::{RExpr, RPath, RPlace, RTy};
use std::alloc::Global;

// ---- leaves

pub(crate) fn copied_null(alloc: Global, target: &RTy) -> Result<Boxed<RExpr>, Memory>
    ensures { IfOk result (λ made. expr_view made ≡ tree.NullPointer (ty_view target.now)) }
{
    let target = copy_ty(alloc, target)?;
    null_pointer(alloc, target)
}

pub(crate) fn copied_function(
    alloc: Global,
    path: &RPath,
    params: &Items<RTy>,
    given: &Option<Boxed<RTy>>,
) -> Result<Boxed<RExpr>, Memory>
    ensures { IfOk result (λ made. expr_view made ≡ tree.SomeFunction path.now.home path.now.name (tys (map ty_view params.now)) (option_ty (option_map ty_view given.now))) }
{
    let path = copy_path(path)?;
    let params = copy_tys(alloc, params.as_slice())?;
    let given = copy_given(alloc, given)?;
    some_function(alloc, path, params, given)
}

// ---- one operand

pub(crate) fn copied_neg(
    alloc: Global,
    _of: &Boxed<RExpr>,
    of: Result<Boxed<RExpr>, Memory>,
) -> Result<Boxed<RExpr>, Memory>
    requires { IfOk of (λ copy. expr_view copy ≡ expr_view _of.now) }
    ensures { IfOk result (λ made. expr_view made ≡ tree.Neg (expr_view _of.now)) }
{
    neg(alloc, of?)
}

pub(crate) fn copied_not(
    alloc: Global,
    _of: &Boxed<RExpr>,
    of: Result<Boxed<RExpr>, Memory>,
) -> Result<Boxed<RExpr>, Memory>
    requires { IfOk of (λ copy. expr_view copy ≡ expr_view _of.now) }
    ensures { IfOk result (λ made. expr_view made ≡ tree.Not (expr_view _of.now)) }
{
    not(alloc, of?)
}

pub(crate) fn copied_wrapping_neg(
    alloc: Global,
    _of: &Boxed<RExpr>,
    of: Result<Boxed<RExpr>, Memory>,
) -> Result<Boxed<RExpr>, Memory>
    requires { IfOk of (λ copy. expr_view copy ≡ expr_view _of.now) }
    ensures { IfOk result (λ made. expr_view made ≡ tree.WrappingNeg (expr_view _of.now)) }
{
    wrapping_neg(alloc, of?)
}

pub(crate) fn copied_is_null(
    alloc: Global,
    _of: &Boxed<RExpr>,
    of: Result<Boxed<RExpr>, Memory>,
) -> Result<Boxed<RExpr>, Memory>
    requires { IfOk of (λ copy. expr_view copy ≡ expr_view _of.now) }
    ensures { IfOk result (λ made. expr_view made ≡ tree.IsNull (expr_view _of.now)) }
{
    is_null(alloc, of?)
}

pub(crate) fn copied_is_none(
    alloc: Global,
    _of: &Boxed<RExpr>,
    of: Result<Boxed<RExpr>, Memory>,
) -> Result<Boxed<RExpr>, Memory>
    requires { IfOk of (λ copy. expr_view copy ≡ expr_view _of.now) }
    ensures { IfOk result (λ made. expr_view made ≡ tree.IsNone (expr_view _of.now)) }
{
    is_none(alloc, of?)
}

pub(crate) fn copied_cast(
    alloc: Global,
    _of: &Boxed<RExpr>,
    of: Result<Boxed<RExpr>, Memory>,
    ty: &RTy,
) -> Result<Boxed<RExpr>, Memory>
    requires { IfOk of (λ copy. expr_view copy ≡ expr_view _of.now) }
    ensures { IfOk result (λ made. expr_view made ≡ tree.Cast (expr_view _of.now) (ty_view ty.now)) }
{
    let of = of?;
    let ty = copy_ty(alloc, ty)?;
    cast(alloc, of, ty)
}

// ---- places

pub(crate) fn copied_read(
    alloc: Global,
    _at: &Boxed<RPlace>,
    at: Result<Boxed<RPlace>, Memory>,
) -> Result<Boxed<RExpr>, Memory>
    requires { IfOk at (λ copy. place_view copy ≡ place_view _at.now) }
    ensures { IfOk result (λ made. expr_view made ≡ tree.Read (place_view _at.now)) }
{
    read(alloc, at?)
}

pub(crate) fn copied_address(
    alloc: Global,
    _of: &Boxed<RPlace>,
    of: Result<Boxed<RPlace>, Memory>,
) -> Result<Boxed<RExpr>, Memory>
    requires { IfOk of (λ copy. place_view copy ≡ place_view _of.now) }
    ensures { IfOk result (λ made. expr_view made ≡ tree.AddressOf (place_view _of.now)) }
{
    address(alloc, of?)
}

pub(crate) fn copied_local(alloc: Global, name: &Name) -> Result<Boxed<RPlace>, Memory>
    ensures { IfOk result (λ made. place_view made ≡ tree.Local name.now) }
{
    local(alloc, name.copy()?)
}

pub(crate) fn copied_static(alloc: Global, path: &RPath) -> Result<Boxed<RPlace>, Memory>
    ensures { IfOk result (λ made. place_view made ≡ tree.Static path.now.home path.now.name) }
{
    static_object(alloc, copy_path(path)?)
}

pub(crate) fn copied_target(
    alloc: Global,
    _of: &Boxed<RExpr>,
    of: Result<Boxed<RExpr>, Memory>,
) -> Result<Boxed<RPlace>, Memory>
    requires { IfOk of (λ copy. expr_view copy ≡ expr_view _of.now) }
    ensures { IfOk result (λ made. place_view made ≡ tree.Deref (expr_view _of.now)) }
{
    target(alloc, of?)
}

pub(crate) fn copied_field(
    alloc: Global,
    _whole: &Boxed<RPlace>,
    whole: Result<Boxed<RPlace>, Memory>,
    name: &Name,
) -> Result<Boxed<RPlace>, Memory>
    requires { IfOk whole (λ copy. place_view copy ≡ place_view _whole.now) }
    ensures { IfOk result (λ made. place_view made ≡ tree.Field (place_view _whole.now) name.now) }
{
    let whole = whole?;
    field(alloc, whole, name.copy()?)
}

// ---- calls

pub(crate) fn copied_call(
    alloc: Global,
    path: &RPath,
    _args: &Items<RExpr>,
    args: Result<Items<RExpr>, Memory>,
) -> Result<Boxed<RExpr>, Memory>
    requires { IfOk args (λ copies. map expr_view copies ≡ map expr_view _args.now) }
    ensures { IfOk result (λ made. expr_view made ≡ tree.Call path.now.home path.now.name (exprs (map expr_view _args.now))) }
{
    let args = args?;
    let path = copy_path(path)?;
    call(alloc, path, args)
}

pub(crate) fn copied_call_by(
    alloc: Global,
    _by: &Boxed<RExpr>,
    by: Result<Boxed<RExpr>, Memory>,
    _args: &Items<RExpr>,
    args: Result<Items<RExpr>, Memory>,
) -> Result<Boxed<RExpr>, Memory>
    requires of_pointer { IfOk by (λ copy. expr_view copy ≡ expr_view _by.now) }
    requires of_args { IfOk args (λ copies. map expr_view copies ≡ map expr_view _args.now) }
    ensures { IfOk result (λ made. expr_view made ≡ tree.CallBy (expr_view _by.now) (exprs (map expr_view _args.now))) }
{
    let by = by?;
    let args = args?;
    call_by(alloc, by, args)
}
