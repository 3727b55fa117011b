//! Makers of nodes of expressions and places. Each is refused only for want of memory.

ghost use Rattle.std.specs.Prelude.{◌≡◌, map, option_map, IfOk};
ghost use Rattle.rs_text.specs.Tree as tree;
ghost use Rattle.rs_text.specs.Tree.{exprs, tys, option_ty};
ghost use Rattle.rs_tree.specs.Views.{ty_view, place_view, expr_view};

use cr_base::{Boxed, Int, Items, Memory, Name};
use rs_tree::{IntegerTy, Operator, RExpr, RPath, RPlace, RTy, Wrapping};
use std::alloc::Global;

/// An integer literal of a type.
pub fn literal(alloc: Global, number: Int, which: IntegerTy) -> Result<Boxed<RExpr>, Memory>
    ensures { IfOk result (λ e. expr_view e ≡ tree.Literal number which) }
{
    Boxed::new(alloc, RExpr::Literal(number, which))
}

/// `true` or `false`.
pub fn truth(alloc: Global, test: bool) -> Result<Boxed<RExpr>, Memory>
    ensures { IfOk result (λ e. expr_view e ≡ tree.Truth test) }
{
    Boxed::new(alloc, RExpr::Truth(test))
}

/// `None`.
pub fn no_function(alloc: Global) -> Result<Boxed<RExpr>, Memory>
    ensures { IfOk result (λ e. expr_view e ≡ tree.NoFunction) }
{
    Boxed::new(alloc, RExpr::NoFunction)
}

/// A place that is read.
pub fn read(alloc: Global, place: Boxed<RPlace>) -> Result<Boxed<RExpr>, Memory>
    ensures { IfOk result (λ e. expr_view e ≡ tree.Read (place_view place)) }
{
    Boxed::new(alloc, RExpr::Read(place))
}

/// `core::ptr::addr_of_mut!(p)`.
pub fn address(alloc: Global, place: Boxed<RPlace>) -> Result<Boxed<RExpr>, Memory>
    ensures { IfOk result (λ e. expr_view e ≡ tree.AddressOf (place_view place)) }
{
    Boxed::new(alloc, RExpr::AddressOf(place))
}

/// `core::ptr::null_mut::<T>()`.
pub fn null_pointer(alloc: Global, target: Boxed<RTy>) -> Result<Boxed<RExpr>, Memory>
    ensures { IfOk result (λ e. expr_view e ≡ tree.NullPointer (ty_view target)) }
{
    Boxed::new(alloc, RExpr::NullPointer(target))
}

/// `o as T`.
#[tactic(auto, using(rs_tree::proofs::Opened::cast_view))]
pub fn cast(alloc: Global, operand: Boxed<RExpr>, to: Boxed<RTy>) -> Result<Boxed<RExpr>, Memory>
    ensures { IfOk result (λ e. expr_view e ≡ tree.Cast (expr_view operand) (ty_view to)) }
{
    Boxed::new(alloc, RExpr::Cast(operand, to))
}

/// `core::mem::transmute::<T, T>(e)`.
#[tactic(auto, using(rs_tree::proofs::Opened::transmute_view))]
pub fn transmute(
    alloc: Global,
    from: Boxed<RTy>,
    to: Boxed<RTy>,
    operand: Boxed<RExpr>,
) -> Result<Boxed<RExpr>, Memory>
    ensures { IfOk result (λ e. expr_view e ≡ tree.Transmute (ty_view from) (ty_view to) (expr_view operand)) }
{
    Boxed::new(alloc, RExpr::Transmute(from, to, operand))
}

/// `-o`.
pub fn neg(alloc: Global, operand: Boxed<RExpr>) -> Result<Boxed<RExpr>, Memory>
    ensures { IfOk result (λ e. expr_view e ≡ tree.Neg (expr_view operand)) }
{
    Boxed::new(alloc, RExpr::Neg(operand))
}

/// `!o`.
pub fn not(alloc: Global, operand: Boxed<RExpr>) -> Result<Boxed<RExpr>, Memory>
    ensures { IfOk result (λ e. expr_view e ≡ tree.Not (expr_view operand)) }
{
    Boxed::new(alloc, RExpr::Not(operand))
}

/// `o.wrapping_neg()`.
#[tactic(auto, using(rs_tree::proofs::Opened::wrapping_neg_view))]
pub fn wrapping_neg(alloc: Global, operand: Boxed<RExpr>) -> Result<Boxed<RExpr>, Memory>
    ensures { IfOk result (λ e. expr_view e ≡ tree.WrappingNeg (expr_view operand)) }
{
    Boxed::new(alloc, RExpr::WrappingNeg(operand))
}

/// `o.is_null()`.
pub fn is_null(alloc: Global, operand: Boxed<RExpr>) -> Result<Boxed<RExpr>, Memory>
    ensures { IfOk result (λ e. expr_view e ≡ tree.IsNull (expr_view operand)) }
{
    Boxed::new(alloc, RExpr::IsNull(operand))
}

/// `o.is_none()`.
pub fn is_none(alloc: Global, operand: Boxed<RExpr>) -> Result<Boxed<RExpr>, Memory>
    ensures { IfOk result (λ e. expr_view e ≡ tree.IsNone (expr_view operand)) }
{
    Boxed::new(alloc, RExpr::IsNone(operand))
}

/// `o.offset(e)`.
pub fn offset(
    alloc: Global,
    left: Boxed<RExpr>,
    right: Boxed<RExpr>,
) -> Result<Boxed<RExpr>, Memory>
    ensures { IfOk result (λ e. expr_view e ≡ tree.Offset (expr_view left) (expr_view right)) }
{
    Boxed::new(alloc, RExpr::Offset(left, right))
}

/// `o.offset_from(e)`.
#[tactic(auto, using(rs_tree::proofs::Opened::offset_from_view))]
pub fn offset_from(
    alloc: Global,
    left: Boxed<RExpr>,
    right: Boxed<RExpr>,
) -> Result<Boxed<RExpr>, Memory>
    ensures { IfOk result (λ e. expr_view e ≡ tree.OffsetFrom (expr_view left) (expr_view right)) }
{
    Boxed::new(alloc, RExpr::OffsetFrom(left, right))
}

/// `o && o`.
pub fn and(alloc: Global, left: Boxed<RExpr>, right: Boxed<RExpr>) -> Result<Boxed<RExpr>, Memory>
    ensures { IfOk result (λ e. expr_view e ≡ tree.And (expr_view left) (expr_view right)) }
{
    Boxed::new(alloc, RExpr::And(left, right))
}

/// `o || o`.
pub fn or(alloc: Global, left: Boxed<RExpr>, right: Boxed<RExpr>) -> Result<Boxed<RExpr>, Memory>
    ensures { IfOk result (λ e. expr_view e ≡ tree.Or (expr_view left) (expr_view right)) }
{
    Boxed::new(alloc, RExpr::Or(left, right))
}

/// `o.wrapping_add(e)` and its like.
pub fn wrapped(
    alloc: Global,
    left: Boxed<RExpr>,
    operation: Wrapping,
    right: Boxed<RExpr>,
) -> Result<Boxed<RExpr>, Memory>
    ensures { IfOk result (λ e. expr_view e ≡ tree.Wrapped (expr_view left) operation (expr_view right)) }
{
    Boxed::new(alloc, RExpr::Wrapping(left, operation, right))
}

/// `o op o`.
pub fn binary(
    alloc: Global,
    left: Boxed<RExpr>,
    operator: Operator,
    right: Boxed<RExpr>,
) -> Result<Boxed<RExpr>, Memory>
    ensures { IfOk result (λ e. expr_view e ≡ tree.Binary (expr_view left) operator (expr_view right)) }
{
    Boxed::new(alloc, RExpr::Binary(left, operator, right))
}

/// `if e { e } else { e }`.
#[tactic(auto, using(rs_tree::proofs::Opened::choose_view))]
pub fn choose(
    alloc: Global,
    condition: Boxed<RExpr>,
    if_true: Boxed<RExpr>,
    if_false: Boxed<RExpr>,
) -> Result<Boxed<RExpr>, Memory>
    ensures { IfOk result (λ e. expr_view e ≡ tree.Choose (expr_view condition) (expr_view if_true) (expr_view if_false)) }
{
    Boxed::new(alloc, RExpr::Choose(condition, if_true, if_false))
}

/// `*o`.
pub fn target(alloc: Global, operand: Boxed<RExpr>) -> Result<Boxed<RPlace>, Memory>
    ensures { IfOk result (λ p. place_view p ≡ tree.Deref (expr_view operand)) }
{
    Boxed::new(alloc, RPlace::Deref(operand))
}

/// A parameter or a local.
pub fn local(alloc: Global, name: Name) -> Result<Boxed<RPlace>, Memory>
    ensures { IfOk result (λ p. place_view p ≡ tree.Local name) }
{
    Boxed::new(alloc, RPlace::Local(name))
}

/// A static object of a module.
pub fn static_object(alloc: Global, path: RPath) -> Result<Boxed<RPlace>, Memory>
    ensures { IfOk result (λ p. place_view p ≡ tree.Static path.home path.name) }
{
    Boxed::new(alloc, RPlace::Static(path))
}

/// `p.f`.
pub fn field(alloc: Global, of: Boxed<RPlace>, name: Name) -> Result<Boxed<RPlace>, Memory>
    ensures { IfOk result (λ p. place_view p ≡ tree.Field (place_view of) name) }
{
    Boxed::new(alloc, RPlace::Field(of, name))
}

/// `crate::m::x(e, e)`.
pub fn call(alloc: Global, path: RPath, args: Items<RExpr>) -> Result<Boxed<RExpr>, Memory>
    ensures { IfOk result (λ e. expr_view e ≡ tree.Call path.home path.name (exprs (map expr_view args))) }
{
    Boxed::new(alloc, RExpr::Call(path, args))
}

/// `o.unwrap()(e, e)`.
pub fn call_by(
    alloc: Global,
    operand: Boxed<RExpr>,
    args: Items<RExpr>,
) -> Result<Boxed<RExpr>, Memory>
    ensures { IfOk result (λ e. expr_view e ≡ tree.CallBy (expr_view operand) (exprs (map expr_view args))) }
{
    Boxed::new(alloc, RExpr::CallBy(operand, args))
}

/// `Some(crate::m::x as unsafe extern "C" fn(T) -> T)`.
#[tactic(auto, using(rs_tree::proofs::Opened::some_view))]
pub fn some_function(
    alloc: Global,
    path: RPath,
    params: Items<RTy>,
    given: Option<Boxed<RTy>>,
) -> Result<Boxed<RExpr>, Memory>
    ensures { IfOk result (λ e. expr_view e ≡ tree.SomeFunction path.home path.name (tys (map ty_view params)) (option_ty (option_map ty_view given))) }
{
    Boxed::new(alloc, RExpr::SomeFunction(path, params, given))
}
