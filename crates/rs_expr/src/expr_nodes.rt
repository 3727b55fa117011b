//! Makers of nodes of expressions. Each is refused only for want of memory.

ghost use Rattle.std.specs.Prelude.{◌≡◌, [], map, option_map, IfOk};
ghost use Rattle.rs_expr.specs.Exprs as reader;
ghost use Rattle.rs_expr.specs.Types.{signature_view};
ghost use Rattle.rs_text.specs.Tree as tree;
ghost use Rattle.rs_text.specs.Tree.{tys, option_ty, exprs};
ghost use Rattle.rs_tree.specs.Views.{ty_view, place_view, expr_view};

use crate::sign::Sign;
use crate::types::Signature;
use crate::words::Method;
use cr_base::{Boxed, Items, Memory, Name};
use rs_tree::{Operator, RExpr, RPath, RPlace, RTy, Wrapping};
use std::alloc::Global;

pub(crate) fn no_function(alloc: Global) -> Result<Boxed<RExpr>, Memory>
    ensures { IfOk result (λ e. expr_view e ≡ tree.NoFunction) }
{
    Boxed::new(alloc, RExpr::NoFunction)
}

pub(crate) fn read_of(alloc: Global, place: RPlace) -> Result<Boxed<RExpr>, Memory>
    ensures { IfOk result (λ e. expr_view e ≡ tree.Read (place_view place)) }
{
    match Boxed::new(alloc, place) {
        Ok(place) => Boxed::new(alloc, RExpr::Read(place)),
        Err(memory) => Err(memory),
    }
}

/// The address of a function of this signature.
#[tactic(auto, using(rs_tree::proofs::Opened::some_view))]
pub(crate) fn function_value(
    alloc: Global,
    path: RPath,
    signature: Signature,
) -> Result<Boxed<RExpr>, Memory>
    ensures { IfOk result (λ e. expr_view e ≡ tree.SomeFunction path.home path.name (tys (signature_view signature).params) (option_ty (signature_view signature).result)) }
{
    let Signature { params, result } = signature;
    Boxed::new(alloc, RExpr::SomeFunction(path, params, result))
}

pub(crate) fn call_of(
    alloc: Global,
    path: RPath,
    args: Items<RExpr>,
) -> Result<Boxed<RExpr>, Memory>
    ensures { IfOk result (λ e. expr_view e ≡ tree.Call path.home path.name (exprs (map expr_view args))) }
{
    Boxed::new(alloc, RExpr::Call(path, args))
}

pub(crate) fn call_by(
    alloc: Global,
    operand: Boxed<RExpr>,
    args: Items<RExpr>,
) -> Result<Boxed<RExpr>, Memory>
    ensures { IfOk result (λ e. expr_view e ≡ tree.CallBy (expr_view operand) (exprs (map expr_view args))) }
{
    Boxed::new(alloc, RExpr::CallBy(operand, args))
}

#[tactic(auto, using(rs_tree::proofs::Opened::transmute_view))]
pub(crate) fn transmuted(
    alloc: Global,
    from: Boxed<RTy>,
    to: Boxed<RTy>,
    operand: Boxed<RExpr>,
) -> Result<Boxed<RExpr>, Memory>
    ensures { IfOk result (λ e. expr_view e ≡ tree.Transmute (ty_view from) (ty_view to) (expr_view operand)) }
{
    Boxed::new(alloc, RExpr::Transmute(from, to, operand))
}

#[tactic(auto, using(rs_tree::proofs::Opened::choose_view))]
pub(crate) fn choice(
    alloc: Global,
    condition: Boxed<RExpr>,
    if_true: Boxed<RExpr>,
    if_false: Boxed<RExpr>,
) -> Result<Boxed<RExpr>, Memory>
    ensures { IfOk result (λ e. expr_view e ≡ tree.Choose (expr_view condition) (expr_view if_true) (expr_view if_false)) }
{
    Boxed::new(alloc, RExpr::Choose(condition, if_true, if_false))
}

/// `core::ptr::addr_of_mut!(p)` of the place that an expression reads.
pub(crate) fn address_of(alloc: Global, expr: Boxed<RExpr>) -> Result<Boxed<RExpr>, Memory>
    ensures { IfOk result (λ e. expr_view e ≡ tree.AddressOf (reader.place_of (expr_view expr))) }
{
    let place = place_of(alloc, expr)?;
    Boxed::new(alloc, RExpr::AddressOf(place))
}

/// `-o`, `!o` or `*o`, by the mark before the operand.
pub(crate) fn prefixed_of(
    alloc: Global,
    sign: Sign,
    operand: Boxed<RExpr>,
) -> Result<Boxed<RExpr>, Memory>
    ensures { IfOk result (λ e. expr_view e ≡ reader.prefixed_tree sign (expr_view operand)) }
{
    match sign {
        Sign::Minus => Boxed::new(alloc, RExpr::Neg(operand)),
        Sign::Bang => Boxed::new(alloc, RExpr::Not(operand)),
        _ => read_of(alloc, RPlace::Deref(operand)),
    }
}

/// `o && o`, `o || o`, or another operator between two operands, by its mark.
pub(crate) fn joined_of(
    alloc: Global,
    sign: Sign,
    left: Boxed<RExpr>,
    operator: Operator,
    right: Boxed<RExpr>,
) -> Result<Boxed<RExpr>, Memory>
    ensures { IfOk result (λ e. expr_view e ≡ reader.joined_tree sign (expr_view left) operator (expr_view right)) }
{
    match sign {
        Sign::AndAnd => Boxed::new(alloc, RExpr::And(left, right)),
        Sign::OrOr => Boxed::new(alloc, RExpr::Or(left, right)),
        _ => Boxed::new(alloc, RExpr::Binary(left, operator, right)),
    }
}

/// A method with an argument, applied to an operand.
#[tactic(auto, using(rs_tree::proofs::Opened::offset_from_view))]
pub(crate) fn applied_of(
    alloc: Global,
    word: Method,
    operand: Boxed<RExpr>,
    arg: Boxed<RExpr>,
) -> Result<Boxed<RExpr>, Memory>
    ensures { IfOk result (λ e. expr_view e ≡ reader.applied_tree word (expr_view operand) (expr_view arg)) }
{
    match word {
        Method::AddMethod => {
            Boxed::new(alloc, RExpr::Wrapping(operand, Wrapping::WrappingAdd, arg))
        }
        Method::SubMethod => {
            Boxed::new(alloc, RExpr::Wrapping(operand, Wrapping::WrappingSub, arg))
        }
        Method::MulMethod => {
            Boxed::new(alloc, RExpr::Wrapping(operand, Wrapping::WrappingMul, arg))
        }
        Method::OffsetMethod => Boxed::new(alloc, RExpr::Offset(operand, arg)),
        _ => Boxed::new(alloc, RExpr::OffsetFrom(operand, arg)),
    }
}

// A place without a name.
fn no_place(alloc: Global) -> Result<Boxed<RPlace>, Memory>
    ensures { IfOk result (λ p. place_view p ≡ tree.Local []) }
{
    Boxed::new(alloc, RPlace::Local(Name::of(Vec::new(alloc))))
}

// A value is let go here, where its type isn't known.
fn let_go<T: Drop>(_value: T) {}

// The place that an expression reads, if it reads one.
fn place_in(expr: Boxed<RExpr>) -> Option<Boxed<RPlace>>
    ensures { option_map place_view result ≡ reader.place_in (expr_view expr) }
{
    match expr.into_inner() {
        RExpr::Read(place) => Some(place),
        other => {
            let_go(other);
            None
        }
    }
}

/// The place that an expression reads, or a place without a name where it reads none.
pub fn place_of(alloc: Global, expr: Boxed<RExpr>) -> Result<Boxed<RPlace>, Memory>
    ensures { IfOk result (λ p. place_view p ≡ reader.place_of (expr_view expr)) }
{
    match place_in(expr) {
        Some(place) => Ok(place),
        None => no_place(alloc),
    }
}
