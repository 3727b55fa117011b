//! What operators, methods and casts give of values, as steps of a run (the Rust Reference, "Operator
//! expressions").

ghost use Rattle.std.specs.Prelude.{List, map};
ghost use Rattle.rs_forms.specs.Forms.{pair_run, plain_run, used_as};
ghost use Rattle.rs_layout.specs.Layouts.{ModulesAreAligned};
ghost use Rattle.rs_machine.specs.Does.{Stays, end_of};
ghost use Rattle.rs_machine.specs.Steps.{LookDoes};
ghost use Rattle.rs_mean.specs.Layout.{laid_of};
ghost use Rattle.rs_mean.specs.Values as meant;
ghost use Rattle.rs_mean.specs.World.{looks, or_fails, pure};
ghost use Rattle.rs_scene.specs.Scenes.{IsScene, frame_view};
ghost use Rattle.rs_text.specs.Tree as tree;
ghost use Rattle.rs_text.specs.Tree.{ModuleTree};
ghost use Rattle.rs_tree.specs.Views.{module_view};
ghost use Rattle.rs_value.specs.Operators.{unary_of};
ghost use Rattle.rs_value.specs.Views.{spot_view, typed_view};

use crate::forms::{Pair, PlaceUse, Plain};
use mem_bytes::Store;
use rs_machine::{Halt, halt_of, load};
use rs_scene::{Scene, literal, no_function, null_pointer, some_function, truth_value};
use rs_tree::{Module, Operator, Wrapping};
use rs_value::{
    TypedValue, Unary, ValueSpot, ValueTy, binary_of, offset_from_of, offset_of, unary_of,
    wrapping_of,
};

/// What an operator, a method or a cast with one operand gives.
#[inline(never)]
pub fn unary_value<'t>(
    operator: Unary<'t>,
    operand: TypedValue<'t>,
) -> Result<TypedValue<'t>, Halt<'t>>
    ensures { Stays (or_fails (unary_of operator.entry (typed_view operand.entry))) (end_of typed_view result) }
{
    match unary_of(operator, operand) {
        Ok(found) => Ok(found),
        Err(trouble) => Err(halt_of(trouble)),
    }
}

/// What an operation modulo 2 to the width gives.
#[inline(always)]
fn wrapping_value<'t>(
    operation: Wrapping,
    left: TypedValue<'t>,
    right: TypedValue<'t>,
) -> Result<TypedValue<'t>, Halt<'t>>
    ensures { Stays (or_fails (meant.wrapping_of operation (typed_view left.entry) (typed_view right.entry))) (end_of typed_view result) }
{
    match wrapping_of(operation, left, right) {
        Ok(found) => Ok(found),
        Err(trouble) => Err(halt_of(trouble)),
    }
}

/// What an operator between two operands gives.
#[inline(always)]
fn binary_value<'t, S: Store>(
    store: &S,
    operator: Operator,
    left: TypedValue<'t>,
    right: TypedValue<'t>,
) -> Result<TypedValue<'t>, Halt<'t>>
    ensures { LookDoes (looks (λ held. meant.binary_of held.blocks operator (typed_view left.entry) (typed_view right.entry))) (end_of typed_view result) (S.memory store.now) }
{
    match binary_of(store, operator, left, right) {
        Ok(found) => Ok(found),
        Err(trouble) => Err(halt_of(trouble)),
    }
}

/// A pointer moved by so many values of its target.
fn offset_value<'t, S: Store>(
    store: &S,
    modules: &[Module],
    operand: TypedValue<'t>,
    count: TypedValue<'t>,
) -> Result<TypedValue<'t>, Halt<'t>>
    requires { ModulesAreAligned (map module_view modules.now) }
    ensures { LookDoes (looks (λ held. meant.offset_of (laid_of (map module_view modules.now)) held.blocks (typed_view operand.entry) (typed_view count.entry))) (end_of typed_view result) (S.memory store.now) }
{
    match offset_of(store, modules, operand, count) {
        Ok(found) => Ok(found),
        Err(trouble) => Err(halt_of(trouble)),
    }
}

/// How many values of its target a pointer is behind another.
fn offset_from_value<'t, S: Store>(
    store: &S,
    modules: &[Module],
    operand: TypedValue<'t>,
    other: TypedValue<'t>,
) -> Result<TypedValue<'t>, Halt<'t>>
    requires { ModulesAreAligned (map module_view modules.now) }
    ensures { LookDoes (looks (λ held. meant.offset_from_of (laid_of (map module_view modules.now)) held.blocks (typed_view operand.entry) (typed_view other.entry))) (end_of typed_view result) (S.memory store.now) }
{
    match offset_from_of(store, modules, operand, other) {
        Ok(found) => Ok(found),
        Err(trouble) => Err(halt_of(trouble)),
    }
}

/// What an operation on two operands gives.
#[inline(never)]
pub fn pair_value<'t, S: Store>(
    store: &S,
    modules: &[Module],
    operation: Pair,
    left: TypedValue<'t>,
    right: TypedValue<'t>,
) -> Result<TypedValue<'t>, Halt<'t>>
    requires { ModulesAreAligned (map module_view modules.now) }
    ensures { LookDoes (pair_run (map module_view modules.now) operation (typed_view left.entry) (typed_view right.entry)) (end_of typed_view result) (S.memory store.now) }
{
    match operation {
        Pair::Wrapping(operation) => wrapping_value(operation, left, right),
        Pair::Offset => offset_value(store, modules, left, right),
        Pair::OffsetFrom => offset_from_value(store, modules, left, right),
        Pair::Binary(operator) => binary_value(store, operator, left, right),
    }
}

/// What an operation on two numbers gives. None of these moves a pointer, so want of memory stands for
/// what a pointer would give.
#[inline(always)]
pub(crate) fn number_value<'t, S: Store>(
    store: &S,
    operation: Pair,
    left: TypedValue<'t>,
    right: TypedValue<'t>,
) -> Result<TypedValue<'t>, Halt<'t>>
    ensures { (modules : List ModuleTree) → LookDoes (pair_run modules operation (typed_view left.entry) (typed_view right.entry)) (end_of typed_view result) (S.memory store.now) }
{
    match operation {
        Pair::Wrapping(operation) => wrapping_value(operation, left, right),
        Pair::Offset => Err(Halt::Memory),
        Pair::OffsetFrom => Err(Halt::Memory),
        Pair::Binary(operator) => binary_value(store, operator, left, right),
    }
}

#[inline(always)]
fn address<'t>(spot: ValueSpot<'t>) -> Result<TypedValue<'t>, Halt<'t>>
    ensures { Stays (pure (meant.typed (tree.Pointer (spot_view spot.entry).ty) (spot_view spot.entry).at)) (end_of typed_view result) }
{
    Ok(TypedValue {
        ty: ValueTy::Pointer(spot.ty),
        value: spot.at,
    })
}

/// The value or the address of a place.
#[inline(never)]
pub fn used_value<'t, S: Store>(
    store: &S,
    what: PlaceUse,
    spot: ValueSpot<'t>,
) -> Result<TypedValue<'t>, Halt<'t>>
    ensures { LookDoes (used_as what (spot_view spot.entry)) (end_of typed_view result) (S.memory store.now) }
{
    match what {
        PlaceUse::Value => load(store, spot),
        PlaceUse::Address => address(spot),
    }
}

/// The value of an expression without operands.
#[inline(never)]
pub fn plain_value<'t>(scene: Scene<'t, '_>, form: Plain<'t>) -> Result<TypedValue<'t>, Halt<'t>>
    requires { IsScene scene }
    ensures { Stays (plain_run (frame_view scene.entry) form.entry) (end_of typed_view result) }
{
    match form {
        Plain::Literal(value, ty) => literal(value, ty),
        Plain::Truth(value) => truth_value(value),
        Plain::NoFunction => no_function(),
        Plain::NullPointer(ty) => null_pointer(ty),
        Plain::SomeFunction(path, params, given) => some_function(scene, path, params, given),
    }
}
