//! Operators between integers that a literal or a local gives, in one step (the Rust Reference, "Operator
//! expressions"): what a body does most takes no function for each of its parts.

ghost use Rattle.std.specs.Prelude.{◌≡◌, IfSome, List, map};
ghost use Rattle.mem_bytes.specs.declared.value.Value.TheVariants.{Whole};
ghost use Rattle.rs_forms.specs.Forms.{pair_run, plain_run, used_as};
ghost use Rattle.rs_forms.specs.Paired.{operands_run};
ghost use Rattle.rs_forms.specs.declared.forms.PlaceUse.TheVariants as place_use;
ghost use Rattle.rs_layout.specs.Layouts.{ModulesAreAligned};
ghost use Rattle.rs_machine.specs.Does.{Stays, gives};
ghost use Rattle.rs_machine.specs.Steps.{LookDoes};
ghost use Rattle.rs_mean.specs.Calls.{load};
ghost use Rattle.rs_mean.specs.Run.{Frame, run_expr, run_place};
ghost use Rattle.rs_mean.specs.Values.{Typed, truth, typed};
ghost use Rattle.rs_mean.specs.World.{pure, seq};
ghost use Rattle.rs_scene.specs.Scenes.{IsScene, frame_view};
ghost use Rattle.rs_text.specs.Tree as tree;
ghost use Rattle.rs_text.specs.Tree.{Integer, ModuleTree};
ghost use Rattle.rs_tree.specs.Views.{expr_view, module_view, place_view};
ghost use Rattle.rs_value.specs.Views.{spot_view, typed_view};

use crate::forms::{Form, Pair, PlaceUse, Plain, form_of};
use crate::operations::number_value;
use cr_base::{Int, Name};
use mem_bytes::{Store, Value};
use rs_machine::load;
use rs_scene::{Scene, local_spot};
use rs_tree::{IntegerTy, RExpr, RPlace};
use rs_value::{TypedValue, ValueSpot, ValueTy};

// An operation, and the types of the numbers on which it is done.
#[derive(Clone, Copy)]
struct Operands {
    operation: Pair,
    left: IntegerTy,
    right: IntegerTy,
}

/// The number that was found.
#[derive(Clone, Copy)]
pub(crate) struct Found {
    pub(crate) number: Int,
}

// The numbers on which an operation is done. They stand apart from their types, and where they were found is told by what is given
// beside them: a number with its type has bytes between the two, which would be copied at each step.
#[derive(Clone, Copy)]
struct Numbers {
    left: Int,
    right: Int,
}

/// The value of a number of a type.
#[inline(always)]
pub(crate) fn value_of<'t>(ty: IntegerTy, number: &Int) -> TypedValue<'t>
    ensures { typed_view result ≡ typed (tree.Integer ty) (Whole number.now) }
{
    TypedValue {
        ty: ValueTy::Integer(ty),
        value: Value::Whole(*number),
    }
}

// The number of a type that a value is, if it is one, and the type.
#[inline(always)]
fn whole_number(ty: IntegerTy, value: Value, number: &mut Int) -> Option<IntegerTy>
    ensures { IfSome result (λ one. typed (tree.Integer ty) value ≡ typed (tree.Integer one) (Whole number.new)) }
{
    match value {
        Value::Whole(whole) => {
            *number = whole;
            Some(ty)
        }
        Value::Null => None,
        Value::Object(_) => None,
        Value::Code(_) => None,
    }
}

// The number that a value is, if it is one, and its type.
#[inline(always)]
fn number_in(value: TypedValue<'_>, number: &mut Int) -> Option<IntegerTy>
    ensures { IfSome result (λ ty. typed_view value.entry ≡ typed (tree.Integer ty) (Whole number.new)) }
{
    match value.ty {
        ValueTy::Integer(ty) => whole_number(ty, value.value, number),
        ValueTy::Boolean
        | ValueTy::Void
        | ValueTy::Pointer(_)
        | ValueTy::Array(_, _)
        | ValueTy::Code(_, _)
        | ValueTy::Record(_) => None,
    }
}

// The number that a place holds, if it holds one, and its type.
#[inline(always)]
fn held_number<S: Store>(store: &S, spot: ValueSpot<'_>, number: &mut Int) -> Option<IntegerTy>
    ensures { IfSome result (λ ty. LookDoes (load (spot_view spot.entry)) (gives (typed (tree.Integer ty) (Whole number.new))) (S.memory store.now)) }
{
    match load(store, spot) {
        Ok(value) => number_in(value, number),
        Err(_) => None,
    }
}

// The number that a local of a name holds, if it holds one, and its type.
#[inline(always)]
fn held_under<'t, S: Store>(
    store: &S,
    scene: Scene<'t, '_>,
    name: &Name,
    number: &mut Int,
) -> Option<IntegerTy>
    ensures { IfSome result (λ ty. LookDoes (seq (run_place (frame_view scene.entry) (tree.Local name.now)) (used_as place_use.Value)) (gives (typed (tree.Integer ty) (Whole number.new))) (S.memory store.now)) }
{
    match local_spot(scene, name) {
        Ok(spot) => held_number(store, spot, number),
        Err(_) => None,
    }
}

// The number that a local holds, if the place is one and holds one, and its type.
#[inline(always)]
fn local_number<'t, S: Store>(
    store: &S,
    scene: Scene<'t, '_>,
    of: &'t RPlace,
    number: &mut Int,
) -> Option<IntegerTy>
    ensures { IfSome result (λ ty. LookDoes (seq (run_place (frame_view scene.entry) (place_view of.now)) (used_as place_use.Value)) (gives (typed (tree.Integer ty) (Whole number.new))) (S.memory store.now)) }
{
    match of {
        RPlace::Local(name) => held_under(store, scene, name, number),
        RPlace::Static(_) => None,
        RPlace::Deref(_) => None,
        RPlace::Field(_, _) => None,
    }
}

// The same of a place by what it is evaluated for.
#[inline(always)]
fn placed_number<'t, S: Store>(
    store: &S,
    scene: Scene<'t, '_>,
    what: PlaceUse,
    of: &'t RPlace,
    number: &mut Int,
) -> Option<IntegerTy>
    ensures { IfSome result (λ ty. LookDoes (seq (run_place (frame_view scene.entry) (place_view of.now)) (used_as what)) (gives (typed (tree.Integer ty) (Whole number.new))) (S.memory store.now)) }
{
    match what {
        PlaceUse::Value => local_number(store, scene, of, number),
        PlaceUse::Address => None,
    }
}

// The number that an expression without operands gives, if it is an integer literal, and its type.
#[inline(always)]
fn plain_number(form: Plain<'_>, number: &mut Int) -> Option<IntegerTy>
    ensures { (frame : Frame) → IfSome result (λ ty. plain_run frame form.entry ≡ pure (typed (tree.Integer ty) (Whole number.new))) }
{
    match form {
        Plain::Literal(value, ty) => {
            *number = *value;
            Some(ty)
        }
        Plain::Truth(_) => None,
        Plain::NoFunction => None,
        Plain::NullPointer(_) => None,
        Plain::SomeFunction(_, _, _) => None,
    }
}

// The number that a literal or a local gives, if the expression is one and gives one, and its type.
#[inline(always)]
fn number_of<'t, S: Store>(
    store: &S,
    scene: Scene<'t, '_>,
    of: &'t RExpr,
    number: &mut Int,
) -> Option<IntegerTy>
    ensures { IfSome result (λ ty. LookDoes (run_expr (frame_view scene.entry) (expr_view of.now)) (gives (typed (tree.Integer ty) (Whole number.new))) (S.memory store.now)) }
{
    match form_of(of) {
        Form::Alone(plain) => plain_number(plain, number),
        Form::Place(what, of) => placed_number(store, scene, what, of, number),
        Form::Call(_) => None,
        Form::One(_, _) => None,
        Form::Two(_, _, _) => None,
        Form::Test(_, _, _) => None,
    }
}

// Whether an expression is a literal or reads a local.
#[inline(always)]
fn is_plain(tree: &RExpr) -> bool {
    match tree {
        RExpr::Literal(_, _) => true,
        RExpr::Read(of) => matches!(of.get(), RPlace::Local(_)),
        _ => false,
    }
}

// The operands of an operator, if literals or locals give both.
#[inline(always)]
fn operands_of<'t, S: Store>(
    store: &S,
    scene: Scene<'t, '_>,
    operation: Pair,
    left: &'t RExpr,
    right: &'t RExpr,
    numbers: &mut Numbers,
) -> Option<Operands>
    requires { IsScene scene }
    ensures { IfSome result (λ all. (given : Typed) →
        LookDoes (operands_run (map module_view scene.entry.modules.now) all numbers.new) (gives given) (S.memory store.now) →
        LookDoes (seq (run_expr (frame_view scene.entry) (expr_view left.now)) (λ first. seq (run_expr (frame_view scene.entry) (expr_view right.now)) (λ second. pair_run (map module_view scene.entry.modules.now) operation first second))) (gives given) (S.memory store.now)) }
{
    if !is_plain(left) {
        return None;
    }
    if !is_plain(right) {
        return None;
    }
    let Some(left) = number_of(store, scene, left, &mut numbers.left) else {
        return None;
    };
    let Some(right) = number_of(store, scene, right, &mut numbers.right) else {
        return None;
    };
    Some(Operands {
        operation,
        left,
        right,
    })
}

// The operands of an expression, if it is an operator between literals or locals that give numbers.
#[inline(never)]
fn operands_in<'t, S: Store>(
    store: &S,
    scene: Scene<'t, '_>,
    tree: &'t RExpr,
    numbers: &mut Numbers,
) -> Option<Operands>
    requires { IsScene scene }
    ensures { IfSome result (λ all. (given : Typed) →
        LookDoes (operands_run (map module_view scene.entry.modules.now) all numbers.new) (gives given) (S.memory store.now) →
        LookDoes (run_expr (frame_view scene.entry) (expr_view tree.now)) (gives given) (S.memory store.now)) }
{
    match form_of(tree) {
        Form::Two(operation, left, right) => {
            operands_of(store, scene, operation, left, right, numbers)
        }
        Form::Alone(_) => None,
        Form::Place(_, _) => None,
        Form::Call(_) => None,
        Form::One(_, _) => None,
        Form::Test(_, _, _) => None,
    }
}

// The number that an operation gives of its operands, if it gives one, and its type.
#[inline(always)]
fn number_given<S: Store>(
    store: &S,
    all: Operands,
    numbers: &Numbers,
    number: &mut Int,
) -> Option<IntegerTy>
    ensures { (modules : List ModuleTree) → IfSome result (λ ty. LookDoes (operands_run modules all numbers.now) (gives (typed (tree.Integer ty) (Whole number.new))) (S.memory store.now)) }
{
    match number_value(
        store,
        all.operation,
        value_of(all.left, &numbers.left),
        value_of(all.right, &numbers.right),
    ) {
        Ok(value) => number_in(value, number),
        Err(_) => None,
    }
}

// The truth value that an operation gives of its operands, if it gives one.
#[inline(always)]
fn truth_given<S: Store>(store: &S, all: Operands, numbers: &Numbers) -> Option<bool>
    ensures { (modules : List ModuleTree) → IfSome result (λ test. LookDoes (operands_run modules all numbers.now) (gives (truth test)) (S.memory store.now)) }
{
    match number_value(
        store,
        all.operation,
        value_of(all.left, &numbers.left),
        value_of(all.right, &numbers.right),
    ) {
        Ok(value) => truth_in(value),
        Err(_) => None,
    }
}

/// The number of an operator between two literals or locals, if the expression is one and gives a number, and its type.
#[inline(never)]
pub(crate) fn quick_number<'t, S: Store>(
    store: &S,
    scene: Scene<'t, '_>,
    tree: &'t RExpr,
    found: &mut Found,
) -> Option<IntegerTy>
    requires { IsScene scene }
    ensures { IfSome result (λ ty. LookDoes (run_expr (frame_view scene.entry) (expr_view tree.now)) (gives (typed (Integer ty) (Whole found.new.number))) (S.memory store.now)) }
{
    let mut numbers = Numbers { left: 0, right: 0 };
    match operands_in(store, scene, tree, &mut numbers) {
        Some(all) => number_given(store, all, &numbers, &mut found.number),
        None => None,
    }
}

/// The value of an operator between two literals or locals, if the expression is one and gives a number.
#[inline(never)]
pub fn quick_value<'t, S: Store>(
    store: &S,
    scene: Scene<'t, '_>,
    tree: &'t RExpr,
) -> Option<TypedValue<'t>>
    requires { IsScene scene }
    ensures { IfSome result (λ value. LookDoes (run_expr (frame_view scene.entry) (expr_view tree.now)) (gives (typed_view value)) (S.memory store.now)) }
{
    let mut found = Found { number: 0 };
    match quick_number(store, scene, tree, &mut found) {
        Some(ty) => Some(value_of(ty, &found.number)),
        None => None,
    }
}

// The truth value that a number is, if it is one.
#[inline(always)]
fn truth_of_number(number: &Int) -> Option<bool>
    ensures { IfSome result (λ test. typed tree.Boolean (Whole number.now) ≡ truth test) }
{
    if *number == 0 {
        return Some(false);
    }
    if *number == 1 {
        return Some(true);
    }
    None
}

// The truth value that the value of a `bool` is, if it is one.
#[inline(always)]
fn whole_truth(value: Value) -> Option<bool>
    ensures { IfSome result (λ test. typed tree.Boolean value ≡ truth test) }
{
    match value {
        Value::Whole(number) => truth_of_number(&number),
        Value::Null => None,
        Value::Object(_) => None,
        Value::Code(_) => None,
    }
}

// The truth value that a value is, if it is one.
#[inline(always)]
fn truth_in(value: TypedValue<'_>) -> Option<bool>
    ensures { IfSome result (λ test. typed_view value.entry ≡ truth test) }
{
    match value.ty {
        ValueTy::Boolean => whole_truth(value.value),
        ValueTy::Integer(_)
        | ValueTy::Void
        | ValueTy::Pointer(_)
        | ValueTy::Array(_, _)
        | ValueTy::Code(_, _)
        | ValueTy::Record(_) => None,
    }
}

/// The truth value of an operator between two literals or locals, if the expression is one and has a truth value.
#[inline(never)]
pub(crate) fn quick_test<'t, S: Store>(
    store: &S,
    scene: Scene<'t, '_>,
    tree: &'t RExpr,
) -> Option<bool>
    requires { IsScene scene }
    ensures { IfSome result (λ test. LookDoes (run_expr (frame_view scene.entry) (expr_view tree.now)) (gives (truth test)) (S.memory store.now)) }
{
    let mut numbers = Numbers { left: 0, right: 0 };
    match operands_in(store, scene, tree, &mut numbers) {
        Some(all) => truth_given(store, all, &numbers),
        None => None,
    }
}

/// The place of a local, if the place is one.
#[inline(always)]
pub fn quick_spot<'t>(scene: Scene<'t, '_>, of: &'t RPlace) -> Option<ValueSpot<'t>>
    ensures { IfSome result (λ spot. Stays (run_place (frame_view scene.entry) (place_view of.now)) (gives (spot_view spot))) }
{
    match of {
        RPlace::Local(name) => spot_under(scene, name),
        RPlace::Static(_) => None,
        RPlace::Deref(_) => None,
        RPlace::Field(_, _) => None,
    }
}

#[inline(always)]
fn spot_under<'t>(scene: Scene<'t, '_>, name: &Name) -> Option<ValueSpot<'t>>
    ensures { IfSome result (λ spot. Stays (run_place (frame_view scene.entry) (tree.Local name.now)) (gives (spot_view spot))) }
{
    match local_spot(scene, name) {
        Ok(spot) => Some(spot),
        Err(_) => None,
    }
}
