//! Expressions (the Rust Reference, "Expressions").

ghost use Rattle.std.specs.Prelude.{map};
ghost use Rattle.rs_forms.specs.Forms.{call_run, pair_run, plain_run, side_run, used_as};
ghost use Rattle.rs_machine.specs.Does.{Does, end_of};
ghost use Rattle.rs_machine.specs.States.{state};
ghost use Rattle.rs_mean.specs.Run.{run_expr, run_place, tests, the_value};
ghost use Rattle.rs_mean.specs.World.{either, or_fails, seq};
ghost use Rattle.rs_scene.specs.Scenes.{IsScene, frame_view};
ghost use Rattle.rs_tree.specs.Views.{expr_view, module_view, place_view};
ghost use Rattle.rs_value.specs.Operators.{unary_of};
ghost use Rattle.rs_value.specs.Views.{typed_view};

use crate::calls::call;
use crate::places::place;
use ext_calls::Host;
use mem_bytes::Store;
use rs_forms::{
    CallForm, Form, Pair, PlaceUse, Side, form_of, pair_value, plain_value, unary_value, used_value,
};
use rs_machine::{Halt, Machine};
use rs_scene::{Scene, the_value, truth_value};
use rs_tree::{RExpr, RPlace};
use rs_value::{TypedValue, Unary, test_of};

/// The value of an expression.
#[cycle(knot)]
pub(crate) fn expr<'t, S: Store, H: Host>(
    machine: &mut Machine,
    store: &mut S,
    host: &mut H,
    scene: Scene<'t, '_>,
    room: u32,
    tree: &'t RExpr,
) -> Result<TypedValue<'t>, Halt<'t>>
    requires { IsScene scene }
    ensures { Does (run_expr (frame_view scene.entry) (expr_view tree.now)) (end_of typed_view result)
        (state machine.old (S.memory store.old) (S.limit store.old) (H.state host.old)) (state machine.new (S.memory store.new) (S.limit store.new) (H.state host.new)) }
{
    if room == 0 {
        return Err(Halt::Memory);
    }
    match form_of(tree) {
        Form::Alone(plain) => plain_value(scene, plain),
        Form::Place(what, of) => placed(machine, store, host, scene, room - 1, what, of),
        Form::Call(form) => call_value(machine, store, host, scene, room - 1, form),
        Form::One(operator, operand) => one(
            machine,
            store,
            host,
            scene,
            room - 1,
            operator,
            operand,
        ),
        Form::Two(operation, left, right) => two(
            machine,
            store,
            host,
            scene,
            room - 1,
            operation,
            left,
            right,
        ),
        Form::Test(condition, if_true, if_false) => tested(
            machine,
            store,
            host,
            scene,
            room - 1,
            condition,
            if_true,
            if_false,
        ),
    }
}

/// The value or the address of a place.
#[cycle(knot)]
fn placed<'t, S: Store, H: Host>(
    machine: &mut Machine,
    store: &mut S,
    host: &mut H,
    scene: Scene<'t, '_>,
    room: u32,
    what: PlaceUse,
    of: &'t RPlace,
) -> Result<TypedValue<'t>, Halt<'t>>
    requires { IsScene scene }
    ensures { Does (seq (run_place (frame_view scene.entry) (place_view of.now)) (used_as what)) (end_of typed_view result)
        (state machine.old (S.memory store.old) (S.limit store.old) (H.state host.old)) (state machine.new (S.memory store.new) (S.limit store.new) (H.state host.new)) }
{
    if room == 0 {
        return Err(Halt::Memory);
    }
    let spot = match place(machine, store, host, scene, room - 1, of) {
        Ok(spot) => spot,
        Err(halt) => return Err(halt),
    };
    used_value(store, what, spot)
}

/// The value that a call gives.
#[cycle(knot)]
fn call_value<'t, S: Store, H: Host>(
    machine: &mut Machine,
    store: &mut S,
    host: &mut H,
    scene: Scene<'t, '_>,
    room: u32,
    form: CallForm<'t>,
) -> Result<TypedValue<'t>, Halt<'t>>
    requires { IsScene scene }
    ensures { Does (seq (call_run (frame_view scene.entry) form.entry) the_value) (end_of typed_view result)
        (state machine.old (S.memory store.old) (S.limit store.old) (H.state host.old)) (state machine.new (S.memory store.new) (S.limit store.new) (H.state host.new)) }
{
    if room == 0 {
        return Err(Halt::Memory);
    }
    let given = match call(machine, store, host, scene, room - 1, form) {
        Ok(given) => given,
        Err(halt) => return Err(halt),
    };
    the_value(given)
}

/// What an operator with one operand gives.
#[cycle(knot)]
fn one<'t, S: Store, H: Host>(
    machine: &mut Machine,
    store: &mut S,
    host: &mut H,
    scene: Scene<'t, '_>,
    room: u32,
    operator: Unary<'t>,
    operand: &'t RExpr,
) -> Result<TypedValue<'t>, Halt<'t>>
    requires { IsScene scene }
    ensures { Does (seq (run_expr (frame_view scene.entry) (expr_view operand.now)) (λ value. or_fails (unary_of operator.entry value))) (end_of typed_view result)
        (state machine.old (S.memory store.old) (S.limit store.old) (H.state host.old)) (state machine.new (S.memory store.new) (S.limit store.new) (H.state host.new)) }
{
    if room == 0 {
        return Err(Halt::Memory);
    }
    let value = match expr(machine, store, host, scene, room - 1, operand) {
        Ok(value) => value,
        Err(halt) => return Err(halt),
    };
    unary_value(operator, value)
}

/// What an operation on two operands gives.
#[cycle(knot)]
fn two<'t, S: Store, H: Host>(
    machine: &mut Machine,
    store: &mut S,
    host: &mut H,
    scene: Scene<'t, '_>,
    room: u32,
    operation: Pair,
    left: &'t RExpr,
    right: &'t RExpr,
) -> Result<TypedValue<'t>, Halt<'t>>
    requires { IsScene scene }
    ensures { Does (seq (run_expr (frame_view scene.entry) (expr_view left.now)) (λ first. seq (run_expr (frame_view scene.entry) (expr_view right.now)) (λ second. pair_run (map module_view scene.entry.modules.now) operation first second))) (end_of typed_view result)
        (state machine.old (S.memory store.old) (S.limit store.old) (H.state host.old)) (state machine.new (S.memory store.new) (S.limit store.new) (H.state host.new)) }
{
    if room == 0 {
        return Err(Halt::Memory);
    }
    let first = match expr(machine, store, host, scene, room - 1, left) {
        Ok(first) => first,
        Err(halt) => return Err(halt),
    };
    let second = match expr(machine, store, host, scene, room - 1, right) {
        Ok(second) => second,
        Err(halt) => return Err(halt),
    };
    pair_value(store, scene.modules, operation, first, second)
}

/// What stands on one side of a test.
#[cycle(knot)]
fn side<'t, S: Store, H: Host>(
    machine: &mut Machine,
    store: &mut S,
    host: &mut H,
    scene: Scene<'t, '_>,
    room: u32,
    which: Side<'t>,
) -> Result<TypedValue<'t>, Halt<'t>>
    requires { IsScene scene }
    ensures { Does (side_run (frame_view scene.entry) which.entry) (end_of typed_view result)
        (state machine.old (S.memory store.old) (S.limit store.old) (H.state host.old)) (state machine.new (S.memory store.new) (S.limit store.new) (H.state host.new)) }
{
    if room == 0 {
        return Err(Halt::Memory);
    }
    match which {
        Side::Known(test) => truth_value(test),
        Side::Operand(tree) => expr(machine, store, host, scene, room - 1, tree),
    }
}

/// What stands on the side of a test that its condition says; the other side is not evaluated.
#[cycle(knot)]
fn tested<'t, S: Store, H: Host>(
    machine: &mut Machine,
    store: &mut S,
    host: &mut H,
    scene: Scene<'t, '_>,
    room: u32,
    condition: &'t RExpr,
    if_true: Side<'t>,
    if_false: Side<'t>,
) -> Result<TypedValue<'t>, Halt<'t>>
    requires { IsScene scene }
    ensures { Does (seq (run_expr (frame_view scene.entry) (expr_view condition.now)) (λ value. seq (tests value) (λ test. either test (side_run (frame_view scene.entry) if_true.entry) (side_run (frame_view scene.entry) if_false.entry)))) (end_of typed_view result)
        (state machine.old (S.memory store.old) (S.limit store.old) (H.state host.old)) (state machine.new (S.memory store.new) (S.limit store.new) (H.state host.new)) }
{
    if room == 0 {
        return Err(Halt::Memory);
    }
    let value = match expr(machine, store, host, scene, room - 1, condition) {
        Ok(value) => value,
        Err(halt) => return Err(halt),
    };
    let test = match test_of(value) {
        Ok(test) => test,
        Err(why) => return Err(Halt::Wrong(why)),
    };
    if test {
        return side(machine, store, host, scene, room - 1, if_true);
    }
    side(machine, store, host, scene, room - 1, if_false)
}
