//! Statements (the Rust Reference, "Statements" and "Loops").

ghost use Rattle.std.specs.Prelude.{◌≡◌, map, Some, if◌then◌else◌};
ghost use Rattle.rs_forms.specs.Forms.{call_run, nested_run};
ghost use Rattle.rs_scene.specs.Scenes.{IsScene, frame_view};
ghost use Rattle.rs_machine.specs.Does.{Does, Stays, end_of};
ghost use Rattle.rs_machine.specs.States.{state};
ghost use Rattle.rs_machine.specs.Steps.{StoreDoes};
ghost use Rattle.rs_tree.specs.Views.{module_view};
ghost use Rattle.rs_scene.specs.Flows.{flow_view};
ghost use Rattle.rs_mean.specs.Calls as piece;
ghost use Rattle.rs_mean.specs.Run.{goes_on, run_expr, run_place, run_stmt, run_stmts};
ghost use Rattle.rs_mean.specs.World.{pure, seq};
ghost use Rattle.rs_text.specs.Tree as tree;
ghost use Rattle.rs_text.specs.Tree.{arms, stmts};
ghost use Rattle.rs_tree.specs.Views.{arm_view, expr_view, place_view, stmt_view};
ghost use Rattle.rs_value.specs.Views.{spot_view, typed_view};

use crate::calls::call;
use crate::exprs::expr;
use crate::places::place;
use cr_base::{Items, Name};
use ext_calls::Host;
use mem_bytes::Store;
use rs_forms::{CallForm, Left, Nested, StmtForm, quick_spot, quick_stmt, quick_value, stmt_form};
use rs_machine::{Halt, Machine, copy_bytes, store_at};
use rs_scene::{Flow, Scene, Turn, after_block, after_turn, chosen, is_normal};
use rs_tree::{Arm, RExpr, RPlace, RStmt};
use rs_value::{TypedValue, ValueSpot, test_of};

/// Control leaves by a flow.
fn leaves<'t>(flow: Flow<'t>) -> Result<Flow<'t>, Halt<'t>>
    ensures { Stays (pure (flow_view flow.entry)) (end_of flow_view result) }
{
    Ok(flow)
}

/// What a statement does.
#[inline(always)]
#[cycle(knot)]
fn stmt<'t, S: Store, H: Host>(
    machine: &mut Machine,
    store: &mut S,
    host: &mut H,
    scene: Scene<'t, '_>,
    room: u32,
    tree: &'t RStmt,
) -> Result<Flow<'t>, Halt<'t>>
    requires { IsScene scene }
    ensures { Does (run_stmt (frame_view scene.entry) (stmt_view tree.now)) (end_of flow_view result)
        (state machine.old (S.memory store.old) (S.limit store.old) (H.state host.old)) (state machine.new (S.memory store.new) (S.limit store.new) (H.state host.new)) }
{
    if room == 0 {
        return Err(Halt::Memory);
    }
    match quick_stmt(store, scene, tree) {
        Left::Nothing => Ok(Flow::Normal),
        Left::Inner(list) => stmts(machine, store, host, scene, room - 1, list),
        Left::Halted(halt) => Err(halt),
        Left::Everything => whole_stmt(machine, store, host, scene, room, tree),
    }
}

/// What a statement does of which nothing was done at once. It has the room of the statement.
#[inline(never)]
#[cycle(knot)]
fn whole_stmt<'t, S: Store, H: Host>(
    machine: &mut Machine,
    store: &mut S,
    host: &mut H,
    scene: Scene<'t, '_>,
    room: u32,
    tree: &'t RStmt,
) -> Result<Flow<'t>, Halt<'t>>
    requires { IsScene scene }
    ensures { Does (run_stmt (frame_view scene.entry) (stmt_view tree.now)) (end_of flow_view result)
        (state machine.old (S.memory store.old) (S.limit store.old) (H.state host.old)) (state machine.new (S.memory store.new) (S.limit store.new) (H.state host.new)) }
{
    if room == 0 {
        return Err(Halt::Memory);
    }
    match stmt_form(tree) {
        StmtForm::Leaves(flow) => leaves(flow),
        StmtForm::Assign(of, value) => assign(machine, store, host, scene, room - 1, of, value),
        StmtForm::Call(form) => dropped_call(machine, store, host, scene, room - 1, form),
        StmtForm::Value(value) => dropped_value(machine, store, host, scene, room - 1, value),
        StmtForm::Copy(source, target, count) => copied(
            machine,
            store,
            host,
            scene,
            room - 1,
            source,
            target,
            count,
        ),
        StmtForm::Return(value) => returned(machine, store, host, scene, room - 1, value),
        StmtForm::Within(form) => nested(machine, store, host, scene, room - 1, form),
    }
}

/// What a statement with statements in it does.
#[cycle(knot)]
fn nested<'t, S: Store, H: Host>(
    machine: &mut Machine,
    store: &mut S,
    host: &mut H,
    scene: Scene<'t, '_>,
    room: u32,
    form: Nested<'t>,
) -> Result<Flow<'t>, Halt<'t>>
    requires { IsScene scene }
    ensures { Does (nested_run (frame_view scene.entry) form.entry) (end_of flow_view result)
        (state machine.old (S.memory store.old) (S.limit store.old) (H.state host.old)) (state machine.new (S.memory store.new) (S.limit store.new) (H.state host.new)) }
{
    if room == 0 {
        return Err(Halt::Memory);
    }
    match form {
        Nested::If(condition, if_true, if_false) => branch(
            machine,
            store,
            host,
            scene,
            room - 1,
            condition,
            if_true,
            if_false,
        ),
        Nested::Loop(label, body) => turns(machine, store, host, scene, room - 1, label, body),
        Nested::Block(label, body) => block(machine, store, host, scene, room - 1, label, body),
        Nested::Match(value, cases, other) => matched(
            machine,
            store,
            host,
            scene,
            room - 1,
            value,
            cases,
            other,
        ),
    }
}

/// A call whose result is dropped.
#[cycle(knot)]
fn dropped_call<'t, S: Store, H: Host>(
    machine: &mut Machine,
    store: &mut S,
    host: &mut H,
    scene: Scene<'t, '_>,
    room: u32,
    form: CallForm<'t>,
) -> Result<Flow<'t>, Halt<'t>>
    requires { IsScene scene }
    ensures { Does (seq (call_run (frame_view scene.entry) form.entry) goes_on) (end_of flow_view result)
        (state machine.old (S.memory store.old) (S.limit store.old) (H.state host.old)) (state machine.new (S.memory store.new) (S.limit store.new) (H.state host.new)) }
{
    if room == 0 {
        return Err(Halt::Memory);
    }
    let _given = match call(machine, store, host, scene, room - 1, form) {
        Ok(given) => given,
        Err(halt) => return Err(halt),
    };
    Ok(Flow::Normal)
}

/// What statements do, one behind the other.
#[cycle(knot)]
pub(crate) fn stmts<'t, S: Store, H: Host>(
    machine: &mut Machine,
    store: &mut S,
    host: &mut H,
    scene: Scene<'t, '_>,
    room: u32,
    list: &'t [RStmt],
) -> Result<Flow<'t>, Halt<'t>>
    requires { IsScene scene }
    ensures { Does (run_stmts (frame_view scene.entry) (stmts (map stmt_view list.now))) (end_of flow_view result)
        (state machine.old (S.memory store.old) (S.limit store.old) (H.state host.old)) (state machine.new (S.memory store.new) (S.limit store.new) (H.state host.new)) }
{
    if room == 0 {
        return Err(Halt::Memory);
    }
    for one in list {
        let flow = match stmt(machine, store, host, scene, room - 1, one) {
            Ok(flow) => flow,
            Err(halt) => return Err(halt),
        };
        if !is_normal(flow) {
            return Ok(flow);
        }
    }
    Ok(Flow::Normal)
}

/// A value is stored in a place.
#[cycle(knot)]
fn assign_value<'t, S: Store, H: Host>(
    machine: &mut Machine,
    store: &mut S,
    host: &mut H,
    scene: Scene<'t, '_>,
    room: u32,
    of: &'t RPlace,
    value: TypedValue<'t>,
) -> Result<Flow<'t>, Halt<'t>>
    requires { IsScene scene }
    ensures { Does (seq (run_place (frame_view scene.entry) (place_view of.now)) (λ at. seq (piece.store at (typed_view value.entry).value) goes_on)) (end_of flow_view result)
        (state machine.old (S.memory store.old) (S.limit store.old) (H.state host.old)) (state machine.new (S.memory store.new) (S.limit store.new) (H.state host.new)) }
{
    if room == 0 {
        return Err(Halt::Memory);
    }
    if let Some(spot) = quick_spot(scene, of) {
        return store_in(store, spot, value);
    }
    let spot = match place(machine, store, host, scene, room - 1, of) {
        Ok(spot) => spot,
        Err(halt) => return Err(halt),
    };
    store_in(store, spot, value)
}

/// A value is stored in a place that was found.
#[inline(never)]
fn store_in<'t, S: Store>(
    store: &mut S,
    spot: ValueSpot<'t>,
    value: TypedValue<'t>,
) -> Result<Flow<'t>, Halt<'t>>
    ensures { StoreDoes (seq (piece.store (spot_view spot.entry) (typed_view value.entry).value) goes_on) (end_of flow_view result)
        (S.memory store.old) (S.memory store.new) (S.limit store.old) (S.limit store.new) }
{
    match store_at(store, spot.is_based, spot.ty, spot.at, value.value) {
        Ok(()) => Ok(Flow::Normal),
        Err(halt) => Err(halt),
    }
}

/// The value goes first, then the place.
#[cycle(knot)]
fn assign<'t, S: Store, H: Host>(
    machine: &mut Machine,
    store: &mut S,
    host: &mut H,
    scene: Scene<'t, '_>,
    room: u32,
    of: &'t RPlace,
    value: &'t RExpr,
) -> Result<Flow<'t>, Halt<'t>>
    requires { IsScene scene }
    ensures { Does (run_stmt (frame_view scene.entry) (tree.Assign (place_view of.now) (expr_view value.now))) (end_of flow_view result)
        (state machine.old (S.memory store.old) (S.limit store.old) (H.state host.old)) (state machine.new (S.memory store.new) (S.limit store.new) (H.state host.new)) }
{
    if room == 0 {
        return Err(Halt::Memory);
    }
    if let Some(stored) = quick_value(store, scene, value) {
        return assign_value(machine, store, host, scene, room - 1, of, stored);
    }
    let stored = match expr(machine, store, host, scene, room - 1, value) {
        Ok(stored) => stored,
        Err(halt) => return Err(halt),
    };
    assign_value(machine, store, host, scene, room - 1, of, stored)
}

/// A value that is dropped.
#[cycle(knot)]
fn dropped_value<'t, S: Store, H: Host>(
    machine: &mut Machine,
    store: &mut S,
    host: &mut H,
    scene: Scene<'t, '_>,
    room: u32,
    value: &'t RExpr,
) -> Result<Flow<'t>, Halt<'t>>
    requires { IsScene scene }
    ensures { Does (seq (run_expr (frame_view scene.entry) (expr_view value.now)) goes_on) (end_of flow_view result)
        (state machine.old (S.memory store.old) (S.limit store.old) (H.state host.old)) (state machine.new (S.memory store.new) (S.limit store.new) (H.state host.new)) }
{
    if room == 0 {
        return Err(Halt::Memory);
    }
    let _given = match expr(machine, store, host, scene, room - 1, value) {
        Ok(given) => given,
        Err(halt) => return Err(halt),
    };
    Ok(Flow::Normal)
}

/// Bytes are copied.
#[cycle(knot)]
fn copied<'t, S: Store, H: Host>(
    machine: &mut Machine,
    store: &mut S,
    host: &mut H,
    scene: Scene<'t, '_>,
    room: u32,
    source: &'t RExpr,
    target: &'t RExpr,
    count: &'t RExpr,
) -> Result<Flow<'t>, Halt<'t>>
    requires { IsScene scene }
    ensures { Does (run_stmt (frame_view scene.entry) (tree.CopyBytes (expr_view source.now) (expr_view target.now) (expr_view count.now))) (end_of flow_view result)
        (state machine.old (S.memory store.old) (S.limit store.old) (H.state host.old)) (state machine.new (S.memory store.new) (S.limit store.new) (H.state host.new)) }
{
    if room == 0 {
        return Err(Halt::Memory);
    }
    let from = match expr(machine, store, host, scene, room - 1, source) {
        Ok(from) => from,
        Err(halt) => return Err(halt),
    };
    let to = match expr(machine, store, host, scene, room - 1, target) {
        Ok(to) => to,
        Err(halt) => return Err(halt),
    };
    let bytes = match expr(machine, store, host, scene, room - 1, count) {
        Ok(bytes) => bytes,
        Err(halt) => return Err(halt),
    };
    match copy_bytes(store, from, to, bytes) {
        Ok(()) => Ok(Flow::Normal),
        Err(halt) => Err(halt),
    }
}

// The statements on the side of a test.
fn side_of<'t>(test: bool, if_true: &'t Items<RStmt>, if_false: &'t Items<RStmt>) -> &'t [RStmt]
    ensures { result.now ≡ (if test then if_true.now else if_false.now) }
{
    if test {
        return if_true.as_slice();
    }
    if_false.as_slice()
}

/// One of two lists of statements.
#[cycle(knot)]
fn branch<'t, S: Store, H: Host>(
    machine: &mut Machine,
    store: &mut S,
    host: &mut H,
    scene: Scene<'t, '_>,
    room: u32,
    condition: &'t RExpr,
    if_true: &'t Items<RStmt>,
    if_false: &'t Items<RStmt>,
) -> Result<Flow<'t>, Halt<'t>>
    requires { IsScene scene }
    ensures { Does (run_stmt (frame_view scene.entry) (tree.If (expr_view condition.now) (stmts (map stmt_view if_true.now)) (stmts (map stmt_view if_false.now)))) (end_of flow_view result)
        (state machine.old (S.memory store.old) (S.limit store.old) (H.state host.old)) (state machine.new (S.memory store.new) (S.limit store.new) (H.state host.new)) }
{
    if room == 0 {
        return Err(Halt::Memory);
    }
    let value = match expr(machine, store, host, scene, room - 1, condition) {
        Ok(value) => value,
        Err(halt) => return Err(halt),
    };
    let test = match test_of(value) {
        Ok(test) => test,
        Err(why) => return Err(Halt::Wrong(why)),
    };
    let list = side_of(test, if_true, if_false);
    stmts(machine, store, host, scene, room - 1, list)
}

/// Turns, each of which takes a unit first. No budget has 2^64 of them.
#[cycle(knot)]
fn turns<'t, S: Store, H: Host>(
    machine: &mut Machine,
    store: &mut S,
    host: &mut H,
    scene: Scene<'t, '_>,
    room: u32,
    label: &'t Option<Name>,
    body: &'t Items<RStmt>,
) -> Result<Flow<'t>, Halt<'t>>
    requires { IsScene scene }
    ensures { Does (run_stmt (frame_view scene.entry) (tree.Loop label.now (stmts (map stmt_view body.now)))) (end_of flow_view result)
        (state machine.old (S.memory store.old) (S.limit store.old) (H.state host.old)) (state machine.new (S.memory store.new) (S.limit store.new) (H.state host.new)) }
{
    if room == 0 {
        return Err(Halt::Memory);
    }
    for _turn in 0..u64::MAX {
        if !machine.take_unit() {
            return Err(Halt::Units);
        }
        let flow = match stmts(machine, store, host, scene, room - 1, body.as_slice()) {
            Ok(flow) => flow,
            Err(halt) => return Err(halt),
        };
        if let Turn::Done(flow) = after_turn(label, flow) {
            return Ok(flow);
        }
    }
    Err(Halt::Memory)
}

/// The statements of a block, which is left by its label.
#[cycle(knot)]
fn block<'t, S: Store, H: Host>(
    machine: &mut Machine,
    store: &mut S,
    host: &mut H,
    scene: Scene<'t, '_>,
    room: u32,
    label: &'t Name,
    body: &'t Items<RStmt>,
) -> Result<Flow<'t>, Halt<'t>>
    requires { IsScene scene }
    ensures { Does (run_stmt (frame_view scene.entry) (tree.Block label.now (stmts (map stmt_view body.now)))) (end_of flow_view result)
        (state machine.old (S.memory store.old) (S.limit store.old) (H.state host.old)) (state machine.new (S.memory store.new) (S.limit store.new) (H.state host.new)) }
{
    if room == 0 {
        return Err(Halt::Memory);
    }
    let flow = match stmts(machine, store, host, scene, room - 1, body.as_slice()) {
        Ok(flow) => flow,
        Err(halt) => return Err(halt),
    };
    Ok(after_block(label, flow))
}

/// The statements of the first arm whose literal is the value, or the others.
#[cycle(knot)]
fn matched<'t, S: Store, H: Host>(
    machine: &mut Machine,
    store: &mut S,
    host: &mut H,
    scene: Scene<'t, '_>,
    room: u32,
    value: &'t RExpr,
    cases: &'t Items<Arm>,
    other: &'t Items<RStmt>,
) -> Result<Flow<'t>, Halt<'t>>
    requires { IsScene scene }
    ensures { Does (run_stmt (frame_view scene.entry) (tree.Match (expr_view value.now) (arms (map arm_view cases.now)) (stmts (map stmt_view other.now)))) (end_of flow_view result)
        (state machine.old (S.memory store.old) (S.limit store.old) (H.state host.old)) (state machine.new (S.memory store.new) (S.limit store.new) (H.state host.new)) }
{
    if room == 0 {
        return Err(Halt::Memory);
    }
    let operand = match expr(machine, store, host, scene, room - 1, value) {
        Ok(operand) => operand,
        Err(halt) => return Err(halt),
    };
    let body = chosen(cases.as_slice(), operand, other.as_slice());
    stmts(machine, store, host, scene, room - 1, body)
}

/// The function gives back a value.
#[cycle(knot)]
fn returned<'t, S: Store, H: Host>(
    machine: &mut Machine,
    store: &mut S,
    host: &mut H,
    scene: Scene<'t, '_>,
    room: u32,
    value: &'t RExpr,
) -> Result<Flow<'t>, Halt<'t>>
    requires { IsScene scene }
    ensures { Does (run_stmt (frame_view scene.entry) (tree.Return (Some (expr_view value.now)))) (end_of flow_view result)
        (state machine.old (S.memory store.old) (S.limit store.old) (H.state host.old)) (state machine.new (S.memory store.new) (S.limit store.new) (H.state host.new)) }
{
    if room == 0 {
        return Err(Halt::Memory);
    }
    let given = match expr(machine, store, host, scene, room - 1, value) {
        Ok(given) => given,
        Err(halt) => return Err(halt),
    };
    Ok(Flow::Returned(Some(given)))
}
