//! Calls (the Rust Reference, "Call expressions" and "Functions").

ghost use Rattle.std.specs.Prelude.{◌≡◌, ◌++◌, map, option_map, Some};
ghost use Rattle.rs_forms.specs.Forms.{call_run};
ghost use Rattle.rs_scene.specs.Scenes.{IsScene, frame_view};
ghost use Rattle.rs_machine.specs.Does.{Does, end_of};
ghost use Rattle.rs_machine.specs.States.{state};
ghost use Rattle.rs_tree.specs.Views.{module_view};
ghost use Rattle.rs_scene.specs.Calls.{pointed_view};
ghost use Rattle.rs_scene.specs.Scenes.{held_local};
ghost use Rattle.rs_layout.specs.Found.{callee_view};
ghost use Rattle.rs_mean.specs.Laws.{bodies_of};
ghost use Rattle.rs_mean.specs.Lookups.{own};
ghost use Rattle.rs_mean.specs.Run as run;
ghost use Rattle.rs_mean.specs.Run.{run_exprs, call_at, call_found, call_pointed, run_callee, run_call_by, in_frame};
ghost use Rattle.rs_mean.specs.World.{pure, seq, takes_unit};
ghost use Rattle.rs_text.specs.Tree.{exprs};
ghost use Rattle.rs_tree.specs.Views.{expr_view, function_view};
ghost use Rattle.rs_value.specs.Views.{typed_view};

use crate::exprs::expr;
use crate::stmts::stmts;
use cr_base::Items;
use ext_calls::Host;
use mem_bytes::Store;
use rs_forms::CallForm;
use rs_layout::{HeldCallee, callee_at};
use rs_machine::{Halt, Machine, outer_call};
use rs_mean::Cause;
use rs_scene::{
    HeldLocal, Pointed, Scene, accepts, begin_frame, called_as, end_locals, given_by, retyped,
    unwrapped,
};
use rs_tree::{Function, RExpr, RPath};
use rs_value::TypedValue;

/// A call.
#[cycle(knot)]
pub(crate) fn call<'t, S: Store, H: Host>(
    machine: &mut Machine,
    store: &mut S,
    host: &mut H,
    scene: Scene<'t, '_>,
    room: u32,
    form: CallForm<'t>,
) -> Result<Option<TypedValue<'t>>, Halt<'t>>
    requires { IsScene scene }
    ensures { Does (call_run (frame_view scene.entry) form.entry) (end_of (option_map typed_view) result)
        (state machine.old (S.memory store.old) (S.limit store.old) (H.state host.old)) (state machine.new (S.memory store.new) (S.limit store.new) (H.state host.new)) }
{
    if room == 0 {
        return Err(Halt::Memory);
    }
    match form {
        CallForm::Named(path, list) => called(machine, store, host, scene, room - 1, path, list),
        CallForm::Pointed(operand, list) => called_by(
            machine,
            store,
            host,
            scene,
            room - 1,
            operand,
            list,
        ),
    }
}

/// The values of arguments, from the left.
#[cycle(knot)]
fn args<'t, S: Store, H: Host>(
    machine: &mut Machine,
    store: &mut S,
    host: &mut H,
    scene: Scene<'t, '_>,
    room: u32,
    list: &'t Items<RExpr>,
) -> Result<Items<TypedValue<'t>>, Halt<'t>>
    requires { IsScene scene }
    ensures { Does (run_exprs (frame_view scene.entry) (exprs (map expr_view list.now))) (end_of (map typed_view) result)
        (state machine.old (S.memory store.old) (S.limit store.old) (H.state host.old)) (state machine.new (S.memory store.new) (S.limit store.new) (H.state host.new)) }
{
    if room == 0 {
        return Err(Halt::Memory);
    }
    let mut values = Items::new(machine.alloc());
    if let Err(halt) = args_into(
        machine,
        store,
        host,
        scene,
        room - 1,
        list.as_slice(),
        &mut values,
    ) {
        return Err(halt);
    }
    Ok(values)
}

/// The values of arguments behind others.
#[cycle(knot)]
fn args_into<'t, S: Store, H: Host>(
    machine: &mut Machine,
    store: &mut S,
    host: &mut H,
    scene: Scene<'t, '_>,
    room: u32,
    list: &'t [RExpr],
    values: &mut Items<TypedValue<'t>>,
) -> Result<(), Halt<'t>>
    requires { IsScene scene }
    ensures { Does (seq (run_exprs (frame_view scene.entry) (exprs (map expr_view list.now))) (λ others. pure (map typed_view values.old ++ others))) (end_of (λ _. map typed_view values.new) result)
        (state machine.old (S.memory store.old) (S.limit store.old) (H.state host.old)) (state machine.new (S.memory store.new) (S.limit store.new) (H.state host.new)) }
{
    if room == 0 {
        return Err(Halt::Memory);
    }
    let Some((first, others)) = list.split_first() else {
        return Ok(());
    };
    let value = match expr(machine, store, host, scene, room - 1, first) {
        Ok(value) => value,
        Err(halt) => return Err(halt),
    };
    if let Err(_) = values.push(value) {
        return Err(Halt::Memory);
    }
    args_into(machine, store, host, scene, room - 1, others, values)
}

/// A call of the function that a path names.
#[cycle(knot)]
fn called<'t, S: Store, H: Host>(
    machine: &mut Machine,
    store: &mut S,
    host: &mut H,
    scene: Scene<'t, '_>,
    room: u32,
    path: &'t RPath,
    list: &'t Items<RExpr>,
) -> Result<Option<TypedValue<'t>>, Halt<'t>>
    requires { IsScene scene }
    ensures { Does (seq (run_exprs (frame_view scene.entry) (exprs (map expr_view list.now))) (λ values. call_at (frame_view scene.entry).modules (frame_view scene.entry).bodies path.now.home path.now.name values)) (end_of (option_map typed_view) result)
        (state machine.old (S.memory store.old) (S.limit store.old) (H.state host.old)) (state machine.new (S.memory store.new) (S.limit store.new) (H.state host.new)) }
{
    if room == 0 {
        return Err(Halt::Memory);
    }
    let values = match args(machine, store, host, scene, room - 1, list) {
        Ok(values) => values,
        Err(halt) => return Err(halt),
    };
    let callee = callee_at(scene.modules, path);
    call_found(
        machine,
        store,
        host,
        scene,
        room - 1,
        callee,
        values.as_slice(),
    )
}

/// A call by a function pointer.
#[cycle(knot)]
fn called_by<'t, S: Store, H: Host>(
    machine: &mut Machine,
    store: &mut S,
    host: &mut H,
    scene: Scene<'t, '_>,
    room: u32,
    operand: &'t RExpr,
    list: &'t Items<RExpr>,
) -> Result<Option<TypedValue<'t>>, Halt<'t>>
    requires { IsScene scene }
    ensures { Does (run_call_by (frame_view scene.entry) (expr_view operand.now) (exprs (map expr_view list.now))) (end_of (option_map typed_view) result)
        (state machine.old (S.memory store.old) (S.limit store.old) (H.state host.old)) (state machine.new (S.memory store.new) (S.limit store.new) (H.state host.new)) }
{
    if room == 0 {
        return Err(Halt::Memory);
    }
    let pointer = match expr(machine, store, host, scene, room - 1, operand) {
        Ok(pointer) => pointer,
        Err(halt) => return Err(halt),
    };
    let pointed = match unwrapped(scene, pointer) {
        Ok(pointed) => pointed,
        Err(halt) => return Err(halt),
    };
    let values = match args(machine, store, host, scene, room - 1, list) {
        Ok(values) => values,
        Err(halt) => return Err(halt),
    };
    call_pointed(
        machine,
        store,
        host,
        scene,
        room - 1,
        pointed,
        values.as_slice(),
    )
}

/// A call of a function that was found.
#[cycle(knot)]
pub fn call_found<'t, S: Store, H: Host>(
    machine: &mut Machine,
    store: &mut S,
    host: &mut H,
    scene: Scene<'t, '_>,
    room: u32,
    callee: Option<HeldCallee<'t>>,
    list: &[TypedValue<'t>],
) -> Result<Option<TypedValue<'t>>, Halt<'t>>
    requires { IsScene scene }
    ensures { Does (call_found (bodies_of (map module_view scene.entry.modules.now)) (map typed_view list.now) (option_map callee_view callee.entry)) (end_of (option_map typed_view) result)
        (state machine.old (S.memory store.old) (S.limit store.old) (H.state host.old)) (state machine.new (S.memory store.new) (S.limit store.new) (H.state host.new)) }
{
    if room == 0 {
        return Err(Halt::Memory);
    }
    let Some(callee) = callee else {
        return Err(Halt::Wrong(Cause::WrongCall));
    };
    if !accepts(callee, list) {
        return Err(Halt::Wrong(Cause::WrongCall));
    }
    if !machine.take_unit() {
        return Err(Halt::Units);
    }
    run_callee(machine, store, host, scene, room - 1, callee, list)
}

/// A function runs.
#[cycle(knot)]
fn run_callee<'t, S: Store, H: Host>(
    machine: &mut Machine,
    store: &mut S,
    host: &mut H,
    scene: Scene<'t, '_>,
    room: u32,
    callee: HeldCallee<'t>,
    list: &[TypedValue<'t>],
) -> Result<Option<TypedValue<'t>>, Halt<'t>>
    requires { IsScene scene }
    ensures { Does (run_callee (bodies_of (map module_view scene.entry.modules.now)) (map typed_view list.now) (callee_view callee.entry)) (end_of (option_map typed_view) result)
        (state machine.old (S.memory store.old) (S.limit store.old) (H.state host.old)) (state machine.new (S.memory store.new) (S.limit store.new) (H.state host.new)) }
{
    if room == 0 {
        return Err(Halt::Memory);
    }
    match callee {
        HeldCallee::Outer(fun) => outer_call(machine, store, host, fun, list),
        HeldCallee::Own(fun) => function(machine, store, host, scene, room - 1, fun, list),
    }
}

/// The body of a called function: its parameters and locals begin at the call and end at its return.
#[cycle(knot)]
fn function<'t, S: Store, H: Host>(
    machine: &mut Machine,
    store: &mut S,
    host: &mut H,
    scene: Scene<'t, '_>,
    room: u32,
    fun: &'t Function,
    list: &[TypedValue<'t>],
) -> Result<Option<TypedValue<'t>>, Halt<'t>>
    requires { IsScene scene }
    ensures { Does (bodies_of (map module_view scene.entry.modules.now) (function_view fun.now) (map typed_view list.now)) (end_of (option_map typed_view) result)
        (state machine.old (S.memory store.old) (S.limit store.old) (H.state host.old)) (state machine.new (S.memory store.new) (S.limit store.new) (H.state host.new)) }
{
    if room == 0 {
        return Err(Halt::Memory);
    }
    let locals = match begin_frame(machine.alloc(), store, scene.modules, fun, list) {
        Ok(locals) => locals,
        Err(halt) => return Err(halt),
    };
    body(
        machine,
        store,
        host,
        scene,
        room - 1,
        fun,
        locals.as_slice(),
    )
}

/// The statements of a body among its parameters and locals, which end behind them.
#[cycle(knot)]
fn body<'t, S: Store, H: Host>(
    machine: &mut Machine,
    store: &mut S,
    host: &mut H,
    scene: Scene<'t, '_>,
    room: u32,
    fun: &'t Function,
    locals: &[HeldLocal<'t>],
) -> Result<Option<TypedValue<'t>>, Halt<'t>>
    requires { IsScene scene }
    ensures { Does (in_frame (map module_view scene.entry.modules.now) (bodies_of (map module_view scene.entry.modules.now)) (function_view fun.now) (map held_local locals.now)) (end_of (option_map typed_view) result)
        (state machine.old (S.memory store.old) (S.limit store.old) (H.state host.old)) (state machine.new (S.memory store.new) (S.limit store.new) (H.state host.new)) }
{
    if room == 0 {
        return Err(Halt::Memory);
    }
    let inner = Scene {
        modules: scene.modules,
        statics: scene.statics,
        functions: scene.functions,
        locals,
    };
    let flow = match stmts(machine, store, host, inner, room - 1, fun.body.as_slice()) {
        Ok(flow) => flow,
        Err(halt) => return Err(halt),
    };
    end_locals(store, locals);
    Ok(given_by(fun, flow))
}

/// A call of what a function pointer points to.
#[cycle(knot)]
fn call_pointed<'t, S: Store, H: Host>(
    machine: &mut Machine,
    store: &mut S,
    host: &mut H,
    scene: Scene<'t, '_>,
    room: u32,
    pointed: Pointed<'t>,
    list: &[TypedValue<'t>],
) -> Result<Option<TypedValue<'t>>, Halt<'t>>
    requires { IsScene scene }
    ensures { Does (call_pointed (bodies_of (map module_view scene.entry.modules.now)) (pointed_view pointed.entry).params (pointed_view pointed.entry).result (map typed_view list.now) (pointed_view pointed.entry).fun) (end_of (option_map typed_view) result)
        (state machine.old (S.memory store.old) (S.limit store.old) (H.state host.old)) (state machine.new (S.memory store.new) (S.limit store.new) (H.state host.new)) }
{
    if room == 0 {
        return Err(Halt::Memory);
    }
    let Some(fun) = pointed.fun else {
        return Err(Halt::Wrong(Cause::WrongCall));
    };
    if !called_as(pointed, fun) {
        return Err(Halt::Wrong(Cause::WrongCall));
    }
    let value = match call_found(
        machine,
        store,
        host,
        scene,
        room - 1,
        Some(HeldCallee::Own(fun)),
        list,
    ) {
        Ok(value) => value,
        Err(halt) => return Err(halt),
    };
    Ok(retyped(pointed, value))
}
