//! `main.rs`: the static objects begin, then come the initialisers of the modules, then `main_0` of the
//! entry, which gives the status.

ghost use Rattle.std.specs.Prelude.{◌≡◌, map, option_map, slice_get};
ghost use Rattle.std.specs.Option.{option_copied};
ghost use Rattle.rs_machine.specs.Does.{Does, Stays, end_of, stopped_by, stops};
ghost use Rattle.rs_machine.specs.States.{state};
ghost use Rattle.rs_mean.specs.Laws.{bodies_of};
ghost use Rattle.rs_mean.specs.Run as run;
ghost use Rattle.rs_scene.specs.Scenes.{IsScene};
ghost use Rattle.rs_tree.specs.Views.{module_view};
ghost use Rattle.rs_value.specs.Views.{typed_view};

use crate::begins::begin_statics;
use ext_calls::Host;
use mem_bytes::{Store, Value};
use rs_bodies::call_found;
use rs_layout::callee_among;
use rs_machine::{Halt, Machine, ended};
use rs_mean::Cause;
use rs_scene::Scene;
use rs_tree::Module;
use rs_value::TypedValue;

// A call of a function of a module, without arguments.
fn call_in<'t, S: Store, H: Host>(
    machine: &mut Machine,
    store: &mut S,
    host: &mut H,
    scene: Scene<'t, '_>,
    room: u32,
    unit: &'t Module,
    name: &[u8],
) -> Result<Option<TypedValue<'t>>, Halt<'t>>
    requires { IsScene scene }
    ensures { Does (run.call_in (bodies_of (map module_view scene.entry.modules.now)) (module_view unit.now) name.now) (end_of (option_map typed_view) result)
        (state machine.old (S.memory store.old) (S.limit store.old) (H.state host.old)) (state machine.new (S.memory store.new) (S.limit store.new) (H.state host.new)) }
{
    let callee = callee_among(unit.items.as_slice(), name);
    call_found(machine, store, host, scene, room, callee, &[])
}

// The initialisers of modules, in order.
fn initialisers<'t, S: Store, H: Host>(
    machine: &mut Machine,
    store: &mut S,
    host: &mut H,
    scene: Scene<'t, '_>,
    room: u32,
    modules: &'t [Module],
) -> Result<(), Halt<'t>>
    requires { IsScene scene }
    ensures { Does (run.run_initialisers (bodies_of (map module_view scene.entry.modules.now)) (map module_view modules.now)) (end_of (λ _. tt) result)
        (state machine.old (S.memory store.old) (S.limit store.old) (H.state host.old)) (state machine.new (S.memory store.new) (S.limit store.new) (H.state host.new)) }
{
    for unit in modules {
        let name = b"run_static_initializers";
        if let Err(halt) = call_in(machine, store, host, scene, room, unit, name) {
            return Err(halt);
        }
    }
    Ok(())
}

fn module_with(modules: &[Module], number: u32) -> Option<&Module>
    ensures { option_map module_view (option_copied result) ≡ slice_get (map module_view modules.now) number }
{
    match modules.get(number as usize) {
        Some(unit) => Some(unit),
        None => None,
    }
}

// `main_0` of the entry.
fn entry<'t, S: Store, H: Host>(
    machine: &mut Machine,
    store: &mut S,
    host: &mut H,
    scene: Scene<'t, '_>,
    room: u32,
    unit: Option<&'t Module>,
) -> Result<Option<TypedValue<'t>>, Halt<'t>>
    requires { IsScene scene }
    ensures { Does (run.run_entry (bodies_of (map module_view scene.entry.modules.now)) (option_map module_view (option_copied unit.entry))) (end_of (option_map typed_view) result)
        (state machine.old (S.memory store.old) (S.limit store.old) (H.state host.old)) (state machine.new (S.memory store.new) (S.limit store.new) (H.state host.new)) }
{
    match unit {
        Some(unit) => call_in(machine, store, host, scene, room, unit, b"main_0"),
        None => Err(Halt::Wrong(Cause::WrongCall)),
    }
}

// `std::process::exit` of what `main_0` gives.
fn exits<'t>(given: Option<TypedValue<'t>>) -> Halt<'t>
    ensures { Stays (run.exits (option_map typed_view given.entry)) (stops (stopped_by result)) }
{
    match given {
        Some(given) => exits_with(given.value),
        None => Halt::Wrong(Cause::WrongCall),
    }
}

fn exits_with<'t>(value: Value) -> Halt<'t>
    ensures { Stays (run.exits_with value) (stops (stopped_by result)) }
{
    match value {
        Value::Whole(status) => ended(&status),
        Value::Null => Halt::Wrong(Cause::WrongCall),
        Value::Object(_) => Halt::Wrong(Cause::WrongCall),
        Value::Code(_) => Halt::Wrong(Cause::WrongCall),
    }
}

/// The run of a crate, up to where it goes no further.
pub(crate) fn main_run<'t, S: Store, H: Host>(
    machine: &mut Machine,
    store: &mut S,
    host: &mut H,
    scene: Scene<'t, '_>,
    room: u32,
    number: u32,
) -> Halt<'t>
    requires { IsScene scene }
    ensures { Does (run.run_main (record { modules = map module_view scene.entry.modules.now; entry = number }) (bodies_of (map module_view scene.entry.modules.now))) (stops (stopped_by result))
        (state machine.old (S.memory store.old) (S.limit store.old) (H.state host.old)) (state machine.new (S.memory store.new) (S.limit store.new) (H.state host.new)) }
{
    if let Err(halt) = begin_statics(store, scene.modules, scene.statics) {
        return halt;
    }
    if let Err(halt) = initialisers(machine, store, host, scene, room, scene.modules) {
        return halt;
    }
    let unit = module_with(scene.modules, number);
    match entry(machine, store, host, scene, room, unit) {
        Ok(given) => exits(given),
        Err(halt) => halt,
    }
}
