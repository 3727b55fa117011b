//! Places (the Rust Reference, "Place expressions and value expressions").

ghost use Rattle.std.specs.Prelude.{◌≡◌, map};
ghost use Rattle.rs_scene.specs.Scenes.{IsScene, frame_view};
ghost use Rattle.rs_machine.specs.Does.{Does, end_of};
ghost use Rattle.rs_machine.specs.States.{state};
ghost use Rattle.rs_tree.specs.Views.{module_view};
ghost use Rattle.rs_mean.specs.Run.{run_expr, run_place, spot_of_field, spot_of_pointer};
ghost use Rattle.rs_mean.specs.World.{seq};
ghost use Rattle.rs_tree.specs.Views.{expr_view, place_view};
ghost use Rattle.rs_value.specs.Views.{spot_view};

use crate::exprs::expr;
use cr_base::Name;
use ext_calls::Host;
use mem_bytes::Store;
use rs_machine::{Halt, Machine};
use rs_scene::{Scene, field_spot, local_spot, static_spot, target_spot};
use rs_tree::{RExpr, RPlace};
use rs_value::ValueSpot;

/// The place that a tree names.
#[cycle(knot)]
pub(crate) fn place<'t, S: Store, H: Host>(
    machine: &mut Machine,
    store: &mut S,
    host: &mut H,
    scene: Scene<'t, '_>,
    room: u32,
    place: &'t RPlace,
) -> Result<ValueSpot<'t>, Halt<'t>>
    requires { IsScene scene }
    ensures { Does (run_place (frame_view scene.entry) (place_view place.now)) (end_of spot_view result)
        (state machine.old (S.memory store.old) (S.limit store.old) (H.state host.old)) (state machine.new (S.memory store.new) (S.limit store.new) (H.state host.new)) }
{
    if room == 0 {
        return Err(Halt::Memory);
    }
    match place {
        RPlace::Local(name) => local_spot(scene, name),
        RPlace::Static(path) => static_spot(scene, path),
        RPlace::Deref(operand) => deref(machine, store, host, scene, room - 1, operand.get()),
        RPlace::Field(of, name) => field(machine, store, host, scene, room - 1, of.get(), name),
    }
}

/// What a pointer points to.
#[cycle(knot)]
fn deref<'t, S: Store, H: Host>(
    machine: &mut Machine,
    store: &mut S,
    host: &mut H,
    scene: Scene<'t, '_>,
    room: u32,
    operand: &'t RExpr,
) -> Result<ValueSpot<'t>, Halt<'t>>
    requires { IsScene scene }
    ensures { Does (seq (run_expr (frame_view scene.entry) (expr_view operand.now)) (spot_of_pointer (map module_view scene.entry.modules.now))) (end_of spot_view result)
        (state machine.old (S.memory store.old) (S.limit store.old) (H.state host.old)) (state machine.new (S.memory store.new) (S.limit store.new) (H.state host.new)) }
{
    if room == 0 {
        return Err(Halt::Memory);
    }
    let pointer = match expr(machine, store, host, scene, room - 1, operand) {
        Ok(pointer) => pointer,
        Err(halt) => return Err(halt),
    };
    target_spot(store, scene.modules, pointer)
}

/// A field of a record.
#[cycle(knot)]
fn field<'t, S: Store, H: Host>(
    machine: &mut Machine,
    store: &mut S,
    host: &mut H,
    scene: Scene<'t, '_>,
    room: u32,
    of: &'t RPlace,
    name: &'t Name,
) -> Result<ValueSpot<'t>, Halt<'t>>
    requires { IsScene scene }
    ensures { Does (seq (run_place (frame_view scene.entry) (place_view of.now)) (spot_of_field (map module_view scene.entry.modules.now) name.now)) (end_of spot_view result)
        (state machine.old (S.memory store.old) (S.limit store.old) (H.state host.old)) (state machine.new (S.memory store.new) (S.limit store.new) (H.state host.new)) }
{
    if room == 0 {
        return Err(Halt::Memory);
    }
    let whole = match place(machine, store, host, scene, room - 1, of) {
        Ok(whole) => whole,
        Err(halt) => return Err(halt),
    };
    field_spot(store, scene.modules, name, whole)
}
