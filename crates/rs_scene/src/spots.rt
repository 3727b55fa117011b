//! Places of objects, of what pointers point to, and of fields (the Rust Reference, "Place expressions
//! and value expressions" and "Field access expressions").

ghost use Rattle.std.specs.Prelude.{◌≡◌, ◌<◌, IfSome, map, option_map, pos};
ghost use Rattle.rs_scene.specs.Scenes.{IsScene, frame_view, home_view};
ghost use Rattle.rs_machine.specs.Does.{Stays, end_of, found_end};
ghost use Rattle.rs_machine.specs.Steps.{LookDoes};
ghost use Rattle.rs_mean.specs.Calls as piece;
ghost use Rattle.rs_mean.specs.Run as run;
ghost use Rattle.rs_text.specs.Tree as tree;
ghost use Rattle.rs_tree.specs.Views.{module_view, ty_view};
ghost use Rattle.std.specs.Option.{option_copied};
ghost use Rattle.mem_bytes.specs.Memory.{live_block};
ghost use Rattle.mem_bytes.specs.Pointers.{moved};
ghost use Rattle.rs_scene.specs.Calls.{IsRecordOf};
ghost use Rattle.rs_scene.specs.Places.{IsTargetOf, in_state};
ghost use Rattle.rs_mean.specs.World.{cause_of_pointer, or_cause, or_fails};
ghost use Rattle.rs_layout.specs.Layouts.{IsFine, ModulesAreAligned};
ghost use Rattle.rs_layout.specs.Places.{place_view};
ghost use Rattle.rs_value.specs.Views.{seen_as, spot_view, typed_view, value_ty_view};

use crate::lookup::{local_home, static_home};
use crate::scene::{HeldHome, Scene};
use cr_base::{Int, Laid, Name};
use mem_bytes::{BlockState, Ptr, Store, Value, moved};
use rs_layout::{PlacedField, field_place, laid_at};
use rs_machine::Halt;
use rs_mean::Cause;
use rs_tree::{Module, RPath, RTy};
use rs_value::{TypedValue, ValueSpot, ValueTy, cause_of_pointer};

#[inline(always)]
fn settle_spot<'t>(found: Result<ValueSpot<'t>, Cause>) -> Result<ValueSpot<'t>, Halt<'t>>
    ensures { end_of spot_view result ≡ found_end (seen_as spot_view found.entry) }
{
    match found {
        Ok(value) => Ok(value),
        Err(why) => Err(Halt::Wrong(why)),
    }
}

#[inline(always)]
fn home_spot<'t>(home: Option<HeldHome<'t>>) -> Result<ValueSpot<'t>, Cause>
    ensures { run.spot_of_home (option_map home_view home.entry) ≡ or_fails (seen_as spot_view result) }
{
    match home {
        Some(home) => Ok(ValueSpot {
            ty: home.ty,
            at: Value::Object(Ptr {
                block: home.block,
                offset: 0,
            }),
            is_based: true,
        }),
        None => Err(Cause::WrongCall),
    }
}

#[inline(always)]
fn local_found<'t>(scene: Scene<'t, '_>, name: &Name) -> Result<ValueSpot<'t>, Cause>
    ensures { run.run_place (frame_view scene.entry) (tree.Local name.now) ≡ or_fails (seen_as spot_view result) }
{
    home_spot(local_home(scene.locals, name))
}

/// The place of a parameter or a local.
#[inline(always)]
pub fn local_spot<'t>(scene: Scene<'t, '_>, name: &Name) -> Result<ValueSpot<'t>, Halt<'t>>
    ensures { Stays (run.run_place (frame_view scene.entry) (tree.Local name.now)) (end_of spot_view result) }
{
    settle_spot(local_found(scene, name))
}

fn static_found<'t>(scene: Scene<'t, '_>, path: &RPath) -> Result<ValueSpot<'t>, Cause>
    requires { IsScene scene }
    ensures { run.run_place (frame_view scene.entry) (tree.Static path.now.home path.now.name) ≡ or_fails (seen_as spot_view result) }
{
    home_spot(static_home(scene.statics, path))
}

/// The place of a static object.
pub fn static_spot<'t>(scene: Scene<'t, '_>, path: &RPath) -> Result<ValueSpot<'t>, Halt<'t>>
    requires { IsScene scene }
    ensures { Stays (run.run_place (frame_view scene.entry) (tree.Static path.now.home path.now.name)) (end_of spot_view result) }
{
    settle_spot(static_found(scene, path))
}

// Whether what stands in a block, of which this is told, at an offset is aligned.
fn in_state(align: u64, offset: u64, state: Option<BlockState>) -> bool
    requires { 0 < align }
    ensures { result ≡ in_state align offset state }
{
    match state {
        Some(state) if state.live => offset % align == 0 && align <= state.align,
        _ => true,
    }
}

fn in_block<S: Store>(store: &S, align: u64, at: Ptr) -> bool
    requires { 0 < align }
    ensures { result ≡ piece.in_block align at.offset (live_block (S.memory store.now) at.block) }
{
    in_state(align, at.offset, store.state(at.block))
}

// Whether a value of a layout may stand where a pointer points to.
fn may_stand<S: Store>(store: &S, laid: Option<Laid>, at: Value) -> bool
    requires { IfSome laid IsFine }
    ensures { result ≡ piece.may_stand (S.memory store.now) laid at }
{
    let Some(laid) = laid else {
        return true;
    };
    match at {
        Value::Object(at) => in_block(store, laid.align, at),
        Value::Whole(_) | Value::Null | Value::Code(_) => true,
    }
}

// Whether what a pointer points to is aligned for its type, where that has fields.
fn is_base<S: Store>(store: &S, modules: &[Module], ty: &RTy, at: Value) -> bool
    requires { ModulesAreAligned (map module_view modules.now) }
    ensures { result ≡ run.is_base (map module_view modules.now) (S.memory store.now) (ty_view ty.now) at }
{
    match ty {
        RTy::Record(path) => may_stand(store, laid_at(modules, path), at),
        RTy::Integer(_)
        | RTy::Boolean
        | RTy::Void
        | RTy::Pointer(_)
        | RTy::Array(_, _)
        | RTy::Code(_, _) => true,
    }
}

fn target_of<'t>(ty: ValueTy<'t>) -> Option<&'t RTy>
    ensures { IsTargetOf (option_map ty_view (option_copied result)) (value_ty_view ty.entry) }
{
    match ty {
        ValueTy::Pointer(target) => Some(target),
        ValueTy::Integer(_)
        | ValueTy::Boolean
        | ValueTy::Void
        | ValueTy::Array(_, _)
        | ValueTy::Code(_, _)
        | ValueTy::Record(_) => None,
    }
}

/// What a pointer points to.
pub fn target_spot<'t, S: Store>(
    store: &S,
    modules: &[Module],
    pointer: TypedValue<'t>,
) -> Result<ValueSpot<'t>, Halt<'t>>
    requires { ModulesAreAligned (map module_view modules.now) }
    ensures { LookDoes (run.spot_of_pointer (map module_view modules.now) (typed_view pointer.entry)) (end_of spot_view result) (S.memory store.now) }
{
    let Some(ty) = target_of(pointer.ty) else {
        return Err(Halt::Wrong(Cause::WrongCall));
    };
    Ok(ValueSpot {
        ty,
        at: pointer.value,
        is_based: is_base(store, modules, ty, pointer.value),
    })
}

fn moved_spot<S: Store>(store: &S, at: Value, byte: u64) -> Result<Value, Cause>
    ensures { result ≡ or_cause cause_of_pointer (moved (S.memory store.now) at (pos byte)) }
{
    match moved(store, at, Int::from(byte)) {
        Ok(at) => Ok(at),
        Err(fault) => Err(cause_of_pointer(fault)),
    }
}

fn placed_spot<'t, S: Store>(
    store: &S,
    is_based: bool,
    at: Value,
    place: Option<PlacedField<'t>>,
) -> Result<ValueSpot<'t>, Halt<'t>>
    ensures { LookDoes (run.field_spot is_based at (option_map place_view place.entry)) (end_of spot_view result) (S.memory store.now) }
{
    let Some(place) = place else {
        return Err(Halt::Wrong(Cause::WrongCall));
    };
    match moved_spot(store, at, place.byte) {
        Ok(at) => Ok(ValueSpot {
            ty: place.ty,
            at,
            is_based,
        }),
        Err(why) => Err(Halt::Wrong(why)),
    }
}

fn record_of(ty: &RTy) -> Option<&RPath>
    ensures { IsRecordOf (option_copied result) (ty_view ty.now) }
{
    match ty {
        RTy::Record(path) => Some(path),
        _ => None,
    }
}

/// The field of a name: its place is inside the object, or at its end, and has the base of the whole.
pub fn field_spot<'t, S: Store>(
    store: &S,
    modules: &'t [Module],
    name: &Name,
    whole: ValueSpot<'t>,
) -> Result<ValueSpot<'t>, Halt<'t>>
    requires { ModulesAreAligned (map module_view modules.now) }
    ensures { LookDoes (run.spot_of_field (map module_view modules.now) name.now (spot_view whole.entry)) (end_of spot_view result) (S.memory store.now) }
{
    let Some(path) = record_of(whole.ty) else {
        return Err(Halt::Wrong(Cause::WrongCall));
    };
    match field_place(modules, path, name) {
        Ok(place) => placed_spot(store, whole.is_based, whole.at, place),
        Err(_) => Err(Halt::Memory),
    }
}
