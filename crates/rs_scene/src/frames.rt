//! Lives of parameters and locals (the Rust Reference, "Functions").

ghost use Rattle.std.specs.Prelude.{◌≡◌, ◌++◌, map};
ghost use Rattle.rs_scene.specs.Frames.{frame_begins, without_blocks};
ghost use Rattle.rs_scene.specs.Scenes.{held_local};
ghost use Rattle.rs_machine.specs.Does.{end_of};
ghost use Rattle.rs_machine.specs.Steps.{StoreDoes};
ghost use Rattle.rs_mean.specs.Calls.{begin_locals, begin_params};
ghost use Rattle.rs_mean.specs.World.{pure, seq};
ghost use Rattle.rs_tree.specs.Views.{function_view, local_view, module_view};
ghost use Rattle.rs_layout.specs.Layouts.{ModulesAreAligned};
ghost use Rattle.rs_value.specs.Views.{typed_view};

use crate::scene::HeldLocal;
use cr_base::Items;
use mem_bytes::{Ptr, Store, Value};
use rs_layout::laid_of;
use rs_machine::{Halt, begin, end_block, store_at};
use rs_tree::{Function, Local, Module};
use rs_value::TypedValue;
use std::alloc::Global;

// Parameters begin, from the left, each with its argument, behind those that have begun.
fn begin_params<'t, S: Store>(
    store: &mut S,
    modules: &[Module],
    params: &'t [Local],
    list: &[TypedValue<'t>],
    begun: &mut Items<HeldLocal<'t>>,
) -> Result<(), Halt<'t>>
    requires { ModulesAreAligned (map module_view modules.now) }
    ensures { StoreDoes (seq (begin_params (map module_view modules.now) (map local_view params.now) (map typed_view list.now)) (λ others. pure (map held_local begun.old ++ others)))
        (end_of (λ _. map held_local begun.new) result)
        (S.memory store.old) (S.memory store.new) (S.limit store.old) (S.limit store.new) }
{
    let Some((param, others)) = params.split_first() else {
        return Ok(());
    };
    let Some((arg, others_given)) = list.split_first() else {
        return Ok(());
    };
    let block = match begin(store, laid_of(modules, param.ty.get())) {
        Ok(block) => block,
        Err(halt) => return Err(halt),
    };
    let at = Value::Object(Ptr { block, offset: 0 });
    if let Err(halt) = store_at(store, true, param.ty.get(), at, arg.value) {
        return Err(halt);
    }
    if let Err(_) = begun.push(HeldLocal { of: param, block }) {
        return Err(Halt::Memory);
    }
    begin_params(store, modules, others, others_given, begun)
}

// Locals begin, in their order, as zero bytes, behind those that have begun.
fn begin_locals<'t, S: Store>(
    store: &mut S,
    modules: &[Module],
    locals: &'t [Local],
    begun: &mut Items<HeldLocal<'t>>,
) -> Result<(), Halt<'t>>
    requires { ModulesAreAligned (map module_view modules.now) }
    ensures { StoreDoes (seq (begin_locals (map module_view modules.now) (map local_view locals.now)) (λ others. pure (map held_local begun.old ++ others)))
        (end_of (λ _. map held_local begun.new) result)
        (S.memory store.old) (S.memory store.new) (S.limit store.old) (S.limit store.new) }
{
    let Some((one, others)) = locals.split_first() else {
        return Ok(());
    };
    let block = match begin(store, laid_of(modules, one.ty.get())) {
        Ok(block) => block,
        Err(halt) => return Err(halt),
    };
    if let Err(_) = begun.push(HeldLocal { of: one, block }) {
        return Err(Halt::Memory);
    }
    begin_locals(store, modules, others, begun)
}

/// The parameters and locals of a called function begin.
pub fn begin_frame<'t, S: Store>(
    alloc: Global,
    store: &mut S,
    modules: &[Module],
    fun: &'t Function,
    list: &[TypedValue<'t>],
) -> Result<Items<HeldLocal<'t>>, Halt<'t>>
    requires { ModulesAreAligned (map module_view modules.now) }
    ensures { StoreDoes (frame_begins (map module_view modules.now) (function_view fun.now) (map typed_view list.now)) (end_of (map held_local) result)
        (S.memory store.old) (S.memory store.new) (S.limit store.old) (S.limit store.new) }
{
    let mut begun = Items::new(alloc);
    if let Err(halt) = begin_params(store, modules, fun.params.as_slice(), list, &mut begun) {
        return Err(halt);
    }
    if let Err(halt) = begin_locals(store, modules, fun.locals.as_slice(), &mut begun) {
        return Err(halt);
    }
    Ok(begun)
}

/// Parameters and locals end.
pub fn end_locals<S: Store>(store: &mut S, locals: &[HeldLocal<'_>])
    ensures blocks { S.memory store.new ≡ without_blocks (map held_local locals.now) (S.memory store.old) }
    ensures limit { S.limit store.new ≡ S.limit store.old }
{
    for one in locals {
        end_block(store, one.block);
    }
}
