//! Lives of static objects (the Rust Reference, "Static items").

ghost use Rattle.std.specs.Prelude.{◌≡◌, map};
ghost use Rattle.cr_base.specs.Scalar.{converted};
ghost use Rattle.mem_bytes.specs.declared.value.Value.TheVariants as value;
ghost use Rattle.rs_layout.specs.Layouts.{ModulesAreAligned};
ghost use Rattle.rs_machine.specs.Does.{end_of};
ghost use Rattle.rs_machine.specs.Steps.{StoreDoes};
ghost use Rattle.rs_mean.specs.Calls as piece;
ghost use Rattle.rs_mean.specs.Scalars.{integer_scalar};
ghost use Rattle.rs_mean.specs.World.{seq};
ghost use Rattle.rs_scene.specs.Scenes.{held_static};
ghost use Rattle.rs_text.specs.Tree as tree;
ghost use Rattle.rs_text.specs.declared.integer.IntegerTy.TheVariants as integer;
ghost use Rattle.rs_tree.specs.Views.{module_view, static_view};

use cr_base::Int;
use mem_bytes::{Ptr, Store, Value};
use rs_layout::laid_of;
use rs_machine::{Halt, begin, store_at};
use rs_scene::HeldStatic;
use rs_tree::{IntegerTy, Module, RTy, Static};
use rs_value::converted_to;

// A literal is stored as a byte at a place.
fn store_literal<'t, S: Store>(
    store: &mut S,
    block: u64,
    offset: u64,
    literal: &Int,
) -> Result<(), Halt<'t>>
    ensures { StoreDoes (piece.store (piece.spot (tree.Integer integer.I8) (value.Object (record { block = block; offset = offset }))) (value.Whole (converted (integer_scalar integer.I8) literal.now)))
        (end_of (λ _. tt) result) (S.memory store.old) (S.memory store.new) (S.limit store.old) (S.limit store.new) }
{
    let byte = RTy::Integer(IntegerTy::I8);
    let number = Value::Whole(converted_to(IntegerTy::I8, *literal));
    let at = Value::Object(Ptr { block, offset });
    store_at(store, true, &byte, at, number)
}

// Literals are stored side by side, from the first byte of a block on.
fn store_literals<'t, S: Store>(store: &mut S, block: u64, literals: &[Int]) -> Result<(), Halt<'t>>
    ensures { StoreDoes (piece.store_literals block 0 literals.now) (end_of (λ _. tt) result)
        (S.memory store.old) (S.memory store.new) (S.limit store.old) (S.limit store.new) }
{
    let mut offset: u64 = 0;
    for literal in literals {
        if let Err(halt) = store_literal(store, block, offset, literal) {
            return Err(halt);
        }
        let Some(next) = offset.checked_add(1) else {
            return Err(Halt::Memory);
        };
        offset = next;
    }
    Ok(())
}

fn literals_of(object: &Static) -> &[Int]
    ensures { result.now ≡ piece.literals_of object.now.values }
{
    match &object.values {
        Some(values) => values.as_slice(),
        None => &[],
    }
}

// A static object begins, with its literals.
fn begin_static<'t, S: Store>(
    store: &mut S,
    modules: &'t [Module],
    object: &'t Static,
) -> Result<(), Halt<'t>>
    requires { ModulesAreAligned (map module_view modules.now) }
    ensures { StoreDoes (seq (piece.begins_object (map module_view modules.now) (static_view object.now).ty) (λ at. piece.store_literals at.block 0 (piece.literals_of object.now.values))) (end_of (λ _. tt) result)
        (S.memory store.old) (S.memory store.new) (S.limit store.old) (S.limit store.new) }
{
    let block = match begin(store, laid_of(modules, object.ty.get())) {
        Ok(block) => block,
        Err(halt) => return Err(halt),
    };
    store_literals(store, block, literals_of(object))
}

/// The static objects of a crate begin, in its order.
pub(crate) fn begin_statics<'t, S: Store>(
    store: &mut S,
    modules: &'t [Module],
    statics: &[HeldStatic<'t>],
) -> Result<(), Halt<'t>>
    requires { ModulesAreAligned (map module_view modules.now) }
    ensures { StoreDoes (piece.begin_statics (map module_view modules.now) (map held_static statics.now)) (end_of (λ _. tt) result)
        (S.memory store.old) (S.memory store.new) (S.limit store.old) (S.limit store.new) }
{
    for one in statics {
        if let Err(halt) = begin_static(store, modules, one.object) {
            return Err(halt);
        }
    }
    Ok(())
}
