//! Where fields begin, by their names (the Rust Reference, "Field access expressions").

ghost use Rattle.std.specs.Prelude.{◌≡◌, Some, map, option_map, IfOk};
ghost use Rattle.cr_base.specs.Layout.{no_front};
ghost use Rattle.rs_mean.specs.Layout.{field_at, field_behind, field_of, laid_of, placed};
ghost use Rattle.rs_tree.specs.Views.{field_view, module_view, record_view};
ghost use Rattle.rs_layout.specs.Layouts.{ModulesAreAligned, IsFineFront};
ghost use Rattle.rs_layout.specs.Places.{place_view};

use crate::layout::{byte_behind, front_behind, laid_of};
use crate::lookup::record_at;
use cr_base::{Front, Memory, Name};
use rs_tree::{Field, Module, RPath, RTy, Record};

/// The type of a field, and the byte at which it begins in its record.
#[derive(Clone, Copy)]
pub struct PlacedField<'t> {
    pub ty: &'t RTy,
    pub byte: u64,
}

// The place of a field behind those in front of it.
fn placed<'t>(modules: &[Module], front: Front, field: &'t Field) -> Option<PlacedField<'t>>
    requires modules { ModulesAreAligned (map module_view modules.now) }
    requires front { IsFineFront front }
    ensures { option_map place_view result
        ≡ placed (laid_of (map module_view modules.now) (field_view field.now).ty) front (field_view field.now) }
{
    match laid_of(modules, field.ty.get()) {
        Some(one) => Some(PlacedField {
            ty: field.ty.get(),
            byte: byte_behind(front, one),
        }),
        None => None,
    }
}

// The place of the field of a name among fields.
fn place_among<'t>(
    modules: &[Module],
    is_union: bool,
    fields: &'t [Field],
    name: &Name,
) -> Result<Option<PlacedField<'t>>, Memory>
    requires { ModulesAreAligned (map module_view modules.now) }
    ensures { IfOk result (λ found. option_map place_view found
        ≡ field_behind (laid_of (map module_view modules.now)) name.now (Some (no_front is_union)) (map field_view fields.now)) }
{
    let mut front = Front::new(is_union);
    for field in fields {
        if field.name.bytes() == name.bytes() {
            return Ok(placed(modules, front, field));
        }
        let Some(one) = laid_of(modules, field.ty.get()) else {
            return Err(Memory);
        };
        let Some(next) = front_behind(front, one) else {
            return Err(Memory);
        };
        front = next;
    }
    Ok(None)
}

fn place_in<'t>(
    modules: &[Module],
    one: &'t Record,
    name: &Name,
) -> Result<Option<PlacedField<'t>>, Memory>
    requires { ModulesAreAligned (map module_view modules.now) }
    ensures { IfOk result (λ found. option_map place_view found
        ≡ field_of (map module_view modules.now) name.now (Some (record_view one.now))) }
{
    place_among(modules, one.is_union, one.fields.as_slice(), name)
}

/// The place of a field in the record that a path names, or None where there is no such field. In a crate
/// that is valid and well typed no record is too large for it.
///
/// # Errors
///
/// `Memory` where a field in front of it isn't laid out, or these are larger together than an object may be.
pub fn field_place<'t>(
    modules: &'t [Module],
    path: &RPath,
    name: &Name,
) -> Result<Option<PlacedField<'t>>, Memory>
    requires { ModulesAreAligned (map module_view modules.now) }
    ensures { IfOk result (λ found. option_map place_view found
        ≡ field_at (map module_view modules.now) path.now.home path.now.name name.now) }
{
    match record_at(modules, path) {
        Some(one) => place_in(modules, one, name),
        None => Ok(None),
    }
}
