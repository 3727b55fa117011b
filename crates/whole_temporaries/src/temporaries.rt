//! The temporaries of a function.

ghost use Rattle.std.specs.Prelude.{◌≡◌, ◌++◌, map, IfOk, OnOk};
ghost use Rattle.build_flow_nodes.specs.Parts as parts;
ghost use Rattle.cx_core.specs.Trees.{CFun};
ghost use Rattle.cx_core.specs.Views.{view_stmt};
ghost use Rattle.lift_exprs.specs.Names as spec;
ghost use Rattle.rs_tree.specs.Views.{ty_view};
ghost use Rattle.whole_bodies.specs.Names as bodies;
ghost use Rattle.whole_names.specs.Kept.{NamedProgram};
ghost use Rattle.whole_temporaries.specs.Types.{all_types, names_of, type_among, AreFor};

use crate::held::stmt_types;
use crate::types::rust_type;
use crate::zeroed::{Program, stmt_zeroed};
use cr_base::{Items, Memory};
use cx_core::{CoreObject, CoreStmt};
use rs_items::NameMap;
use rs_tree::RTy;
use std::alloc::Global;

/// The types of the temporaries of held operands of a body, in the order of the text, by the names of its module outside of functions. Refused only for want of memory.
pub fn held_in_body(alloc: Global, names: &NameMap, body: &CoreStmt) -> Result<Items<RTy>, Memory>
    ensures { IfOk result (λ made. map ty_view made ≡ parts.temporaries_in_stmt (names_of names.now) (view_stmt body.now)) }
{
    let mut types = Items::new(alloc);
    stmt_types(alloc, body, names, &mut types)?;
    Ok(types)
}

/// The objects of a body to which zero bytes are copied, in the order of the text. Refused only for want of memory.
pub fn zeroed_objects(
    alloc: Global,
    names: &NameMap,
    objects: &[CoreObject],
    body: &CoreStmt,
) -> Result<Items<u32>, Memory>
    ensures text { IfOk result (λ made. made ≡ parts.zeroed_in (names_of names.now) (type_among objects.now) (view_stmt body.now)) }
    ensures written { IfOk result (λ made. (program : NamedProgram) (fun : CFun) → AreFor program fun (names_of names.now) (type_among objects.now) (view_stmt body.now) →
        made ≡ bodies.zeroed_objects program fun) }
{
    let mut zeroed = Items::new(alloc);
    let of = Program { names, objects };
    stmt_zeroed(alloc, body, &of, &mut zeroed)?;
    Ok(zeroed)
}

// The types of objects, behind others.
fn push_types(
    alloc: Global,
    names: &NameMap,
    objects: &[CoreObject],
    numbers: &[u32],
    types: &mut Items<RTy>,
) -> Result<(), Memory>
    ensures { OnOk result (map ty_view types.new ≡ map ty_view types.old ++ map (λ number. spec.type_in (names_of names.now) (type_among objects.now number)) numbers.now) }
{
    for number in numbers {
        let ty = rust_type(alloc, names, objects, *number)?;
        types.push(ty.into_inner())?;
    }
    Ok(())
}

/// The types of the temporaries of a function: those of held operands, and then those from which zero bytes are copied to objects, by the names of its module outside of
/// functions. Refused only for want of memory.
pub fn temporaries_of(
    alloc: Global,
    names: &NameMap,
    objects: &[CoreObject],
    body: &CoreStmt,
) -> Result<Items<RTy>, Memory>
    ensures text { IfOk result (λ made. map ty_view made ≡ all_types (names_of names.now) (type_among objects.now) (view_stmt body.now)) }
    ensures written { IfOk result (λ made. (program : NamedProgram) (fun : CFun) → AreFor program fun (names_of names.now) (type_among objects.now) (view_stmt body.now) →
        map ty_view made ≡ bodies.temporaries_of program fun) }
{
    let mut types = held_in_body(alloc, names, body)?;
    let zeroed = zeroed_objects(alloc, names, objects, body)?;
    push_types(alloc, names, objects, zeroed.as_slice(), &mut types)?;
    Ok(types)
}
