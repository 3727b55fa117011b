ghost use Rattle.std.specs.Prelude.{◌≡◌, [], ◌∷◌, ◌++◌, map, codes, IfOk};
ghost use Rattle.straight_core.specs.Views.{view_object, view_program, view_stmt};
ghost use Rattle.straight_whole.specs.Coded.{known_object, known_outer, AreNames, IsTableOf};
ghost use Rattle.straight_whole.specs.Items.{name_or_empty};
ghost use Rattle.straight_whole.specs.Named.{module_names};

use cr_base::{Items, Memory, Name};
use std::alloc::Global;
use straight_core::{CoreObject, CoreStmt, Outer, Program};
use straight_items::Temporaries;
use straight_lift::{Known, NameTable, lift_stmt};

// The names of a program's module and of the temporaries of a body. The numbers of temporaries don't depend on
// names, so the body is lifted once to count them.
pub(crate) fn name_table(
    alloc: Global,
    program: &Program,
    home: Name,
    body: &CoreStmt,
) -> Result<NameTable, Memory>
    ensures { IfOk result (λ table. IsTableOf program.now home (view_stmt body.now) table) }
{
    let mut table = NameTable {
        home,
        objects: known_objects(alloc, program.objects())?,
        functions: known_outers(alloc, program.externals())?,
        temporaries: Items::new(alloc),
    };
    let count = lift_stmt(alloc, body, &table, 0)?.next;
    let taken = taken_names(alloc, program)?;
    table.temporaries = temporary_names(alloc, taken, count)?;
    Ok(table)
}

fn known_objects(alloc: Global, objects: &[CoreObject]) -> Result<Items<Known>, Memory>
    ensures { IfOk result (λ made. made ≡ map known_object objects.now) }
{
    let mut made = Items::new(alloc);
    for one in objects {
        let name = name_of(alloc, &one.name)?;
        made.push(Known {
            number: one.object,
            name,
        })?;
    }
    Ok(made)
}

fn known_outers(alloc: Global, externals: &[Outer]) -> Result<Items<Known>, Memory>
    ensures { IfOk result (λ made. made ≡ map known_outer externals.now) }
{
    let mut made = Items::new(alloc);
    for one in externals {
        let name = one.name.copy()?;
        made.push(Known {
            number: one.function,
            name,
        })?;
    }
    Ok(made)
}

// The name of an object; an object of a literal has none.
pub(crate) fn name_of(alloc: Global, name: &Option<Name>) -> Result<Name, Memory>
    ensures { IfOk result (λ copy. copy ≡ name_or_empty name.now) }
{
    match name {
        None => Ok(Name::of(Vec::new(alloc))),
        Some(name) => name.copy(),
    }
}

// A name of the crate's own.
pub(crate) fn own_name(alloc: Global, text: &[u8]) -> Result<Name, Memory>
    ensures { IfOk result (λ name. name ≡ text.now) }
{
    Ok(Name::of(Vec::from_slice(alloc, text)?))
}

// The names in the module of a program.
fn taken_names(alloc: Global, program: &Program) -> Result<Items<Name>, Memory>
    ensures { IfOk result (λ made. made ≡ module_names (view_program program.now)) }
{
    let mut taken = object_names(alloc, program.objects())?;
    taken.append(outer_names(alloc, program.externals())?)?;
    taken.push(own_name(alloc, b"main_0")?)?;
    taken.push(own_name(alloc, b"run_static_initializers")?)?;
    Ok(taken)
}

fn object_names(alloc: Global, objects: &[CoreObject]) -> Result<Items<Name>, Memory>
    ensures { IfOk result (λ made. made ≡ map (λ one. name_or_empty one.name) (map view_object objects.now)) }
{
    let mut made = Items::new(alloc);
    for one in objects {
        made.push(name_of(alloc, &one.name)?)?;
    }
    Ok(made)
}

fn outer_names(alloc: Global, externals: &[Outer]) -> Result<Items<Name>, Memory>
    ensures { IfOk result (λ made. made ≡ map (λ one. one.name) externals.now) }
{
    let mut made = Items::new(alloc);
    for one in externals {
        made.push(one.name.copy()?)?;
    }
    Ok(made)
}

// The names of so many temporaries, beside names that are taken.
fn temporary_names(alloc: Global, taken: Items<Name>, count: u32) -> Result<Items<Name>, Memory>
    ensures { IfOk result (λ names. AreNames taken count names) }
{
    let mut temporaries = Temporaries::new(alloc, taken);
    for _number in 0..count {
        temporaries.fresh()?;
    }
    copies(alloc, temporaries.names())
}

fn copies(alloc: Global, names: &[Name]) -> Result<Items<Name>, Memory>
    ensures { IfOk result (λ made. made ≡ names.now) }
{
    let mut made = Items::new(alloc);
    for name in names {
        made.push(name.copy()?)?;
    }
    Ok(made)
}
