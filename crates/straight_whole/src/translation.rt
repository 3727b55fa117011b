ghost use Rattle.std.specs.Prelude.{◌≡◌, [], ◌∷◌, map, IfOk};
ghost use Rattle.straight_core.specs.Views.{view_program, view_stmt};
ghost use Rattle.straight_lift.specs.Coded.{names_of};
ghost use Rattle.straight_rust_tree.specs.View.{crate_view, item_view};
ghost use Rattle.straight_whole.specs.Coded.{module_items};
ghost use Rattle.straight_whole.specs.Right.{IsTranslatable, IsRight};

use crate::items::{extern_block, initialiser, main_function, statics};
use crate::outers::called_outers;
use crate::tables::name_table;
use cr_base::{Items, Memory, Name};
use std::alloc::Global;
use straight_core::{CoreStmt, Program};
use straight_lift::NameTable;
use straight_rust_tree::{Crate, Item, Module};

/// The crate of a program, whose one module has this name. It is well typed, has the program's items, and
/// behaves as the program. Refused only for want of memory.
pub fn translate(alloc: Global, program: &Program, name: Name) -> Result<Crate, Memory>
    requires { IsTranslatable (view_program program.now) name }
    ensures right { IfOk result (λ made. IsRight (view_program program.now) (name ∷ []) (crate_view made)) }
{
    // A program that is translated today has the function `main` alone.
    let Some(main) = program.functions().first() else {
        return Err(Memory);
    };
    let home = name.copy()?;
    let names = name_table(alloc, program, home, &main.body)?;
    let items = items_of(alloc, program, &names, &main.body)?;
    let mut modules = Items::new(alloc);
    modules.push(Module { name, items })?;
    Ok(Crate { modules, entry: 0 })
}

// The items of the one module: the static objects, the external functions that are called, `main_0` and the
// initialiser.
fn items_of(
    alloc: Global,
    program: &Program,
    names: &NameTable,
    body: &CoreStmt,
) -> Result<Items<Item>, Memory>
    ensures { IfOk result (λ made. map item_view made ≡ module_items (view_program program.now) (names_of names.now) names.now.temporaries (view_stmt body.now)) }
{
    let mut items = statics(alloc, program.objects())?;
    let outers = called_outers(alloc, program.externals(), body)?;
    items.append(extern_block(alloc, outers)?)?;
    items.push(Item::Function(main_function(alloc, names, body)?))?;
    items.push(Item::Function(initialiser(alloc, names, program.objects())?))?;
    Ok(items)
}
