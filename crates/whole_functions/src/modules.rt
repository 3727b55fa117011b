//! Modules of their items. They are refused only for want of memory.

ghost use Rattle.std.specs.Prelude.{◌≡◌, ◌++◌, ◌∷◌, [], map, option_map, IfOk, OnOk};
ghost use Rattle.rs_text.specs.Tree as tree;
ghost use Rattle.rs_text.specs.Tree.{stmts};
ghost use Rattle.rs_tree.specs.Views.{item_view, module_view, stmt_view};
ghost use Rattle.whole_given.specs.Whole.{named};
ghost use Rattle.whole_items.specs.Items.{initialiser_tree};
ghost use Rattle.whole_names.specs.Kept.{module_of};
ghost use Rattle.whole_statics.specs.Outers.{list_of};

use cr_base::{Items, Memory, Name};
use rs_text::Attribute;
use rs_tree::{Function, Item, Module, RStmt};
use std::alloc::Global;
use whole_given::Whole;

/// The initialiser of a module, which does this.
pub fn initialiser_item(alloc: Global, statements: Items<RStmt>) -> Result<Item, Memory>
    ensures { IfOk result (λ item. item_view item ≡ tree.FunctionItem (initialiser_tree (stmts (map stmt_view statements)))) }
{
    let name = Vec::from_slice(alloc, b"run_static_initializers".as_slice())?;
    Ok(Item::Function(Function {
        attribute: Attribute::Mangled,
        name: Name::of(name),
        params: Items::new(alloc),
        result: None,
        locals: Items::new(alloc),
        body: statements,
    }))
}

// An item that may not be there, behind others.
fn put_option(one: Option<Item>, items: &mut Items<Item>) -> Result<(), Memory>
    ensures { OnOk result (map item_view items.new ≡ map item_view items.old ++ list_of (option_map item_view one)) }
{
    match one {
        None => Ok(()),
        Some(one) => items.push(one),
    }
}

// Functions, and the initialiser behind them.
fn with_initialiser(functions: Items<Item>, initialiser: Item) -> Result<Items<Item>, Memory>
    ensures { IfOk result (λ made. map item_view made ≡ map item_view functions ++ item_view initialiser ∷ []) }
{
    let mut items = functions;
    items.push(initialiser)?;
    Ok(items)
}

// Records, and static objects behind them.
fn with_statics(records: Items<Item>, statics: Items<Item>) -> Result<Items<Item>, Memory>
    ensures { IfOk result (λ made. map item_view made ≡ map item_view records ++ map item_view statics) }
{
    let mut items = records;
    items.append(statics)?;
    Ok(items)
}

/// The module of a unit: its records, static objects, external functions and functions, and last its initialiser.
pub fn module_with(
    whole: &Whole<'_>,
    unit: u32,
    records: Items<Item>,
    statics: Items<Item>,
    outers: Option<Item>,
    functions: Items<Item>,
    initialiser: Item,
) -> Result<Module, Memory>
    ensures { IfOk result (λ made. module_view made ≡ record {
      name = module_of (named whole.now) unit;
      items = map item_view records ++ (map item_view statics ++ (list_of (option_map item_view outers) ++ (map item_view functions ++ item_view initialiser ∷ [])));
    }) }
{
    let name = whole.module_of(unit)?;
    let last = with_initialiser(functions, initialiser)?;
    let mut items = with_statics(records, statics)?;
    put_option(outers, &mut items)?;
    items.append(last)?;
    Ok(Module { name, items })
}
