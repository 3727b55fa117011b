ghost use Rattle.std.specs.Prelude.{◌≡◌, [], ◌∷◌, ◌++◌, map, IfOk};
ghost use Rattle.straight_core.specs.Views.{view_object, view_put, view_stmt, view_expr};
ghost use Rattle.straight_lift.specs.Coded.{names_of};
ghost use Rattle.straight_rust_tree.specs.View.{item_view, local_view, outer_view, stmt_view, function_view};
ghost use Rattle.straight_whole.specs.Coded.{object_stores, stores_of, main_with, initialiser_with, extern_block};
ghost use Rattle.straight_whole.specs.CrateOf.{static_of, local_of, store_in, value_of};

use crate::tables::{name_of, own_name};
use cr_base::{Int, Items, Memory, Name};
use std::alloc::Global;
use straight_core::{CoreExpr, CoreObject, CoreStmt, Form, Put};
use straight_lift::{NameTable, lift_stmt, object_place};
use straight_rust_tree::{Attribute, Function, Item, Local, Outer, RExpr, RStmt, RTy, Static};

// The static objects of a module.
pub(crate) fn statics(alloc: Global, objects: &[CoreObject]) -> Result<Items<Item>, Memory>
    ensures { IfOk result (λ made. map item_view made ≡ map static_of (map view_object objects.now)) }
{
    let mut made = Items::new(alloc);
    for one in objects {
        let name = name_of(alloc, &one.name)?;
        made.push(Item::Static(Static {
            attribute: Attribute::NoMangle,
            name,
            ty: RTy::I32,
        }))?;
    }
    Ok(made)
}

// The block of external functions, where there are some.
pub(crate) fn extern_block(alloc: Global, outers: Items<Outer>) -> Result<Items<Item>, Memory>
    ensures { IfOk result (λ made. map item_view made ≡ extern_block (map outer_view outers)) }
{
    let mut made = Items::new(alloc);
    if !outers.is_empty() {
        made.push(Item::Extern(outers))?;
    }
    Ok(made)
}

// `main_0`, whose body is what is written for the body of `main`.
pub(crate) fn main_function(
    alloc: Global,
    names: &NameTable,
    body: &CoreStmt,
) -> Result<Function, Memory>
    ensures { IfOk result (λ made. function_view made ≡ main_with (names_of names.now) names.now.temporaries (view_stmt body.now)) }
{
    let written = lift_stmt(alloc, body, names, 0)?;
    let locals = locals(alloc, names.temporaries.as_slice())?;
    let name = own_name(alloc, b"main_0")?;
    Ok(Function {
        attribute: Attribute::Mangled,
        name,
        params: Items::new(alloc),
        result: Some(RTy::I32),
        locals,
        body: written.stmts,
    })
}

// A local of type `i32` for each temporary.
fn locals(alloc: Global, names: &[Name]) -> Result<Items<Local>, Memory>
    ensures { IfOk result (λ made. map local_view made ≡ map local_of names.now) }
{
    let mut made = Items::new(alloc);
    for name in names {
        let name = name.copy()?;
        made.push(Local { name, ty: RTy::I32 })?;
    }
    Ok(made)
}

// `run_static_initializers`, which stores the values that are put in static objects before the program begins.
pub(crate) fn initialiser(
    alloc: Global,
    names: &NameTable,
    objects: &[CoreObject],
) -> Result<Function, Memory>
    ensures { IfOk result (λ made. function_view made ≡ initialiser_with (names_of names.now) (map view_object objects.now)) }
{
    let body = stores(alloc, names, objects)?;
    let name = own_name(alloc, b"run_static_initializers")?;
    Ok(Function {
        attribute: Attribute::Mangled,
        name,
        params: Items::new(alloc),
        result: None,
        locals: Items::new(alloc),
        body,
    })
}

fn stores(alloc: Global, names: &NameTable, objects: &[CoreObject]) -> Result<Items<RStmt>, Memory>
    ensures { IfOk result (λ made. map stmt_view made ≡ stores_of (names_of names.now) (map view_object objects.now)) }
{
    let mut made = Items::new(alloc);
    for one in objects {
        made.append(object_stores(alloc, names, one)?)?;
    }
    Ok(made)
}

fn object_stores(alloc: Global, names: &NameTable, one: &CoreObject) -> Result<Items<RStmt>, Memory>
    ensures { IfOk result (λ made. map stmt_view made ≡ object_stores (names_of names.now) one.now.object (view_object one.now).puts) }
{
    match &one.puts {
        None => Ok(Items::new(alloc)),
        Some(puts) => put_stores(alloc, names, one.object, puts.as_slice()),
    }
}

fn put_stores(
    alloc: Global,
    names: &NameTable,
    object: u32,
    puts: &[Put],
) -> Result<Items<RStmt>, Memory>
    ensures { IfOk result (λ made. map stmt_view made ≡ map (store_in (names_of names.now) object) (map view_put puts.now)) }
{
    let mut made = Items::new(alloc);
    for put in puts {
        made.push(store(alloc, names, object, put)?)?;
    }
    Ok(made)
}

// The store of a constant in a static object.
fn store(alloc: Global, names: &NameTable, object: u32, put: &Put) -> Result<RStmt, Memory>
    ensures { IfOk result (λ made. stmt_view made ≡ store_in (names_of names.now) object (view_put put.now)) }
{
    let place = object_place(alloc, names, object)?;
    let value = RExpr::Literal(value_of(&put.value), RTy::I32);
    Ok(RStmt::Assign(place, value))
}

// The value of a constant.
fn value_of(value: &CoreExpr) -> Int
    ensures { result ≡ value_of (view_expr value.now) }
{
    match &value.form {
        Form::Whole(number) => *number,
        _ => 0,
    }
}
