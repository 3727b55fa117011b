//! What things are in the crate, by what is kept of them. Each maker is refused only for want of memory.

ghost use Rattle.std.specs.Prelude.{◌≡◌, [], IfOk};
ghost use Rattle.cx_core.specs.Views.{view_type};
ghost use Rattle.lift_exprs.specs.Names.{type_in, kept_or, field_in};
ghost use Rattle.lift_exprs.specs.Objects.{object_at};
ghost use Rattle.lift_exprs.specs.Written.{temporary_place, temporary_value};
ghost use Rattle.lift_stores.specs.Names.{lift_names, kept_object, name_or_none, thing_name};
ghost use Rattle.rs_items.specs.Known.{view_known, view_names};
ghost use Rattle.rs_text.specs.Tree as tree;
ghost use Rattle.rs_tree.specs.Views.{ty_view, place_view, expr_view};

use cr_base::{Boxed, Memory, Name};
use cx_core::Ty;
use lift_forms_code::object_place;
use rs_items::{Known, NameMap, Named, rust_type};
use rs_makers::{local, read, static_object};
use rs_tree::{RExpr, RPath, RPlace, RTy};
use std::alloc::Global;

/// The Rust type of a type.
pub fn type_in(alloc: Global, names: &NameMap, ty: &Ty) -> Result<Boxed<RTy>, Memory>
    ensures { IfOk result (λ made. ty_view made ≡ type_in (lift_names (view_names names.now)) (view_type ty.now)) }
{
    rust_type(alloc, ty, names)
}

// A name that says nothing.
fn no_name(alloc: Global) -> Name
    ensures { result ≡ [] }
{
    Name::of(Vec::new(alloc))
}

// The name of a temporary: each that an expression takes is kept.
fn temporary_name(alloc: Global, names: &NameMap, number: u32) -> Result<Name, Memory>
    ensures { IfOk result (λ name. name ≡ (lift_names (view_names names.now)).temporary number) }
{
    match names.known(Named::Temporary(number)) {
        Some(one) => one.name.copy(),
        None => Ok(no_name(alloc)),
    }
}

/// The place of a temporary.
pub fn temporary_place(alloc: Global, names: &NameMap, number: u32) -> Result<Boxed<RPlace>, Memory>
    ensures { IfOk result (λ made. place_view made ≡ temporary_place (lift_names (view_names names.now)) number) }
{
    let name = temporary_name(alloc, names, number)?;
    local(alloc, name)
}

/// The value of a temporary.
pub fn temporary_value(alloc: Global, names: &NameMap, number: u32) -> Result<Boxed<RExpr>, Memory>
    ensures { IfOk result (λ made. expr_view made ≡ temporary_value (lift_names (view_names names.now)) number) }
{
    let place = temporary_place(alloc, names, number)?;
    read(alloc, place)
}

// A static object, by the path of its item.
fn static_place(alloc: Global, home: &Name, name: &Name) -> Result<Boxed<RPlace>, Memory>
    ensures { IfOk result (λ made. place_view made ≡ tree.Static home.now name.now) }
{
    let home = home.copy()?;
    let name = name.copy()?;
    static_object(alloc, RPath { home, name })
}

fn local_place(alloc: Global, name: &Name) -> Result<Boxed<RPlace>, Memory>
    ensures { IfOk result (λ made. place_view made ≡ tree.Local name.now) }
{
    let name = name.copy()?;
    local(alloc, name)
}

// Where an object is kept.
fn place_of(alloc: Global, one: &Known) -> Result<Boxed<RPlace>, Memory>
    ensures { IfOk result (λ made. place_view made ≡ (kept_object (view_known one.now)).place) }
{
    match &one.module {
        Some(home) => static_place(alloc, home, &one.name),
        None => local_place(alloc, &one.name),
    }
}

// An object that isn't kept: no expression names one.
fn nowhere(alloc: Global) -> Result<Boxed<RPlace>, Memory>
    ensures { IfOk result (λ made. place_view made ≡ tree.Local []) }
{
    local(alloc, no_name(alloc))
}

/// An object by its number, as what has a type here.
pub fn object_at(
    alloc: Global,
    names: &NameMap,
    ty: &Ty,
    number: u32,
) -> Result<Boxed<RPlace>, Memory>
    ensures { IfOk result (λ made. place_view made ≡ object_at (lift_names (view_names names.now)) (view_type ty.now) number) }
{
    let here = type_in(alloc, names, ty)?;
    match names.known(Named::Object(number)) {
        Some(one) => {
            let place = place_of(alloc, one)?;
            object_place(alloc, place, &one.ty, here.get())
        }
        None => {
            let place = nowhere(alloc)?;
            object_place(alloc, place, &RTy::Void, here.get())
        }
    }
}
