//! External functions (ISO C99, 6.2.2, 6.5.2.2; the Rust Reference, "External blocks"). They are refused only for want of memory.

ghost use Rattle.std.specs.Prelude.{◌≡◌, ◌&&◌, ◌++◌, ◌∷◌, [], Some, map, option_map, IfOk, OnOk};
ghost use Rattle.cx_core.specs.BitFields.{has_bit_fields};
ghost use Rattle.cx_core.specs.Views as core;
ghost use Rattle.cx_core.specs.Views.{view_function_type, view_outer, view_params, view_type, view_types};
ghost use Rattle.rs_items.specs.Known.{view_names};
ghost use Rattle.rs_items.specs.Types.{is_record, passed, rust_params, rust_types};
ghost use Rattle.rs_text.specs.Tree as tree;
ghost use Rattle.rs_tree.specs.Views.{item_view, outer_view, ty_view};
ghost use Rattle.whole_given.specs.Whole.{named};
ghost use Rattle.whole_items.specs.Items.{calloc_outer, extern_items, is_called_so, outer_of, outer_of_form, outers_of, tys_in, value_type, without_params};
ghost use Rattle.whole_keys.specs.Kept.{calls_malloc_in};
ghost use Rattle.whole_keys.specs.Views.{view_key};
ghost use Rattle.whole_known.specs.Stages.{HasTypes};
ghost use Rattle.whole_names.specs.Keys.{a_calloc};
ghost use Rattle.whole_names.specs.Kept.{name_in, types_of};
ghost use Rattle.whole_statics.specs.Outers.{bare_by, declared_by, function_by, is_declared_by, key_by, list_of, outers_behind, types_behind};

use crate::symbols::link_name_of;
use cr_base::{Boxed, Items, Memory, Name};
use cx_core::{FunctionTy, Outer, Params, Parts, Ty, TyForm, has_bit_fields};
use rs_items::NameMap;
use rs_text::IntegerTy;
use rs_tree::{Item, Outer as OuterItem, RTy};
use std::alloc::Global;
use whole_given::Whole;
use whole_keys::{Called, NameKey, calls_malloc, calls_of, has_params, is_outer_named};
use whole_known::type_of;

// ---- types

fn is_record(ty: &Ty) -> bool
    ensures { result ≡ is_record (view_type ty.now) }
{
    matches!(&ty.form, TyForm::Record(_))
}

// What is passed for a value of a type that has become this.
fn passed(of: &Ty, made: Boxed<RTy>) -> RTy
    ensures { ty_view result ≡ passed (is_record (view_type of.now)) (ty_view made) }
{
    if is_record(of) {
        RTy::Pointer(made)
    } else {
        made.into_inner()
    }
}

// The types of parameters of these types.
fn param_types(
    alloc: Global,
    whole: &Whole<'_>,
    names: &NameMap,
    types: &[Ty],
) -> Result<Items<RTy>, Memory>
    requires { HasTypes (named whole.now) (view_names names.now).known }
    ensures { IfOk result (λ made. map ty_view made ≡ types_behind (types_of (named whole.now)) (core.types_of (map view_type types.now)) []) }
{
    let mut made = Items::new(alloc);
    for one in types {
        let ty = type_of(alloc, whole, names, one)?;
        made.push(passed(one, ty))?;
    }
    Ok(made)
}

fn listed_types(
    alloc: Global,
    whole: &Whole<'_>,
    names: &NameMap,
    types: &[Ty],
) -> Result<Items<RTy>, Memory>
    requires { HasTypes (named whole.now) (view_names names.now).known }
    ensures { IfOk result (λ made. map ty_view made ≡ tys_in (rust_types (types_of (named whole.now)) (core.types_of (map view_type types.now)))) }
{
    param_types(alloc, whole, names, types)
}

// The types of the parameters of a function type.
fn params_of(
    alloc: Global,
    whole: &Whole<'_>,
    names: &NameMap,
    params: &Params,
) -> Result<Items<RTy>, Memory>
    requires { HasTypes (named whole.now) (view_names names.now).known }
    ensures { IfOk result (λ made. map ty_view made ≡ tys_in (rust_params (types_of (named whole.now)) (view_params params.now))) }
{
    match params {
        Params::Unlisted => Ok(Items::new(alloc)),
        Params::Listed(types) => listed_types(alloc, whole, names, types.as_slice()),
    }
}

fn value_type(ty: Boxed<RTy>) -> Option<Boxed<RTy>>
    ensures { option_map ty_view result ≡ value_type (ty_view ty) }
{
    match ty.get() {
        RTy::Void => None,
        _ => Some(ty),
    }
}

// ---- one external function

// One of a function type.
fn outer_item(
    alloc: Global,
    whole: &Whole<'_>,
    names: &NameMap,
    symbol: &Name,
    name: Name,
    fun: &FunctionTy,
) -> Result<OuterItem, Memory>
    requires { HasTypes (named whole.now) (view_names names.now).known }
    ensures { IfOk result (λ made. outer_view made ∷ [] ≡ outer_of_form (named whole.now) symbol.now name (view_function_type fun.now)) }
{
    let link_name = link_name_of(alloc, symbol.bytes(), name.bytes())?;
    let params = params_of(alloc, whole, names, &fun.params)?;
    let given = type_of(alloc, whole, names, &fun.result_ty)?;
    Ok(OuterItem {
        link_name,
        name,
        params,
        variadic: fun.is_variadic,
        result: value_type(given),
    })
}

// One, by its key in the module of a unit.
fn made_of(
    alloc: Global,
    whole: &Whole<'_>,
    names: &NameMap,
    unit: u32,
    key: NameKey,
    one: &Outer,
) -> Result<Option<OuterItem>, Memory>
    requires { HasTypes (named whole.now) (view_names names.now).known }
    ensures { IfOk result (λ made. list_of (option_map outer_view made) ≡ outer_of (named whole.now) unit (view_key key) (Some (view_outer one.now))) }
{
    match &one.ty.form {
        TyForm::Function(fun) => {
            let name = whole.name_in(unit, key)?;
            let made = outer_item(alloc, whole, names, &one.name, name, fun.get())?;
            Ok(Some(made))
        }
        _ => Ok(None),
    }
}

fn without_params(alloc: Global, one: OuterItem) -> OuterItem
    ensures { outer_view result ≡ without_params (outer_view one) }
{
    OuterItem {
        link_name: one.link_name,
        name: one.name,
        params: Items::new(alloc),
        variadic: false,
        result: one.result,
    }
}

fn void_pointer(alloc: Global) -> Result<Boxed<RTy>, Memory>
    ensures { IfOk result (λ made. ty_view made ≡ tree.Pointer tree.Void) }
{
    let target = Boxed::new(alloc, RTy::Void)?;
    Boxed::new(alloc, RTy::Pointer(target))
}

// `calloc`, as the C library has it (7.20.3.1).
fn calloc_item(alloc: Global, name: Name) -> Result<OuterItem, Memory>
    ensures { IfOk result (λ made. outer_view made ≡ calloc_outer name) }
{
    let link_name = link_name_of(alloc, b"calloc".as_slice(), name.bytes())?;
    let mut params = Items::new(alloc);
    params.push(RTy::Integer(IntegerTy::U64))?;
    params.push(RTy::Integer(IntegerTy::U64))?;
    let given = void_pointer(alloc)?;
    Ok(OuterItem {
        link_name,
        name,
        params,
        variadic: false,
        result: Some(given),
    })
}

// ---- keys

fn put_made(made: Option<OuterItem>, outers: &mut Items<OuterItem>) -> Result<(), Memory>
    ensures { OnOk result (map outer_view outers.new ≡ map outer_view outers.old ++ list_of (option_map outer_view made)) }
{
    match made {
        None => Ok(()),
        Some(one) => outers.push(one),
    }
}

fn put_bare_made(
    alloc: Global,
    made: Option<OuterItem>,
    outers: &mut Items<OuterItem>,
) -> Result<(), Memory>
    ensures { OnOk result (map outer_view outers.new ≡ map outer_view outers.old ++ map without_params (list_of (option_map outer_view made))) }
{
    match made {
        None => Ok(()),
        Some(one) => outers.push(without_params(alloc, one)),
    }
}

// Whether the module declares an external function: the unit calls it with the arguments that its type lists, or it stands for `malloc`.
fn is_declared(called: &Called, for_malloc: bool, one: &Outer) -> bool
    ensures { result ≡ is_declared_by called.now for_malloc (view_outer one.now) }
{
    is_called_so(called, one) || (for_malloc && is_outer_named(one, b"calloc".as_slice()))
}

fn is_called_so(called: &Called, one: &Outer) -> bool
    ensures { result ≡ is_called_so called.now (view_outer one.now) }
{
    if has_params(&one.ty) {
        return called.is_called_with(one.function);
    }
    called.is_called(one.function)
}

fn put_function(
    alloc: Global,
    whole: &Whole<'_>,
    names: &NameMap,
    unit: u32,
    called: &Called,
    for_malloc: bool,
    number: u32,
    outers: &mut Items<OuterItem>,
) -> Result<(), Memory>
    requires types { HasTypes (named whole.now) (view_names names.now).known }
    ensures { OnOk result (map outer_view outers.new ≡ map outer_view outers.old ++ function_by (named whole.now) unit called.now for_malloc number) }
{
    match whole.outer(number) {
        None => Ok(()),
        Some(one) => put_declared(
            alloc, whole, names, unit, called, for_malloc, number, one, outers,
        ),
    }
}

fn put_declared(
    alloc: Global,
    whole: &Whole<'_>,
    names: &NameMap,
    unit: u32,
    called: &Called,
    for_malloc: bool,
    number: u32,
    one: &Outer,
    outers: &mut Items<OuterItem>,
) -> Result<(), Memory>
    requires types { HasTypes (named whole.now) (view_names names.now).known }
    ensures { OnOk result (map outer_view outers.new ≡ map outer_view outers.old ++ declared_by (named whole.now) unit called.now for_malloc number (Some (view_outer one.now))) }
{
    if !is_declared(called, for_malloc, one) {
        return Ok(());
    }
    let made = made_of(alloc, whole, names, unit, NameKey::Function(number), one)?;
    put_made(made, outers)
}

fn put_bare(
    alloc: Global,
    whole: &Whole<'_>,
    names: &NameMap,
    unit: u32,
    number: u32,
    outers: &mut Items<OuterItem>,
) -> Result<(), Memory>
    requires types { HasTypes (named whole.now) (view_names names.now).known }
    ensures { OnOk result (map outer_view outers.new ≡ map outer_view outers.old ++ bare_by (named whole.now) unit number) }
{
    match whole.outer(number) {
        None => Ok(()),
        Some(one) => {
            let made = made_of(
                alloc,
                whole,
                names,
                unit,
                NameKey::BareFunction(number),
                one,
            )?;
            put_bare_made(alloc, made, outers)
        }
    }
}

fn put_calloc(
    alloc: Global,
    whole: &Whole<'_>,
    unit: u32,
    outers: &mut Items<OuterItem>,
) -> Result<(), Memory>
    ensures { OnOk result (map outer_view outers.new ≡ map outer_view outers.old ++ calloc_outer (name_in (named whole.now) unit a_calloc) ∷ []) }
{
    let name = whole.name_in(unit, NameKey::Calloc)?;
    outers.push(calloc_item(alloc, name)?)
}

// What a key declares.
fn put_key(
    alloc: Global,
    whole: &Whole<'_>,
    names: &NameMap,
    unit: u32,
    called: &Called,
    for_malloc: bool,
    key: NameKey,
    outers: &mut Items<OuterItem>,
) -> Result<(), Memory>
    requires types { HasTypes (named whole.now) (view_names names.now).known }
    ensures { OnOk result (map outer_view outers.new ≡ map outer_view outers.old ++ key_by (named whole.now) unit called.now for_malloc (view_key key)) }
{
    match key {
        NameKey::Function(number) => put_function(
            alloc, whole, names, unit, called, for_malloc, number, outers,
        ),
        NameKey::Object(_) | NameKey::Record(_) => Ok(()),
        NameKey::Calloc => put_calloc(alloc, whole, unit, outers),
        NameKey::BareFunction(number) => put_bare(alloc, whole, names, unit, number, outers),
    }
}

fn put_keys(
    alloc: Global,
    whole: &Whole<'_>,
    names: &NameMap,
    unit: u32,
    called: &Called,
    for_malloc: bool,
    keys: &[NameKey],
    outers: &mut Items<OuterItem>,
) -> Result<(), Memory>
    requires types { HasTypes (named whole.now) (view_names names.now).known }
    ensures { OnOk result (map outer_view outers.new ≡ outers_behind (named whole.now) unit called.now for_malloc (map view_key keys.now) (map outer_view outers.old)) }
{
    for one in keys {
        put_key(alloc, whole, names, unit, called, for_malloc, *one, outers)?;
    }
    Ok(())
}

// Whether the program's own external `calloc` stands for `malloc` in a unit with these calls.
fn stands_for_malloc(parts: &Parts, called: &Called) -> bool
    ensures { result ≡ (has_bit_fields (view_types parts.now.types) && calls_malloc_in called.now (map view_outer parts.now.externals)) }
{
    has_bit_fields(&parts.types) && calls_malloc(called, parts.externals.as_slice())
}

/// The external functions of the module of a unit, in the order of their names.
pub fn outers_of(
    alloc: Global,
    whole: &Whole<'_>,
    names: &NameMap,
    unit: u32,
) -> Result<Items<OuterItem>, Memory>
    requires { HasTypes (named whole.now) (view_names names.now).known }
    ensures { IfOk result (λ outers. map outer_view outers ≡ outers_of (named whole.now) unit) }
{
    let parts = whole.parts();
    let calls = calls_of(alloc, parts, unit)?;
    let called = Called::of(alloc, calls)?;
    let for_malloc = stands_for_malloc(parts, &called);
    let keys = whole.keys(unit)?;
    let mut outers = Items::new(alloc);
    put_keys(
        alloc,
        whole,
        names,
        unit,
        &called,
        for_malloc,
        keys,
        &mut outers,
    )?;
    Ok(outers)
}

/// The block of a module's external functions: none where nothing stands in it.
pub fn extern_item(outers: Items<OuterItem>) -> Option<Item>
    ensures { list_of (option_map item_view result) ≡ extern_items (map outer_view outers) }
{
    if outers.as_slice().first().is_none() {
        return None;
    }
    Some(Item::Extern(outers))
}
