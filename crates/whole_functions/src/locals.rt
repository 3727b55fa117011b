//! The parameters and locals of a function. They are refused only for want of memory.

ghost use Rattle.std.specs.Prelude.{◌≡◌, ◌++◌, [], if◌then◌else◌, map, option_map, IfOk, OnOk};
ghost use Rattle.cx_core.specs.Trees.{form_of_type};
ghost use Rattle.cx_core.specs.Typing.{object_with};
ghost use Rattle.cx_core.specs.Views.{view_function, view_object, view_type};
ghost use Rattle.rs_items.specs.Known.{view_names};
ghost use Rattle.rs_text.specs.Tree as tree;
ghost use Rattle.rs_tree.specs.Views.{local_view, ty_view};
ghost use Rattle.whole_functions.specs.Locals.{local_with, locals_behind, params_behind};
ghost use Rattle.whole_given.specs.Whole.{named};
ghost use Rattle.whole_items.specs.Items as items;
ghost use Rattle.whole_items.specs.Items.{is_plain_param, object_local, param_of, result_of_form, result_param, temporary_named, type_of_object};
ghost use Rattle.whole_known.specs.Stages.{HasTypes};
ghost use Rattle.whole_locals.specs.Names.{view_local};

use cr_base::{Boxed, Items, Memory, Name};
use cx_core::{CoreObject, Fun, Ty, TyForm};
use rs_items::NameMap;
use rs_makers::copy_ty;
use rs_tree::{Local, RTy};
use std::alloc::Global;
use whole_given::Whole;
use whole_known::type_of;
use whole_locals::{LocalKey, LocalName, object_is_record};

// A parameter or local with a name and a type, behind others.
fn put(name: &Name, ty: Boxed<RTy>, locals: &mut Items<Local>) -> Result<(), Memory>
    ensures { OnOk result (map local_view locals.new ≡ map local_view locals.old ++ items.named name.now (ty_view ty)) }
{
    let name = name.copy()?;
    locals.push(Local { name, ty })
}

fn pointer(alloc: Global, target: Boxed<RTy>) -> Result<Boxed<RTy>, Memory>
    ensures { IfOk result (λ made. ty_view made ≡ tree.Pointer (ty_view target)) }
{
    Boxed::new(alloc, RTy::Pointer(target))
}

// The type of the object of a number.
fn type_of_object(
    alloc: Global,
    whole: &Whole<'_>,
    names: &NameMap,
    object: Option<&CoreObject>,
) -> Result<Boxed<RTy>, Memory>
    requires { HasTypes (named whole.now) (view_names names.now).known }
    ensures { IfOk result (λ made. ty_view made ≡ type_of_object (named whole.now) (option_map (λ one. view_object one.now) object.entry)) }
{
    match object {
        None => Boxed::new(alloc, RTy::Void),
        Some(one) => type_of(alloc, whole, names, &one.ty),
    }
}

fn put_object(
    alloc: Global,
    whole: &Whole<'_>,
    names: &NameMap,
    name: &Name,
    number: u32,
    locals: &mut Items<Local>,
) -> Result<(), Memory>
    requires { HasTypes (named whole.now) (view_names names.now).known }
    ensures { OnOk result (map local_view locals.new ≡ map local_view locals.old ++ object_local (named whole.now) name.now number) }
{
    let ty = type_of_object(alloc, whole, names, whole.object(number))?;
    put(name, ty, locals)
}

fn is_param(params: &[u32], number: u32) -> bool
    ensures { result ≡ items.is_param params.now number }
{
    for one in params {
        if *one == number {
            return true;
        }
    }
    false
}

// Whether an object is a parameter of the crate's function, too: it isn't a structure or union, which is passed by a pointer.
fn is_plain_param(whole: &Whole<'_>, fun: &Fun, number: u32) -> bool
    ensures { result ≡ is_plain_param (named whole.now) (view_function fun.now) number }
{
    is_param(fun.params.as_slice(), number) && !object_is_record(whole.object(number))
}

// ---- parameters

// The place of the structure or union that a function of this type gives.
fn put_result(
    alloc: Global,
    whole: &Whole<'_>,
    names: &NameMap,
    name: &Name,
    ty: &Ty,
    params: &mut Items<Local>,
) -> Result<(), Memory>
    requires { HasTypes (named whole.now) (view_names names.now).known }
    ensures { OnOk result (map local_view params.new ≡ map local_view params.old ++ result_param (named whole.now) name.now (result_of_form (form_of_type (view_type ty.now)))) }
{
    match &ty.form {
        TyForm::Function(fun) => {
            let target = type_of(alloc, whole, names, &fun.get().result_ty)?;
            let ty = pointer(alloc, target)?;
            put(name, ty, params)
        }
        _ => Ok(()),
    }
}

// The pointer to a structure or union that is passed.
fn put_passed(
    alloc: Global,
    whole: &Whole<'_>,
    names: &NameMap,
    name: &Name,
    number: u32,
    params: &mut Items<Local>,
) -> Result<(), Memory>
    requires { HasTypes (named whole.now) (view_names names.now).known }
    ensures { OnOk result (map local_view params.new ≡ map local_view params.old
        ++ items.named name.now (tree.Pointer (type_of_object (named whole.now) (object_with number (named whole.now).program.objects)))) }
{
    let target = type_of_object(alloc, whole, names, whole.object(number))?;
    let ty = pointer(alloc, target)?;
    put(name, ty, params)
}

// A parameter with a scalar type.
fn put_plain(
    alloc: Global,
    whole: &Whole<'_>,
    names: &NameMap,
    fun: &Fun,
    name: &Name,
    number: u32,
    params: &mut Items<Local>,
) -> Result<(), Memory>
    requires { HasTypes (named whole.now) (view_names names.now).known }
    ensures { OnOk result (map local_view params.new ≡ map local_view params.old
        ++ (if is_plain_param (named whole.now) (view_function fun.now) number then object_local (named whole.now) name.now number else [])) }
{
    if is_plain_param(whole, fun, number) {
        return put_object(alloc, whole, names, name, number, params);
    }
    Ok(())
}

// The parameter that a key is, if it is one.
fn put_param(
    alloc: Global,
    whole: &Whole<'_>,
    names: &NameMap,
    fun: &Fun,
    one: &LocalName,
    params: &mut Items<Local>,
) -> Result<(), Memory>
    requires { HasTypes (named whole.now) (view_names names.now).known }
    ensures { OnOk result (map local_view params.new ≡ map local_view params.old ++ param_of (named whole.now) (view_function fun.now) (view_local one.now)) }
{
    match one.key {
        LocalKey::Result => put_result(alloc, whole, names, &one.name, &fun.ty, params),
        LocalKey::Passed(number) => put_passed(alloc, whole, names, &one.name, number, params),
        LocalKey::Local(number) => put_plain(alloc, whole, names, fun, &one.name, number, params),
        LocalKey::Temporary(_) => Ok(()),
    }
}

/// The parameters of a function with these names, behind others.
pub(crate) fn put_params(
    alloc: Global,
    whole: &Whole<'_>,
    names: &NameMap,
    fun: &Fun,
    keys: &[LocalName],
    params: &mut Items<Local>,
) -> Result<(), Memory>
    requires { HasTypes (named whole.now) (view_names names.now).known }
    ensures { OnOk result (map local_view params.new ≡ params_behind (named whole.now) (view_function fun.now) (map view_local keys.now) (map local_view params.old)) }
{
    for one in keys {
        put_param(alloc, whole, names, fun, one, params)?;
    }
    Ok(())
}

// ---- locals

fn put_local(
    alloc: Global,
    whole: &Whole<'_>,
    names: &NameMap,
    fun: &Fun,
    name: &Name,
    number: u32,
    locals: &mut Items<Local>,
) -> Result<(), Memory>
    requires { HasTypes (named whole.now) (view_names names.now).known }
    ensures { OnOk result (map local_view locals.new ≡ map local_view locals.old
        ++ (if is_plain_param (named whole.now) (view_function fun.now) number then [] else object_local (named whole.now) name.now number)) }
{
    if is_plain_param(whole, fun, number) {
        return Ok(());
    }
    put_object(alloc, whole, names, name, number, locals)
}

fn put_temporary(
    alloc: Global,
    name: &Name,
    ty: Option<&RTy>,
    locals: &mut Items<Local>,
) -> Result<(), Memory>
    ensures { OnOk result (map local_view locals.new ≡ map local_view locals.old ++ temporary_named name.now (option_map (λ one. ty_view one.now) ty.entry)) }
{
    match ty {
        None => Ok(()),
        Some(ty) => {
            let ty = copy_ty(alloc, ty)?;
            put(name, ty, locals)
        }
    }
}

// The local that a key is, if it is one.
fn put_one(
    alloc: Global,
    whole: &Whole<'_>,
    names: &NameMap,
    fun: &Fun,
    temporaries: &[RTy],
    one: &LocalName,
    locals: &mut Items<Local>,
) -> Result<(), Memory>
    requires { HasTypes (named whole.now) (view_names names.now).known }
    ensures { OnOk result (map local_view locals.new ≡ map local_view locals.old ++ local_with (named whole.now) (view_function fun.now) (map ty_view temporaries.now) (view_local one.now)) }
{
    match one.key {
        LocalKey::Result | LocalKey::Passed(_) => Ok(()),
        LocalKey::Local(number) => put_local(alloc, whole, names, fun, &one.name, number, locals),
        LocalKey::Temporary(number) => {
            put_temporary(alloc, &one.name, temporaries.get(number as usize), locals)
        }
    }
}

/// The locals of a function with these names and temporaries of these types, behind others.
pub(crate) fn put_locals(
    alloc: Global,
    whole: &Whole<'_>,
    names: &NameMap,
    fun: &Fun,
    temporaries: &[RTy],
    keys: &[LocalName],
    locals: &mut Items<Local>,
) -> Result<(), Memory>
    requires { HasTypes (named whole.now) (view_names names.now).known }
    ensures { OnOk result (map local_view locals.new
        ≡ locals_behind (named whole.now) (view_function fun.now) (map ty_view temporaries.now) (map view_local keys.now) (map local_view locals.old)) }
{
    for one in keys {
        put_one(alloc, whole, names, fun, temporaries, one, locals)?;
    }
    Ok(())
}
