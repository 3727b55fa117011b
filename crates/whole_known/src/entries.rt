//! What one thing has become. Each maker is refused only for want of memory.

ghost use Rattle.std.specs.Prelude.{◌≡◌, false, if◌then◌else◌, map, option_map, IfOk};
ghost use Rattle.cx_core.specs.Trees.{ty, record_type};
ghost use Rattle.cx_core.specs.Views.{view_function, view_object, view_outer, view_type};
ghost use Rattle.rs_items.specs.Known.{view_known, view_names};
ghost use Rattle.rs_items.specs.Types.{rust_type};
ghost use Rattle.rs_items.specs.declared.known.Named.TheVariants as known_named;
ghost use Rattle.rs_text.specs.declared.integer.IntegerTy.TheVariants.{I32, U32};
ghost use Rattle.rs_text.specs.Tree as tree;
ghost use Rattle.rs_text.specs.Tree.{option_ty, tys};
ghost use Rattle.rs_tree.specs.Views.{ty_view};
ghost use Rattle.whole_given.specs.Whole.{named};
ghost use Rattle.whole_known.specs.Entries.{enum_entry, record_entry};
ghost use Rattle.whole_known.specs.Stages.{HasTypes};
ghost use Rattle.whole_names.specs.Kept.{bare_item, calloc_item, calloc_type, code_type, function_item, object_item, outer_item, own_thing, size_of, types_of, without_params};

use crate::callocs::calloc_key;
use crate::types::type_of;
use cr_base::{Boxed, Items, Memory, Name};
use cx_core::{CoreObject, Fun, Outer, Ty, TyForm};
use rs_items::{Known, NameMap, Named};
use rs_text::IntegerTy;
use rs_tree::{RPath, RTy};
use std::alloc::Global;
use whole_given::Whole;
use whole_keys::NameKey;

// ---- enumerated types and records

fn enum_type(is_int: bool) -> IntegerTy
    ensures { result ≡ (if is_int then I32 else U32) }
{
    if is_int {
        IntegerTy::I32
    } else {
        IntegerTy::U32
    }
}

/// An enumerated type of a unit, which is compatible with `int` or with `unsigned int`.
pub(crate) fn enum_entry(alloc: Global, number: u32, unit: u32, is_int: bool) -> Known
    ensures { view_known result ≡ enum_entry number unit is_int }
{
    Known {
        named: Named::Enum(number),
        unit,
        module: None,
        name: Name::of(Vec::new(alloc)),
        symbol: None,
        ty: RTy::Integer(enum_type(is_int)),
        size: 4,
    }
}

// The type of a structure or union.
fn record_ty(number: u32) -> Ty
    ensures { view_type result ≡ ty (record_type number) false }
{
    Ty {
        form: TyForm::Record(number),
        is_const: false,
    }
}

/// A structure or union that a unit completes.
pub(crate) fn record_entry(whole: &Whole<'_>, number: u32, unit: u32) -> Result<Known, Memory>
    ensures { IfOk result (λ made. view_known made ≡ record_entry (named whole.now) number unit) }
{
    let home = whole.module_of(unit)?;
    let name = whole.name_in(unit, NameKey::Record(number))?;
    let path = RPath {
        home: home.copy()?,
        name: name.copy()?,
    };
    Ok(Known {
        named: Named::Record(number),
        unit,
        module: Some(home),
        name,
        symbol: None,
        ty: RTy::Record(path),
        size: whole.size_of(&record_ty(number)),
    })
}

// ---- objects and functions

/// An object that isn't one of a function's blocks.
pub fn object_entry(
    alloc: Global,
    whole: &Whole<'_>,
    names: &NameMap,
    one: &CoreObject,
) -> Result<Known, Memory>
    requires { HasTypes (named whole.now) (view_names names.now).known }
    ensures { IfOk result (λ made. view_known made ≡ object_item (named whole.now) (view_object one.now)) }
{
    let module = whole.module_of(one.unit)?;
    let name = whole.name_in(one.unit, NameKey::Object(one.object))?;
    let ty = type_of(alloc, whole, names, &one.ty)?;
    Ok(Known {
        named: Named::Object(one.object),
        unit: one.unit,
        module: Some(module),
        name,
        symbol: None,
        ty: ty.into_inner(),
        size: whole.size_of(&one.ty),
    })
}

/// An object of a function's blocks, or a parameter, by its name.
pub fn local_entry(
    alloc: Global,
    whole: &Whole<'_>,
    names: &NameMap,
    one: &CoreObject,
    name: Name,
) -> Result<Known, Memory>
    requires { HasTypes (named whole.now) (view_names names.now).known }
    ensures { IfOk result (λ made. view_known made ≡ own_thing (known_named.Object one.now.object) one.now.unit name (rust_type (types_of (named whole.now)) (view_type one.now.ty))
        (size_of (named whole.now) (view_type one.now.ty))) }
{
    let ty = type_of(alloc, whole, names, &one.ty)?;
    Ok(Known {
        named: Named::Object(one.object),
        unit: one.unit,
        module: None,
        name,
        symbol: None,
        ty: ty.into_inner(),
        size: whole.size_of(&one.ty),
    })
}

/// The Rust type of a pointer to a function of a type.
pub fn code_type_of(
    alloc: Global,
    whole: &Whole<'_>,
    names: &NameMap,
    ty: &Ty,
) -> Result<Boxed<RTy>, Memory>
    requires { HasTypes (named whole.now) (view_names names.now).known }
    ensures { IfOk result (λ made. ty_view made ≡ code_type (named whole.now) (view_type ty.now)) }
{
    let copied = ty.copy(alloc)?;
    let pointer = Ty::pointer(alloc, copied, false)?;
    type_of(alloc, whole, names, pointer.get())
}

/// A function that a unit defines.
pub(crate) fn function_entry(
    alloc: Global,
    whole: &Whole<'_>,
    names: &NameMap,
    one: &Fun,
) -> Result<Known, Memory>
    requires { HasTypes (named whole.now) (view_names names.now).known }
    ensures { IfOk result (λ made. view_known made ≡ function_item (named whole.now) (view_function one.now)) }
{
    let module = whole.module_of(one.unit)?;
    let name = whole.name_in(one.unit, NameKey::Function(one.function))?;
    let ty = code_type_of(alloc, whole, names, &one.ty)?;
    Ok(Known {
        named: Named::Function(one.function),
        unit: one.unit,
        module: Some(module),
        name,
        symbol: None,
        ty: ty.into_inner(),
        size: 0,
    })
}

// ---- external functions

/// An external function, as a unit's module has it.
pub(crate) fn outer_entry(
    alloc: Global,
    whole: &Whole<'_>,
    names: &NameMap,
    unit: u32,
    one: &Outer,
) -> Result<Known, Memory>
    requires { HasTypes (named whole.now) (view_names names.now).known }
    ensures { IfOk result (λ made. view_known made ≡ outer_item (named whole.now) unit (view_outer one.now)) }
{
    let module = whole.module_of(unit)?;
    let name = whole.name_in(unit, NameKey::Function(one.function))?;
    let ty = code_type_of(alloc, whole, names, &one.ty)?;
    Ok(Known {
        named: Named::Function(one.function),
        unit,
        module: Some(module),
        name,
        symbol: Some(one.name.copy()?),
        ty: ty.into_inner(),
        size: 0,
    })
}

fn void_pointer(alloc: Global) -> Result<Boxed<RTy>, Memory>
    ensures { IfOk result (λ made. ty_view made ≡ tree.Pointer tree.Void) }
{
    let target = Boxed::new(alloc, RTy::Void)?;
    Boxed::new(alloc, RTy::Pointer(target))
}

fn code(params: Items<RTy>, given: Option<Boxed<RTy>>) -> RTy
    ensures { ty_view result ≡ tree.Code (tys (map ty_view params)) (option_ty (option_map ty_view given)) }
{
    RTy::Code(params, given)
}

// `*mut c_void` for so many bytes of so many objects (7.20.3.1).
fn calloc_type(alloc: Global) -> Result<RTy, Memory>
    ensures { IfOk result (λ made. ty_view made ≡ calloc_type) }
{
    let mut params = Items::new(alloc);
    params.push(RTy::Integer(IntegerTy::U64))?;
    params.push(RTy::Integer(IntegerTy::U64))?;
    let given = void_pointer(alloc)?;
    Ok(code(params, Some(given)))
}

/// `calloc`, which is called in the place of `malloc`.
pub(crate) fn calloc_entry(
    alloc: Global,
    whole: &Whole<'_>,
    unit: u32,
    one: &Outer,
) -> Result<Known, Memory>
    ensures { IfOk result (λ made. view_known made ≡ calloc_item (named whole.now) unit (view_outer one.now)) }
{
    let module = whole.module_of(unit)?;
    let name = whole.name_in(unit, calloc_key(alloc, whole, unit)?)?;
    Ok(Known {
        named: Named::Function(one.function),
        unit,
        module: Some(module),
        name,
        symbol: Some(one.name.copy()?),
        ty: calloc_type(alloc)?,
        size: 0,
    })
}

fn without_params(alloc: Global, ty: RTy) -> RTy
    ensures { ty_view result ≡ without_params (ty_view ty) }
{
    match ty {
        RTy::Code(_, given) => RTy::Code(Items::new(alloc), given),
        other => other,
    }
}

/// The item without parameters of an external function.
pub(crate) fn bare_entry(
    alloc: Global,
    whole: &Whole<'_>,
    names: &NameMap,
    unit: u32,
    one: &Outer,
) -> Result<Known, Memory>
    requires { HasTypes (named whole.now) (view_names names.now).known }
    ensures { IfOk result (λ made. view_known made ≡ bare_item (named whole.now) unit (view_outer one.now)) }
{
    let module = whole.module_of(unit)?;
    let name = whole.name_in(unit, NameKey::BareFunction(one.function))?;
    let ty = code_type_of(alloc, whole, names, &one.ty)?;
    Ok(Known {
        named: Named::BareFunction(one.function),
        unit,
        module: Some(module),
        name,
        symbol: Some(one.name.copy()?),
        ty: without_params(alloc, ty.into_inner()),
        size: 0,
    })
}
