//! What gets a name in a function, in the order in which names are given (ISO C99, 6.9.1, 6.2.4). It is refused only for want of memory.

ghost use Rattle.std.specs.Prelude.{◌≡◌, ◌++◌, ◌∷◌, [], Some, codes, if◌then◌else◌, map, option_map, filter, IfOk, OnOk};
ghost use Rattle.cx_core.specs.Trees.{form_of_type};
ghost use Rattle.cx_core.specs.Views.{view_function, view_object, view_type};
ghost use Rattle.whole_given.specs.Whole.{named};
ghost use Rattle.whole_keys.specs.Kept.{put_one, put_where};
ghost use Rattle.whole_locals.specs.Wanted.{is_local_in, is_wanted, params_behind, passed_where, temporaries_behind, view_wanted};
ghost use Rattle.whole_names.specs.FunctionNames as spec;
ghost use Rattle.whole_names.specs.FunctionNames.{gives_record, is_among, is_local_of, is_record, object_is_record, object_name, wanted_in, wanted_object, wanted_param};

use crate::blocks::BlockObjects;
use cr_base::{Items, Memory, Name};
use cx_core::{CoreObject, Fun, Ty, TyForm};
use std::alloc::Global;
use whole_given::Whole;

/// What gets a name in a function.
#[derive(Clone, Copy, Debug, PartialEq, Eq)]
pub enum LocalKey {
    /// Where it writes the structure or union that it gives.
    Result,
    /// The pointer to a structure or union that is passed; its copy is the parameter itself.
    Passed(u32),
    /// A parameter, an object or a compound literal, by its number.
    Local(u32),
    /// A temporary, by its number.
    Temporary(u32),
}

/// A key, and the name that it is to get where that is free.
#[derive(Drop)]
pub struct WantedLocal {
    pub key: LocalKey,
    pub wanted: Name,
}

fn name_of(alloc: Global, bytes: &[u8]) -> Result<Name, Memory>
    ensures { IfOk result (λ name. name ≡ bytes.now) }
{
    let bytes = Vec::from_slice(alloc, bytes)?;
    Ok(Name::of(bytes))
}

fn put(key: LocalKey, name: Name, wanted: &mut Items<WantedLocal>) -> Result<(), Memory>
    ensures { OnOk result (map view_wanted wanted.new ≡ map view_wanted wanted.old ++ view_wanted (record { key = key; wanted = name }) ∷ []) }
{
    wanted.push(WantedLocal { key, wanted: name })
}

// ---- the place of a structure or union that is given

fn is_record(ty: &Ty) -> bool
    ensures { result ≡ is_record (form_of_type (view_type ty.now)) }
{
    matches!(&ty.form, TyForm::Record(_))
}

/// Whether a function gives a structure or union.
pub fn gives_record(ty: &Ty) -> bool
    ensures { result ≡ gives_record (form_of_type (view_type ty.now)) }
{
    match &ty.form {
        TyForm::Function(fun) => is_record(&fun.get().result_ty),
        _ => false,
    }
}

fn put_result(alloc: Global, fun: &Fun, wanted: &mut Items<WantedLocal>) -> Result<(), Memory>
    ensures { OnOk result (map view_wanted wanted.new ≡ map view_wanted wanted.old
        ++ (if gives_record (form_of_type (view_type fun.now.ty)) then record { key = spec.a_result; wanted = codes "ret" } ∷ [] else [])) }
{
    if !gives_record(&fun.ty) {
        return Ok(());
    }
    let name = name_of(alloc, b"ret".as_slice())?;
    put(LocalKey::Result, name, wanted)
}

// ---- parameters

// The name of an object, or else another.
fn object_name(alloc: Global, object: Option<&CoreObject>, other: &[u8]) -> Result<Name, Memory>
    ensures { IfOk result (λ name. name ≡ object_name other.now (option_map (λ one. view_object one.now) object.entry)) }
{
    match object {
        Some(one) => own_name(alloc, one, other),
        None => name_of(alloc, other),
    }
}

fn own_name(alloc: Global, one: &CoreObject, other: &[u8]) -> Result<Name, Memory>
    ensures { IfOk result (λ name. name ≡ object_name other.now (Some (view_object one.now))) }
{
    match &one.name {
        Some(name) => name.copy(),
        None => name_of(alloc, other),
    }
}

/// Whether an object is a structure or union.
pub fn object_is_record(object: Option<&CoreObject>) -> bool
    ensures { result ≡ object_is_record (option_map (λ one. view_object one.now) object.entry) }
{
    match object {
        Some(one) => is_record(&one.ty),
        None => false,
    }
}

// The pointer to a structure or union that is passed.
fn put_passed(
    is_record: bool,
    number: u32,
    name: &Name,
    wanted: &mut Items<WantedLocal>,
) -> Result<(), Memory>
    ensures { OnOk result (map view_wanted wanted.new ≡ map view_wanted wanted.old ++ passed_where is_record number name.now) }
{
    if !is_record {
        return Ok(());
    }
    let name = name.copy()?;
    put(LocalKey::Passed(number), name, wanted)
}

fn put_param(
    alloc: Global,
    whole: &Whole<'_>,
    number: u32,
    wanted: &mut Items<WantedLocal>,
) -> Result<(), Memory>
    ensures { OnOk result (map view_wanted wanted.new ≡ map view_wanted wanted.old ++ wanted_param (named whole.now).program number) }
{
    let one = whole.object(number);
    let name = object_name(alloc, one, b"arg".as_slice())?;
    put_passed(object_is_record(one), number, &name, wanted)?;
    put(LocalKey::Local(number), name, wanted)
}

fn put_params(
    alloc: Global,
    whole: &Whole<'_>,
    numbers: &[u32],
    wanted: &mut Items<WantedLocal>,
) -> Result<(), Memory>
    ensures { OnOk result (map view_wanted wanted.new ≡ params_behind (named whole.now).program numbers.now (map view_wanted wanted.old)) }
{
    for one in numbers {
        put_param(alloc, whole, *one, wanted)?;
    }
    Ok(())
}

// ---- objects of blocks

fn is_among(numbers: &[u32], number: u32) -> bool
    ensures { result ≡ is_among numbers.now number }
{
    for one in numbers {
        if *one == number {
            return true;
        }
    }
    false
}

// Whether it is an object of the function's blocks that isn't static, and no parameter.
fn is_local_of(blocks: &BlockObjects, params: &[u32], one: &CoreObject) -> bool
    ensures { result ≡ is_local_in blocks.now params.now (view_object one.now) }
{
    one.puts.is_none() && blocks.has(one.object) && !is_among(params, one.object)
}

fn put_local(
    alloc: Global,
    blocks: &BlockObjects,
    params: &[u32],
    has_name: bool,
    one: &CoreObject,
    wanted: &mut Items<WantedLocal>,
) -> Result<(), Memory>
    ensures { OnOk result (map view_wanted wanted.new ≡ put_one (is_wanted blocks.now params.now has_name) wanted_object (view_object one.now) (map view_wanted wanted.old)) }
{
    if one.name.is_some() != has_name || !is_local_of(blocks, params, one) {
        return Ok(());
    }
    let name = own_name(alloc, one, b"val".as_slice())?;
    put(LocalKey::Local(one.object), name, wanted)
}

// Those with a name, or those without: compound literals.
fn put_locals(
    alloc: Global,
    blocks: &BlockObjects,
    params: &[u32],
    has_name: bool,
    objects: &[CoreObject],
    wanted: &mut Items<WantedLocal>,
) -> Result<(), Memory>
    ensures { OnOk result (map view_wanted wanted.new ≡ put_where (is_wanted blocks.now params.now has_name) wanted_object (map view_object objects.now) (map view_wanted wanted.old)) }
{
    for one in objects {
        put_local(alloc, blocks, params, has_name, one, wanted)?;
    }
    Ok(())
}

// ---- temporaries

fn put_temporary(alloc: Global, number: u32, wanted: &mut Items<WantedLocal>) -> Result<(), Memory>
    ensures { OnOk result (map view_wanted wanted.new ≡ map view_wanted wanted.old ++ record { key = spec.a_temporary number; wanted = codes "t" } ∷ []) }
{
    let name = name_of(alloc, b"t".as_slice())?;
    put(LocalKey::Temporary(number), name, wanted)
}

// So many temporaries, numbered from 0.
fn put_temporaries(alloc: Global, count: u32, wanted: &mut Items<WantedLocal>) -> Result<(), Memory>
    ensures { OnOk result (map view_wanted wanted.new ≡ temporaries_behind count (map view_wanted wanted.old)) }
{
    for number in 0..count {
        put_temporary(alloc, number, wanted)?;
    }
    Ok(())
}

// ---- all of them

/// All that gets a name in a function with so many temporaries. `objects` are objects of the program in the order of the text, those of the function's blocks among them.
pub fn wanted_in(
    alloc: Global,
    whole: &Whole<'_>,
    fun: &Fun,
    objects: &[CoreObject],
    temporaries: u32,
) -> Result<Items<WantedLocal>, Memory>
    requires { filter (is_local_of (view_function fun.now)) (map view_object objects.now) ≡ filter (is_local_of (view_function fun.now)) (named whole.now).program.objects }
    ensures { IfOk result (λ wanted. map view_wanted wanted ≡ wanted_in (named whole.now).program (view_function fun.now) temporaries) }
{
    let params = fun.params.as_slice();
    let blocks = BlockObjects::of(alloc, &fun.body)?;
    let mut wanted = Items::new(alloc);
    put_result(alloc, fun, &mut wanted)?;
    put_params(alloc, whole, params, &mut wanted)?;
    put_locals(alloc, &blocks, params, true, objects, &mut wanted)?;
    put_locals(alloc, &blocks, params, false, objects, &mut wanted)?;
    put_temporaries(alloc, temporaries, &mut wanted)?;
    Ok(wanted)
}
