//! Where the names of things stand first.

ghost use Rattle.std.specs.Prelude.{◌≡◌, ◌&&◌, ℕ, List, map, if◌then◌else◌, Some, None, IfOk, OnOk, bytes_eq};
ghost use Rattle.std.specs.Option.{option_or};
ghost use Rattle.cx_core.specs.Linked.{is_external};
ghost use Rattle.cx_core.specs.Trees.{form_of_type};
ghost use Rattle.cx_core.specs.Views.{view_function, view_object, view_outer, view_type};
ghost use Rattle.cx_link.specs.Chains.{indexed};
ghost use Rattle.cx_links.specs.Program.{has_name, lists_params};
ghost use Rattle.cx_linked.specs.Found.{view_found};
ghost use Rattle.cx_linked.specs.Named.{IsIndex, declares_object, defines_object, is_external_function, is_external_outer, is_external_prototype, is_named, name_of_function, name_of_object, name_of_outer};

use crate::found::Found;
use cr_base::{Memory, Name};
use cx_core::{CoreObject, Fun, Linkage, Outer, Params, Ty, TyForm};
use std::alloc::Global;
use std::collections::HashMap;

/// The first place of each name in a list of things.
#[derive(Drop)]
pub(crate) struct Index {
    pub(crate) first: HashMap<Vec<u8>, usize>,
}

pub(crate) fn is_external(linkage: Linkage) -> bool
    ensures { result ≡ is_external linkage }
{
    matches!(linkage, Linkage::External)
}

impl Index {
    fn new(alloc: Global) -> Index
        ensures { (name : List ℕ) → indexed result.first name ≡ None }
    {
        Index {
            first: HashMap::new(alloc),
        }
    }

    /// The first place of a name.
    pub(crate) fn get(&self, name: &[u8]) -> Option<usize>
        ensures { result ≡ indexed self.now.first name.now }
    {
        match self.first.get(name) {
            Some(place) => Some(*place),
            None => None,
        }
    }

    // The thing at a place, behind all that were told before, has this name.
    fn note(&mut self, alloc: Global, name: &Name, place: usize) -> Result<(), Memory>
        ensures { OnOk result ((wanted : List ℕ) → indexed self.new.first wanted ≡
            option_or (indexed self.old.first wanted) (if bytes_eq wanted name.now then Some place else None)) }
    {
        if self.get(name.bytes()).is_some() {
            return Ok(());
        }
        let key = Vec::from_slice(alloc, name.bytes())?;
        self.first.insert(key, place)?;
        Ok(())
    }

    // The same, where the thing counts.
    fn note_counted(
        &mut self,
        alloc: Global,
        counts: bool,
        name: &Name,
        place: usize,
    ) -> Result<(), Memory>
        ensures { OnOk result ((wanted : List ℕ) → indexed self.new.first wanted ≡
            option_or (indexed self.old.first wanted) (if counts && bytes_eq wanted name.now then Some place else None)) }
    {
        if counts {
            self.note(alloc, name, place)
        } else {
            Ok(())
        }
    }

    // The same of a thing that may have no name.
    fn note_some(
        &mut self,
        alloc: Global,
        counts: bool,
        name: &Option<Name>,
        place: usize,
    ) -> Result<(), Memory>
        ensures { OnOk result ((wanted : List ℕ) → indexed self.new.first wanted ≡
            option_or (indexed self.old.first wanted) (if counts && has_name wanted name.now then Some place else None)) }
    {
        match name {
            Some(name) => self.note_counted(alloc, counts, name, place),
            None => Ok(()),
        }
    }
}

fn is_defined(one: &CoreObject) -> bool
    ensures { result ≡ defines_object (view_object one.now) }
{
    is_external(one.linkage) && one.puts.is_some()
}

/// The first declarations of external objects. Refused only for want of memory.
pub(crate) fn declared_objects(
    alloc: Global,
    all: &[Found<'_, CoreObject>],
) -> Result<Index, Memory>
    ensures { IfOk result (λ index. IsIndex index (is_named declares_object name_of_object) (map (view_found view_object) all.now)) }
{
    let mut index = Index::new(alloc);
    for place in 0..all.len() {
        let one = all[place].thing;
        index.note_some(alloc, is_external(one.linkage), &one.name, place)?;
    }
    Ok(index)
}

/// The first definitions of external objects. Refused only for want of memory.
pub(crate) fn defined_objects(alloc: Global, all: &[Found<'_, CoreObject>]) -> Result<Index, Memory>
    ensures { IfOk result (λ index. IsIndex index (is_named defines_object name_of_object) (map (view_found view_object) all.now)) }
{
    let mut index = Index::new(alloc);
    for place in 0..all.len() {
        let one = all[place].thing;
        index.note_some(alloc, is_defined(one), &one.name, place)?;
    }
    Ok(index)
}

/// The first definitions of external functions. Refused only for want of memory.
pub(crate) fn defined_functions(alloc: Global, all: &[Found<'_, Fun>]) -> Result<Index, Memory>
    ensures { IfOk result (λ index. IsIndex index (is_named is_external_function name_of_function) (map (view_found view_function) all.now)) }
{
    let mut index = Index::new(alloc);
    for place in 0..all.len() {
        let one = all[place].thing;
        index.note_counted(alloc, is_external(one.linkage), &one.name, place)?;
    }
    Ok(index)
}

/// The first declarations of external functions that their units don't define. Refused only for want of memory.
pub(crate) fn declared_functions(alloc: Global, all: &[Found<'_, Outer>]) -> Result<Index, Memory>
    ensures { IfOk result (λ index. IsIndex index (is_named is_external_outer name_of_outer) (map (view_found view_outer) all.now)) }
{
    let mut index = Index::new(alloc);
    for place in 0..all.len() {
        let one = all[place].thing;
        index.note_counted(alloc, is_external(one.linkage), &one.name, place)?;
    }
    Ok(index)
}

// Whether a function type tells the types of its parameters (ISO C99, 6.7.5.3p14).
fn lists_params(function_ty: &Ty) -> bool
    ensures { result ≡ lists_params (form_of_type (view_type function_ty.now)) }
{
    match &function_ty.form {
        TyForm::Function(one) => matches!(one.get().params, Params::Listed(_)),
        _ => false,
    }
}

fn is_prototype(one: &Outer) -> bool
    ensures { result ≡ is_external_prototype (view_outer one.now) }
{
    is_external(one.linkage) && lists_params(&one.ty)
}

/// The first declarations of external functions with a list of parameters that their units don't define. Refused only for want of
/// memory.
pub(crate) fn prototyped_functions(alloc: Global, all: &[Found<'_, Outer>]) -> Result<Index, Memory>
    ensures { IfOk result (λ index. IsIndex index (is_named is_external_prototype name_of_outer) (map (view_found view_outer) all.now)) }
{
    let mut index = Index::new(alloc);
    for place in 0..all.len() {
        let one = all[place].thing;
        index.note_counted(alloc, is_prototype(one), &one.name, place)?;
    }
    Ok(index)
}
