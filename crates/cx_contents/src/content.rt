//! Initialisers that have ended (ISO C99, 6.7.8).
#![tactic(auto, unfolding(cx_scope::specs::Views::view_scope))]

ghost use Rattle.std.specs.Prelude.{◌≡◌, IfOk, OnOk};
ghost use Rattle.cx_contents.specs.Contents as contents;
ghost use Rattle.cx_contents.specs.Views.{view_content};
ghost use Rattle.cx_core.specs.Views.{view_puts, view_type};
ghost use Rattle.cx_rules.specs.Declare.{thing_named};
ghost use Rattle.cx_rules.specs.Scope.{with_told_type};
ghost use Rattle.cx_scope.specs.Views.{view_scope, view_thing};

use crate::names::redeclare;
use crate::stores::store;
use cr_base::{Boxed, Items, Memory, Name};
use cx_core::{Linkage, Mention, Put, Ty};
use cx_entities::{beside_thing, is_linked};
use cx_scope::{Scope, Thing};
use std::alloc::Global;

/// What was declared whose initialiser ends (ISO C99, 6.7.8).
#[derive(Clone, Copy)]
pub struct Content<'a> {
    pub name: &'a Name,
    pub linkage: Linkage,
    /// The number of the object, where it is one.
    pub object: Option<u32>,
    /// Whether the object lives as long as the program (6.2.4p3).
    pub is_static: bool,
    /// Which mention of the scope the declaration is, where it is one.
    pub mention: Option<u64>,
}

// What has linkage, with the type that its initialiser gives it.
fn completed(alloc: Global, one: &Thing, ty: &Ty) -> Result<Thing, Memory>
    ensures { IfOk result (λ made. view_thing made ≡ contents.thing_completed (view_type ty.now) (view_thing one.now)) }
{
    let name = one.name.copy()?;
    let ty = ty.copy(alloc)?.into_inner();
    Ok(Thing {
        name,
        linkage: one.linkage,
        is_function: one.is_function,
        number: one.number,
        ty,
        is_defined: one.is_defined,
        tentative: one.tentative,
    })
}

fn complete_thing(scope: &mut Scope, name: &Name, ty: &Ty) -> Result<(), Memory>
    ensures completed { OnOk result (view_scope scope.new ≡ contents.completed_thing name.now (view_type ty.now) (thing_named name.now (view_scope scope.old).things) (view_scope scope.old)) }
    ensures types { (view_scope scope.new).types ≡ (view_scope scope.old).types }
{
    let Some(index) = scope.things.at(name) else {
        return Ok(());
    };
    let Some(before) = scope.things.get(index) else {
        return Err(Memory);
    };
    let made = completed(scope.alloc, before, ty)?;
    scope.things.set(index, made);
    Ok(())
}

fn complete_linked(scope: &mut Scope, linkage: Linkage, name: &Name, ty: &Ty) -> Result<(), Memory>
    ensures completed { OnOk result (view_scope scope.new ≡ contents.with_thing_completed linkage name.now (view_type ty.now) (view_scope scope.old)) }
    ensures types { (view_scope scope.new).types ≡ (view_scope scope.old).types }
{
    if !is_linked(linkage) {
        return Ok(());
    }
    complete_thing(scope, name, ty)
}

fn set_ty(one: &mut Mention, ty: Boxed<Ty>)
    ensures { one.new ≡ record one.old { ty = ty } }
{
    one.ty = ty.into_inner();
}

// The mention says the type that the initialiser gives (6.7.8p22).
fn retell(scope: &mut Scope, mention: Option<u64>, ty: &Ty) -> Result<(), Memory>
    ensures told { OnOk result (view_scope scope.new ≡ contents.completed_mention mention (view_type ty.now) (view_scope scope.old)) }
    ensures types { (view_scope scope.new).types ≡ (view_scope scope.old).types }
{
    match mention {
        None => Ok(()),
        Some(index) => retell_at(scope, index, ty),
    }
}

fn retell_at(scope: &mut Scope, index: u64, ty: &Ty) -> Result<(), Memory>
    ensures told { OnOk result (view_scope scope.new ≡ with_told_type index (view_type ty.now) (view_scope scope.old)) }
    ensures types { (view_scope scope.new).types ≡ (view_scope scope.old).types }
{
    let made = ty.copy(scope.alloc)?;
    if let Some(one) = scope.mentions.get_mut(index as usize) {
        set_ty(one, made);
    }
    Ok(())
}

/// An initialiser has ended: the declared name, the object and the declaration's mention have the type that it gives, later declarations
/// are compared with that type beside all declarations of the unit, and what is stored before the program begins is known (ISO C99,
/// 6.2.7p4, 6.7.8p22). Refused only for want of memory, and then nothing is said but that the types stay.
pub fn complete(
    scope: &mut Scope,
    one: Content<'_>,
    ty: &Ty,
    puts: Items<Put>,
) -> Result<(), Memory>
    ensures completed { OnOk result (view_scope scope.new ≡ contents.with_content (view_content one.entry) (view_type ty.now) (view_puts puts) (view_scope scope.old)) }
    ensures types { (view_scope scope.new).types ≡ (view_scope scope.old).types }
{
    let made = beside_thing(scope, one.linkage, one.name, ty)?;
    let whole = made.get();
    redeclare(scope, one.name, ty)?;
    store(scope, one.object, one.is_static, ty, puts)?;
    complete_linked(scope, one.linkage, one.name, whole)?;
    retell(scope, one.mention, ty)
}
