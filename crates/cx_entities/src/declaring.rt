//! Declarations of identifiers (ISO C99, 6.7).
#![tactic(auto, unfolding(cx_scope::specs::Views::view_scope))]

ghost use Rattle.std.specs.Prelude.{◌≡◌, None, false, option_map, IfOk, OnOk, map};
ghost use Rattle.cx_core.specs.Views.{view_mention, view_type, view_does};
ghost use Rattle.cx_entities.specs.Entities as entities;
ghost use Rattle.cx_entities.specs.Views.{view_declaring};
ghost use Rattle.cx_rules.specs.Declare as declare;
ghost use Rattle.cx_rules.specs.Declare.{thing_named};
ghost use Rattle.cx_rules.specs.Scope.{with_declared};
ghost use Rattle.cx_scope.specs.Views.{view_meant, view_scope, view_thing};

use crate::linkage::{is_external, is_linked, is_outside, is_typedef};
use crate::objects::add_object;
use crate::things::{declared_again, new_thing, thing_named};
use cr_base::{Boxed, Memory, Name, Place};
use cx_core::{Does, Linkage, Mention, Ty};
use cx_kinds::is_function;
use cx_lex::Keyword;
use cx_rules::SpecsPlace;
use cx_scope::{Declared, Meant, Scope, Thing};
use cx_shapes::Specs;
use cx_types::composite;
use std::alloc::Global;

/// A declaration of an identifier (ISO C99, 6.7).
#[derive(Clone, Copy)]
pub struct Declaring<'a> {
    pub place: SpecsPlace,
    pub specs: &'a Specs,
    pub name: &'a Name,
    pub line: u32,
    /// Its type beside the visible declaration before (6.2.7p4).
    pub ty: &'a Ty,
    pub linkage: Linkage,
    pub has_init: bool,
}

// ---- types

fn joined_object(alloc: Global, t: &Ty, before: &Ty, linkage: Linkage) -> Result<Boxed<Ty>, Memory>
    ensures { IfOk result (λ made. view_type made ≡ entities.joined_object (view_type t.now) (view_type before.now) linkage) }
{
    match linkage {
        Linkage::External | Linkage::Internal => composite(alloc, t, before),
        Linkage::Nothing => t.copy(alloc),
    }
}

fn joined_with(alloc: Global, t: &Ty, before: Option<&Meant>) -> Result<Boxed<Ty>, Memory>
    ensures { IfOk result (λ made. view_type made ≡ declare.joined_with (view_type t.now) (option_map (λ one. view_meant one.now) before.entry)) }
{
    match before {
        None => t.copy(alloc),
        Some(Meant::Object { ty, linkage, .. }) => joined_object(alloc, t, ty, *linkage),
        Some(Meant::Function { ty, .. }) => composite(alloc, t, ty),
        Some(Meant::TypeName(_)) => t.copy(alloc),
        Some(Meant::Enumerator(_)) => t.copy(alloc),
        Some(Meant::Tag { .. }) => t.copy(alloc),
    }
}

/// The type of a declaration beside the visible declaration before: the composite of both, where the identifier has linkage (ISO C99,
/// 6.2.7p4). Refused only for want of memory.
pub fn joined_type(
    alloc: Global,
    linkage: Linkage,
    t: &Ty,
    before: Option<&Meant>,
) -> Result<Boxed<Ty>, Memory>
    ensures { IfOk result (λ made. view_type made ≡ entities.joined_type linkage (view_type t.now) (option_map (λ one. view_meant one.now) before.entry)) }
{
    if is_linked(linkage) {
        joined_with(alloc, t, before)
    } else {
        t.copy(alloc)
    }
}

// ---- numbers

fn linked_number(new: u32, found: Option<&Thing>) -> u32
    ensures { result ≡ declare.linked_number new (option_map (λ one. view_thing one.now) found.entry) }
{
    match found {
        None => new,
        Some(one) => one.number,
    }
}

/// The number of the object that is declared: a new one, unless it has linkage and was declared before.
pub fn object_number(scope: &Scope, one: Declaring<'_>) -> u32
    ensures { result ≡ entities.object_number (view_scope scope.now) (view_declaring one.entry) }
{
    if is_linked(one.linkage) {
        linked_number(scope.next_object, thing_named(scope, one.name))
    } else {
        scope.next_object
    }
}

/// The number of the function that is declared.
pub fn function_number(scope: &Scope, one: Declaring<'_>) -> u32
    ensures { result ≡ entities.function_number (view_scope scope.now) (view_declaring one.entry) }
{
    linked_number(scope.next_function, thing_named(scope, one.name))
}

// ---- functions

fn first_function(scope: &mut Scope, one: Declaring<'_>, has_body: bool) -> Result<(), Memory>
    requires { thing_named one.name.now (view_scope scope.old).things ≡ None }
    ensures added { OnOk result (view_scope scope.new ≡ entities.first_function (view_declaring one.entry) has_body (view_scope scope.old)) }
    ensures types { (view_scope scope.new).types ≡ (view_scope scope.old).types }
{
    let number = scope.next_function;
    if number == u32::MAX {
        return Err(Memory);
    }
    let made = new_thing(scope.alloc, one, true, number, has_body, None)?;
    scope.things.push(made)?;
    scope.next_function = number + 1;
    Ok(())
}

/// A function is declared, for the first time or once more (ISO C99, 6.2.2p2). Refused only for want of memory.
pub fn declare_function(scope: &mut Scope, one: Declaring<'_>, has_body: bool) -> Result<(), Memory>
    ensures added { OnOk result (view_scope scope.new ≡ entities.with_function_declared (view_declaring one.entry) has_body (view_scope scope.old)) }
    ensures types { (view_scope scope.new).types ≡ (view_scope scope.old).types }
{
    let Some(index) = scope.things.at(one.name) else {
        return first_function(scope, one, has_body);
    };
    let Some(before) = scope.things.get(index) else {
        return Err(Memory);
    };
    let again = declared_again(scope.alloc, one.ty, has_body, None, before)?;
    scope.things.set(index, again);
    Ok(())
}

// ---- objects

fn tentative_of(one: Declaring<'_>) -> Option<u32>
    ensures { result ≡ entities.tentative_of (view_declaring one.entry) }
{
    if is_tentative(one) {
        Some(one.line)
    } else {
        None
    }
}

// Whether it is a tentative definition of an object (ISO C99, 6.9.2p2).
fn is_tentative(one: Declaring<'_>) -> bool
    ensures { result ≡ entities.is_tentative (view_declaring one.entry) }
{
    if !is_outside(one.place) {
        return false;
    }
    if one.has_init {
        return false;
    }
    !one.specs.has_storage(Keyword::Extern)
}

fn first_object(scope: &mut Scope, one: Declaring<'_>) -> Result<(), Memory>
    requires { thing_named one.name.now (view_scope scope.old).things ≡ None }
    ensures added { OnOk result (view_scope scope.new ≡ entities.first_object (view_declaring one.entry) (view_scope scope.old)) }
    ensures types { (view_scope scope.new).types ≡ (view_scope scope.old).types }
{
    let made = new_thing(
        scope.alloc,
        one,
        false,
        scope.next_object,
        one.has_init,
        tentative_of(one),
    )?;
    add_object(scope, one.name, one.ty, one.linkage, false)?;
    scope.things.push(made)?;
    Ok(())
}

// An object with linkage is declared, for the first time or once more.
fn declare_object(scope: &mut Scope, one: Declaring<'_>) -> Result<(), Memory>
    ensures added { OnOk result (view_scope scope.new ≡ entities.with_object_declared (view_declaring one.entry) (view_scope scope.old)) }
    ensures types { (view_scope scope.new).types ≡ (view_scope scope.old).types }
{
    let Some(index) = scope.things.at(one.name) else {
        return first_object(scope, one);
    };
    let Some(before) = scope.things.get(index) else {
        return Err(Memory);
    };
    let number = before.number;
    let was_defined = before.is_defined;
    let again = declared_again(scope.alloc, one.ty, one.has_init, tentative_of(one), before)?;
    let ty = again.ty.copy(scope.alloc)?;
    scope.things.set(index, again);
    if !was_defined {
        scope.objects.change(number, ty, None);
    }
    Ok(())
}

/// The object or the function of the unit that is declared comes into being, or is declared once more. Refused only for want of memory.
fn declare_entity(scope: &mut Scope, one: Declaring<'_>) -> Result<(), Memory>
    ensures added { OnOk result (view_scope scope.new ≡ entities.with_entity (view_declaring one.entry) (view_scope scope.old)) }
    ensures types { (view_scope scope.new).types ≡ (view_scope scope.old).types }
{
    if is_typedef(one.specs) {
        return Ok(());
    }
    if is_function(one.ty) {
        return declare_function(scope, one, false);
    }
    if is_linked(one.linkage) {
        return declare_object(scope, one);
    }
    let is_static = one.specs.has_storage(Keyword::Static);
    add_object(scope, one.name, one.ty, Linkage::Nothing, is_static)
}

// ---- mentions

// Whether it defines an object outside of functions, tentatively or not (ISO C99, 6.9.2).
fn defines_object(one: Declaring<'_>) -> bool
    ensures { result ≡ entities.defines_object (view_declaring one.entry) }
{
    if is_function(one.ty) {
        return false;
    }
    if !is_outside(one.place) {
        return false;
    }
    one.has_init || !one.specs.has_storage(Keyword::Extern)
}

/// Whether a declaration is mentioned: that of an object with external linkage, and that of a function.
pub fn is_told(one: Declaring<'_>) -> bool
    ensures { result ≡ entities.is_told (view_declaring one.entry) }
{
    if is_typedef(one.specs) {
        return false;
    }
    if is_external(one.linkage) {
        return true;
    }
    is_function(one.ty) && is_linked(one.linkage)
}

fn does_by(is_definition: bool) -> Does
    ensures { view_does result ≡ entities.does_by is_definition }
{
    if is_definition {
        Does::Defines
    } else {
        Does::Declares
    }
}

// The type that the unit gives to what is declared, from this declaration on (6.2.7p4).
fn told_type<'a>(t: &'a Ty, found: Option<&'a Thing>) -> &'a Ty
    ensures { view_type result.now ≡ entities.told_type (view_type t.now) (option_map (λ one. view_thing one.now) found.entry) }
{
    match found {
        None => t,
        Some(thing) => &thing.ty,
    }
}

/// The mention that a declaration is, with this type.
pub fn told_mention(
    scope: &Scope,
    one: Declaring<'_>,
    t: &Ty,
    is_definition: bool,
) -> Result<Mention, Memory>
    ensures { IfOk result (λ made. view_mention made ≡ entities.told_mention (view_scope scope.now) (view_declaring one.entry) (view_type t.now) is_definition) }
{
    let name = one.name.copy()?;
    let ty = t.copy(scope.alloc)?.into_inner();
    Ok(Mention {
        name,
        place: Place {
            unit: scope.unit,
            line: one.line,
        },
        ty,
        linkage: one.linkage,
        does: does_by(is_definition),
    })
}

fn tell(scope: &mut Scope, one: Declaring<'_>) -> Result<(), Memory>
    ensures added { OnOk result (view_scope scope.new ≡ entities.with_told (view_declaring one.entry) (view_scope scope.old)) }
    ensures types { (view_scope scope.new).types ≡ (view_scope scope.old).types }
{
    if !is_told(one) {
        return Ok(());
    }
    let t = told_type(one.ty, thing_named(scope, one.name));
    let made = told_mention(scope, one, t, defines_object(one))?;
    scope.mentions.push(made)?;
    Ok(())
}

// ---- what comes into scope

// What the identifier means, with the numbers that its object and its function have.
fn meant_as(
    alloc: Global,
    one: Declaring<'_>,
    object: u32,
    function: u32,
) -> Result<Boxed<Meant>, Memory>
    ensures { IfOk result (λ made. view_meant made ≡ entities.meant_as (view_declaring one.entry) object function) }
{
    let ty = one.ty.copy(alloc)?.into_inner();
    if is_typedef(one.specs) {
        return Boxed::new(alloc, Meant::TypeName(ty));
    }
    if is_function(one.ty) {
        return Boxed::new(
            alloc,
            Meant::Function {
                function,
                ty,
                linkage: one.linkage,
            },
        );
    }
    Boxed::new(
        alloc,
        Meant::Object {
            object,
            ty,
            register: one.specs.has_storage(Keyword::Register),
            linkage: one.linkage,
        },
    )
}

/// A meaning of a name comes into scope. Refused only for want of memory.
pub fn add_meant(scope: &mut Scope, name: &Name, meant: Boxed<Meant>) -> Result<(), Memory>
    ensures added { OnOk result (view_scope scope.new ≡ with_declared name.now (view_meant meant) (view_scope scope.old)) }
    ensures types { (view_scope scope.new).types ≡ (view_scope scope.old).types }
{
    let name = name.copy()?;
    scope.declared.push(Declared {
        name,
        meant: meant.into_inner(),
    })?;
    Ok(())
}

/// A declarator has ended: what it declares comes into being, or is declared once more, and its name comes into scope (ISO C99, 6.2.1p7).
/// Refused only for want of memory, and then nothing is said but that the types stay.
#[tactic(auto, unfolding(cx_rules::specs::Declare::with_declaration))]
pub fn declare(scope: &mut Scope, one: Declaring<'_>) -> Result<(), Memory>
    ensures added { OnOk result (view_scope scope.new ≡ declare.with_declaration (view_declaring one.entry) (view_scope scope.old)) }
    ensures types { (view_scope scope.new).types ≡ (view_scope scope.old).types }
{
    let object = object_number(scope, one);
    let function = function_number(scope, one);
    declare_entity(scope, one)?;
    tell(scope, one)?;
    let meant = meant_as(scope.alloc, one, object, function)?;
    add_meant(scope, one.name, meant)
}
