//! Objects and functions with linkage (ISO C99, 6.2.2).
#![tactic(auto, unfolding(cx_scope::specs::Views::view_scope))]

ghost use Rattle.std.specs.Prelude.{◌≡◌, option_map, IfOk};
ghost use Rattle.cx_core.specs.Views.{view_type};
ghost use Rattle.cx_entities.specs.Entities as entities;
ghost use Rattle.cx_entities.specs.Views.{view_declaring};
ghost use Rattle.cx_rules.specs.Declare as declare;
ghost use Rattle.cx_scope.specs.Views.{view_scope, view_thing};

use crate::declaring::Declaring;
use crate::linkage::is_linked;
use cr_base::{Boxed, Memory, Name};
use cx_core::{Linkage, Ty};
use cx_scope::{Scope, Thing};
use cx_types::composite;
use std::alloc::Global;

/// The object or function with linkage that has a name.
pub fn thing_named<'a>(scope: &'a Scope, name: &Name) -> Option<&'a Thing>
    ensures { option_map (λ one. view_thing one.now) result ≡ declare.thing_named name.now (view_scope scope.now).things }
{
    scope.things.named(name)
}

/// A new object or function with linkage.
pub(crate) fn new_thing(
    alloc: Global,
    one: Declaring<'_>,
    is_function: bool,
    number: u32,
    is_defined: bool,
    tentative: Option<u32>,
) -> Result<Thing, Memory>
    ensures { IfOk result (λ made. view_thing made ≡ entities.new_thing (view_declaring one.entry) is_function number is_defined tentative) }
{
    let name = one.name.copy()?;
    let ty = one.ty.copy(alloc)?.into_inner();
    Ok(Thing {
        name,
        linkage: one.linkage,
        is_function,
        number,
        ty,
        is_defined,
        tentative,
    })
}

fn or_line(first: Option<u32>, second: Option<u32>) -> Option<u32>
    ensures { result ≡ entities.or_line first second }
{
    match first {
        None => second,
        Some(line) => Some(line),
    }
}

/// An object or function that is declared once more: its type is the composite of those that its declarations gave it (ISO C99,
/// 6.2.7p3).
pub fn declared_again(
    alloc: Global,
    ty: &Ty,
    has_content: bool,
    tentative: Option<u32>,
    before: &Thing,
) -> Result<Thing, Memory>
    ensures { IfOk result (λ made. view_thing made ≡ declare.declared_again (view_type ty.now) has_content tentative (view_thing before.now)) }
{
    let name = before.name.copy()?;
    let ty = composite(alloc, ty, &before.ty)?.into_inner();
    Ok(Thing {
        name,
        linkage: before.linkage,
        is_function: before.is_function,
        number: before.number,
        ty,
        is_defined: has_content || before.is_defined,
        tentative: or_line(before.tentative, tentative),
    })
}

/// The type that a declaration gives beside what the unit says of the same object or function (ISO C99, 6.2.7p4). Refused only for want
/// of memory.
pub fn beside_thing(
    scope: &Scope,
    linkage: Linkage,
    name: &Name,
    ty: &Ty,
) -> Result<Boxed<Ty>, Memory>
    ensures { IfOk result (λ made. view_type made ≡ declare.beside_thing (view_type ty.now) (declare.linked_thing linkage name.now (view_scope scope.now).things)) }
{
    if !is_linked(linkage) {
        return ty.copy(scope.alloc);
    }
    match thing_named(scope, name) {
        None => ty.copy(scope.alloc),
        Some(one) => composite(scope.alloc, ty, &one.ty),
    }
}
