//! Objects of a unit (ISO C99, 6.2.4, 6.9.2).
#![tactic(auto, unfolding(cx_scope::specs::Views::view_scope))]

ghost use Rattle.std.specs.Prelude.{◌≡◌, IfOk, OnOk, option_map};
ghost use Rattle.cx_core.specs.Views.{view_object, view_puts, view_type};
ghost use Rattle.cx_entities.specs.Entities as entities;
ghost use Rattle.cx_scope.specs.Views.{view_scope};

use cr_base::{Items, Memory, Name};
use cx_core::{CoreObject, Linkage, Put, Ty};
use cx_scope::Scope;
use std::alloc::Global;

// Nothing is stored in an object yet, where it lives as long as the program.
fn puts_at_first(alloc: Global, is_static: bool) -> Option<Items<Put>>
    ensures { option_map view_puts result ≡ entities.puts_at_first is_static }
{
    if is_static {
        Some(Items::new(alloc))
    } else {
        None
    }
}

fn new_object(
    scope: &Scope,
    name: &Name,
    ty: &Ty,
    linkage: Linkage,
    is_static: bool,
) -> Result<CoreObject, Memory>
    ensures { IfOk result (λ made. view_object made ≡ entities.new_object (view_scope scope.now) name.now (view_type ty.now) linkage is_static) }
{
    let name = name.copy()?;
    let ty = ty.copy(scope.alloc)?.into_inner();
    Ok(CoreObject {
        object: scope.next_object,
        unit: scope.unit,
        name: Some(name),
        is_text: false,
        ty,
        linkage,
        puts: puts_at_first(scope.alloc, is_static),
    })
}

/// An object comes into being. Refused only for want of memory.
pub(crate) fn add_object(
    scope: &mut Scope,
    name: &Name,
    ty: &Ty,
    linkage: Linkage,
    is_static: bool,
) -> Result<(), Memory>
    ensures added { OnOk result (view_scope scope.new ≡ entities.with_new_object name.now (view_type ty.now) linkage is_static (view_scope scope.old)) }
    ensures types { (view_scope scope.new).types ≡ (view_scope scope.old).types }
{
    let number = scope.next_object;
    if number == u32::MAX {
        return Err(Memory);
    }
    let made = new_object(scope, name, ty, linkage, is_static)?;
    scope.objects.push(made)?;
    scope.next_object = number + 1;
    Ok(())
}
