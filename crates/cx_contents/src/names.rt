//! Names whose type an initialiser completes (ISO C99, 6.7.8p22).
#![tactic(auto, unfolding(cx_scope::specs::Views::view_scope))]

ghost use Rattle.std.specs.Prelude.{◌≡◌, map, reverse, slice_get, option_map, IfOk, OnOk};
ghost use Rattle.cx_scope.specs.Names.{newest};
ghost use Rattle.cx_contents.specs.Contents as contents;
ghost use Rattle.cx_core.specs.Views.{view_type};
ghost use Rattle.cx_scope.specs.Views.{view_declared, view_meant, view_scope};

use cr_base::{Memory, Name};
use cx_core::Ty;
use cx_scope::{Declarations, Declared, Meant, Scope};
use std::alloc::Global;

fn is_object(meant: &Meant) -> bool
    ensures { result ≡ contents.is_object_meant (view_meant meant.now) }
{
    match meant {
        Meant::Object { .. } => true,
        Meant::Function { .. } => false,
        Meant::TypeName(_) => false,
        Meant::Enumerator(_) => false,
        Meant::Tag { .. } => false,
    }
}

fn declares_object(one: &Declared, name: &Name) -> bool
    ensures { result ≡ contents.declares_object name.now (view_declared one.now) }
{
    one.name.bytes() == name.bytes() && is_object(&one.meant)
}

// Where the newest declaration of an object of a name stands, by a search; the oldest stands first.
#[tactic(auto, using(crate::proofs::Newest::older_count))]
fn searched_object(declared: &[Declared], name: &Name) -> Option<usize>
    ensures { result ≡ newest (contents.declares_object name.now) (reverse (map view_declared declared.now)) }
{
    let mut left = declared;
    while let Some((last, older)) = left.split_last() {
        if declares_object(last, name) {
            return Some(older.len());
        }
        left = older;
    }
    None
}

// Where the newest declaration of an object of a name stands: as a rule, it is the newest of the name.
fn newest_object(declared: &Declarations, name: &Name) -> Option<usize>
    ensures { result ≡ newest (contents.declares_object name.now) (reverse (map view_declared declared.now)) }
{
    let Some(place) = declared.place_of(name) else {
        return None;
    };
    if is_object_at(declared, place) {
        return Some(place);
    }
    searched_object(declared.as_slice(), name)
}

fn is_object_at(declared: &Declarations, place: usize) -> bool
    ensures { result ≡ contents.is_object_in (option_map view_declared (slice_get declared.now place)) }
{
    match declared.get(place) {
        None => false,
        Some(one) => is_object(&one.meant),
    }
}

// The meaning of a name of an object with another type.
fn retyped(alloc: Global, meant: &Meant, ty: &Ty) -> Result<Option<Meant>, Memory>
    ensures { IfOk result (λ made. option_map view_meant made ≡ contents.object_retyped (view_type ty.now) (view_meant meant.now)) }
{
    match meant {
        Meant::Object {
            object,
            register,
            linkage,
            ..
        } => {
            let ty = ty.copy(alloc)?.into_inner();
            Ok(Some(Meant::Object {
                object: *object,
                ty,
                register: *register,
                linkage: *linkage,
            }))
        }
        Meant::Function { .. } => Ok(None),
        Meant::TypeName(_) => Ok(None),
        Meant::Enumerator(_) => Ok(None),
        Meant::Tag { .. } => Ok(None),
    }
}

/// The newest declaration of an object of a name gets a type. Refused only for want of memory.
pub(crate) fn redeclare(scope: &mut Scope, name: &Name, ty: &Ty) -> Result<(), Memory>
    ensures named { OnOk result (view_scope scope.new ≡ contents.with_redeclared name.now (view_type ty.now) (view_scope scope.old)) }
    ensures types { (view_scope scope.new).types ≡ (view_scope scope.old).types }
{
    let Some(index) = newest_object(&scope.declared, name) else {
        return Ok(());
    };
    let Some(before) = scope.declared.get(index) else {
        return Err(Memory);
    };
    let Some(meant) = retyped(scope.alloc, &before.meant, ty)? else {
        return Err(Memory);
    };
    let name = before.name.copy()?;
    scope.declared.set(index, Declared { name, meant });
    Ok(())
}
