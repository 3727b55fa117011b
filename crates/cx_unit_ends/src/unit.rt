//! Typed units (ISO C99, 6.9).
#![tactic(auto, unfolding(cx_scope::specs::Views::view_scope))]

ghost use Rattle.std.specs.Prelude.{◌≡◌, [], map, IfOk, OnOk};
ghost use Rattle.cx_core.specs.Views.{view_key, view_mention, view_object, view_outer, view_unit};
ghost use Rattle.cx_rules.specs.Declare as declare;
ghost use Rattle.cx_scope.specs.Views.{view_scope};
ghost use Rattle.cx_unit_ends.specs.Ends as ends;

use crate::mentions::final_mentions;
use crate::order::all_objects;
use crate::types::{keys_of, outers_of};
use cr_base::{Items, Memory};
use cx_core::{CoreObject, CoreUnit, DeclaredOrder, Key, Mention, Outer};
use cx_scope::{Objects, Scope};
use std::mem;

// The mentions as they are at the end, which are taken out of the scope.
fn take_mentions(scope: &mut Scope) -> Result<Items<Mention>, Memory>
    ensures mentions { IfOk result (λ made. map view_mention made ≡ map (ends.final_mention (view_scope scope.old).things) (view_scope scope.old).mentions) }
    ensures scope { OnOk result (view_scope scope.new ≡ record (view_scope scope.old) { mentions = [] }) }
{
    let alloc = scope.alloc;
    let mentions = mem::replace(&mut scope.mentions, Vec::new(alloc));
    final_mentions(alloc, &scope.things, mentions)
}

// The objects as they are at the end, those of literals among them, which are taken out of the scope.
fn take_objects(scope: &mut Scope) -> Result<Items<CoreObject>, Memory>
    ensures objects { IfOk result (λ made. map view_object made ≡
        ends.objects_of (view_scope scope.old).unit (view_scope scope.old).things (view_scope scope.old).objects (view_scope scope.old).literals) }
    ensures scope { OnOk result (view_scope scope.new ≡ record (view_scope scope.old) { objects = []; literals = [] }) }
{
    let alloc = scope.alloc;
    let objects = mem::replace(&mut scope.objects, Objects::new(alloc)).into_vec();
    let literals = mem::replace(&mut scope.literals, Items::new(alloc));
    all_objects(alloc, scope.unit, &scope.things, objects, literals)
}

fn unit_with(
    scope: Scope,
    objects: Items<CoreObject>,
    externals: Items<Outer>,
    mentions: Items<Mention>,
    keys: Items<Key>,
) -> CoreUnit
    ensures { view_unit result ≡ ends.unit_with (view_scope scope) (map view_object objects) (map view_outer externals) (map view_mention mentions) (map view_key keys) }
{
    CoreUnit {
        types: scope.types,
        objects,
        functions: scope.functions,
        externals,
        mentions,
        order: DeclaredOrder {
            things: keys,
            completed: scope.completed,
        },
    }
}

// The unit with these functions and mentions, and what has linkage in this order.
fn unit_by(
    scope: Scope,
    externals: Items<Outer>,
    mentions: Items<Mention>,
    keys: Items<Key>,
) -> Result<CoreUnit, Memory>
    ensures { IfOk result (λ made. view_unit made ≡ ends.unit_by (view_scope scope) (map view_outer externals) (map view_mention mentions) (map view_key keys)) }
{
    let mut scope = scope;
    let objects = take_objects(&mut scope)?;
    Ok(unit_with(scope, objects, externals, mentions, keys))
}

// The unit with these functions, and what has linkage in this order.
fn unit_behind(scope: Scope, externals: Items<Outer>, keys: Items<Key>) -> Result<CoreUnit, Memory>
    ensures { IfOk result (λ made. view_unit made ≡ ends.unit_behind (view_scope scope) (map view_outer externals) (map view_key keys)) }
{
    let mut scope = scope;
    let mentions = take_mentions(&mut scope)?;
    unit_by(scope, externals, mentions, keys)
}

/// The typed unit of the scope at its end (ISO C99, 6.9). Refused only for want of memory.
pub fn unit_of(scope: Scope) -> Result<CoreUnit, Memory>
    ensures { IfOk result (λ made. view_unit made ≡ declare.unit_of (view_scope scope)) }
{
    let externals = outers_of(scope.alloc, scope.things.as_slice())?;
    let keys = keys_of(scope.alloc, scope.things.as_slice())?;
    unit_behind(scope, externals, keys)
}
