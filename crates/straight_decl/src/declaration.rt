//! Typed objects, from their declarations (ISO C99, 6.7 and 6.9.2).

ghost use Rattle.std.specs.Prelude.{◌≡◌, [], ◌∷◌, Some, map, option_map, IfOk, MatchResult};
ghost use Rattle.straight_core.specs.Trees.{put};
ghost use Rattle.straight_core.specs.Views.{view_expr, view_object, view_put};
ghost use Rattle.straight_decl.specs.CoreOf as spec;
ghost use Rattle.straight_decl.specs.Given.{Declares, Gives, Stops, scope_of};
ghost use Rattle.straight_tree.specs.Views.{decl_view, declarator_view, external_view, init_declarator_view, initialiser_view};

use crate::expr::constant;
use crate::function::{declares_putchar, is_int};
use crate::scope::{Scope, int_type, is_declared, not_built};
use cr_base::{Items, Memory, Name, Stop};
use std::alloc::Global;
use straight_core::{CoreExpr, CoreObject, Linkage, Put, Spot};
use straight_tree::{Decl, Declarator, Expr, External, InitDeclarator, Initialiser};

/// What is stored in a whole object of type `int`.
fn put_of(alloc: Global, value: CoreExpr) -> Result<Items<Put>, Memory>
    ensures { IfOk result (λ puts. map view_put puts ≡ put (record { byte = 0; bit = 0; width = 0 }) spec.int_type (view_expr value) ∷ []) }
{
    let mut puts = Items::new(alloc);
    puts.push(Put {
        spot: Spot {
            byte: 0,
            bit: 0,
            width: 0,
        },
        ty: int_type(),
        value,
    })?;
    Ok(puts)
}

/// What an initialiser stores: nothing where there is none, or a constant of type `int` (6.7.8).
fn puts_of(alloc: Global, unit: u32, init: &Option<Initialiser>) -> Result<Items<Put>, Stop>
    ensures { Gives (λ puts. map view_put puts) unit result (spec.puts_of unit (option_map initialiser_view init.now)) }
{
    match init {
        None => Ok(Items::new(alloc)),
        Some(Initialiser::Expr(Expr::Number { value, ty, lines })) => {
            let value = constant(unit, *value, *ty, lines)?;
            Ok(put_of(alloc, value)?)
        }
        Some(_) => Err(not_built(unit)),
    }
}

/// A copy of a declared name that isn't declared yet.
fn new_name(unit: u32, scope: &Scope, declarator: &Declarator) -> Result<Name, Stop>
    ensures { Gives (λ name. name) unit result (spec.new_name (scope_of scope.now) (declarator_view declarator.now)) }
{
    let Declarator::Identifier { name, .. } = declarator else {
        return Err(not_built(unit));
    };
    if is_declared(name.bytes(), scope) {
        return Err(not_built(unit));
    }
    Ok(name.copy()?)
}

/// An object of type `int` with external linkage, which has the next number.
fn object_of(unit: u32, scope: &Scope, name: Name, puts: Items<Put>) -> Result<CoreObject, Memory>
    ensures { IfOk result (λ one. view_object one ≡ spec.object_of unit (scope_of scope.now) name (map view_put puts)) }
{
    let Ok(object) = u32::try_from(scope.objects.len()) else {
        return Err(Memory);
    };
    Ok(CoreObject {
        object,
        unit,
        name: Some(name),
        is_text: false,
        ty: int_type(),
        linkage: Linkage::External,
        puts: Some(puts),
    })
}

/// The object of a declarator with its initialiser.
fn initialised(
    alloc: Global,
    unit: u32,
    scope: &Scope,
    one: &InitDeclarator,
) -> Result<CoreObject, Stop>
    ensures { Gives view_object unit result (spec.listed_object unit (scope_of scope.now) (init_declarator_view one.now ∷ [])) }
{
    let name = new_name(unit, scope, &one.declarator)?;
    let puts = puts_of(alloc, unit, &one.init)?;
    Ok(object_of(unit, scope, name, puts)?)
}

fn listed_object(
    alloc: Global,
    unit: u32,
    scope: &Scope,
    list: &[InitDeclarator],
) -> Result<CoreObject, Stop>
    ensures { Gives view_object unit result (spec.listed_object unit (scope_of scope.now) (map init_declarator_view list.now)) }
{
    match list {
        [] => Err(not_built(unit)),
        [one] => initialised(alloc, unit, scope, one),
        [_, _, ..] => Err(not_built(unit)),
    }
}

/// The object that a declaration declares: `int x;` or `int x = N;`.
fn core_object(alloc: Global, unit: u32, scope: &Scope, part: &External) -> Result<CoreObject, Stop>
    ensures { Gives view_object unit result (spec.core_object unit (scope_of scope.now) (external_view part.now)) }
{
    let External::Decl(decl) = part else {
        return Err(not_built(unit));
    };
    if !is_int(&decl.specs) {
        return Err(not_built(unit));
    }
    listed_object(alloc, unit, scope, decl.list.as_slice())
}

fn lists_putchar(list: &[InitDeclarator]) -> bool
    ensures { result ≡ spec.lists_putchar (map init_declarator_view list.now) }
{
    match list {
        [] => false,
        [one] => one.init.is_none() && declares_putchar(&one.declarator),
        [_, _, ..] => false,
    }
}

/// Whether a part is the declaration `int putchar(int);`.
pub(crate) fn is_putchar_declared(part: &External) -> bool
    ensures { result ≡ spec.declares_putchar (external_view part.now) }
{
    let External::Decl(decl) = part else {
        return false;
    };
    is_int(&decl.specs) && lists_putchar(decl.list.as_slice())
}

/// The name of an object.
fn name_of_object(alloc: Global, object: &CoreObject) -> Result<Name, Memory>
    ensures { IfOk result (λ name. name ≡ spec.name_or_empty object.now.name) }
{
    match &object.name {
        Some(name) => name.copy(),
        None => Ok(Name::of(Vec::new(alloc))),
    }
}

/// Adds the object that a part declares, and its name to the scope.
fn declare(
    alloc: Global,
    unit: u32,
    scope: &mut Scope,
    objects: &mut Items<CoreObject>,
    part: &External,
) -> Result<(), Stop>
    ensures declared { MatchResult result
        (λ _. Declares (spec.core_object unit (scope_of scope.old) (external_view part.now)) (scope_of scope.old) (scope_of scope.new) (map view_object objects.old) (map view_object objects.new))
        (λ stop. Stops unit stop (spec.core_object unit (scope_of scope.old) (external_view part.now))) }
{
    let object = core_object(alloc, unit, scope, part)?;
    let name = name_of_object(alloc, &object)?;
    scope.objects.push(name)?;
    objects.push(object)?;
    Ok(())
}

/// The objects that parts declare, in order. Their names are in the scope afterwards.
pub(crate) fn core_objects(
    alloc: Global,
    unit: u32,
    scope: &mut Scope,
    parts: &[External],
) -> Result<Items<CoreObject>, Stop>
    ensures objects { Gives (λ objects. map view_object objects) unit result (spec.core_objects unit (scope_of scope.old) (map external_view parts.now)) }
    ensures scope { IfOk result (λ objects. scope_of scope.new ≡ spec.scope_behind (scope_of scope.old) (map view_object objects)) }
{
    let mut objects = Items::new(alloc);
    for part in parts {
        declare(alloc, unit, scope, &mut objects, part)?;
    }
    Ok(objects)
}
