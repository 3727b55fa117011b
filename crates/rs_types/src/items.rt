//! Items that are well typed.

ghost use Rattle.std.specs.Prelude.{◌≡◌, ◌&&◌, false, [], ◌∷◌, map, reverse, bytes_eq};
ghost use Rattle.std.specs.List.{list_all, list_any};
ghost use Rattle.rs_layout.specs.Layouts.{AreAligned, IsAligned, ModulesAreAligned, by_front};
ghost use Rattle.rs_mean.specs.Scalars.{fits_integer};
ghost use Rattle.rs_mean.specs.Typing as typing;
ghost use Rattle.rs_text.specs.declared.integer.IntegerTy.TheVariants.{I8};
ghost use Rattle.rs_text.specs.Tree.{stmts, tys};
ghost use Rattle.rs_text.specs.Valid.{all_differ};
ghost use Rattle.rs_types.specs.Bodies as bodies;
ghost use Rattle.rs_tree.specs.Views.{field_view, function_view, item_view, local_view, module_view, outer_view, record_view, static_view, stmt_view};

use crate::heads::own_head_typed;
use crate::known::outer_typed;
use crate::names::{names_differ, names_typed};
use cr_base::{Boxed, Int, Items, Name};
use rs_kinds::{HeldScope, Labels, is_scalar_type, result_stands, stmts_typed, type_stands};
use rs_layout::{laid_in_front, record_in_front};
use rs_mean::fits_integer;
use rs_tree::{Field, Function, IntegerTy, Item, Local, Module, Outer, RStmt, RTy, Record, Static};

// ---- records

fn fields_have_name(fields: &[Field], name: &Name) -> bool
    ensures { result ≡ list_any (λ other. bytes_eq other name.now) (map (λ field. field.name) (map field_view fields.now)) }
{
    for field in fields {
        if field.name.bytes() == name.bytes() {
            return true;
        }
    }
    false
}

fn fields_differ(fields: &[Field]) -> bool
    ensures { result ≡ all_differ (map (λ field. field.name) (map field_view fields.now)) }
{
    let mut rest = fields;
    while let [first, others @ ..] = rest {
        if fields_have_name(others, &first.name) {
            return false;
        }
        rest = others;
    }
    true
}

// Whether the type of a field stands, and a record in it stands earlier in the same module.
fn field_stands(modules: &[Module], home: &Name, earlier: &[Item], field: &Field) -> bool
    requires modules { ModulesAreAligned (map module_view modules.now) }
    requires earlier { AreAligned (reverse (map item_view earlier.now)) }
    ensures { result ≡ typing.field_stands (map module_view modules.now) (by_front home.now (reverse (map item_view earlier.now))) (field_view field.now) }
{
    type_stands(modules, field.ty.get()) && laid_in_front(home, earlier, field.ty.get()).is_some()
}

fn fields_stand(modules: &[Module], home: &Name, earlier: &[Item], fields: &[Field]) -> bool
    requires modules { ModulesAreAligned (map module_view modules.now) }
    requires earlier { AreAligned (reverse (map item_view earlier.now)) }
    ensures { result ≡ list_all (typing.field_stands (map module_view modules.now) (by_front home.now (reverse (map item_view earlier.now)))) (map field_view fields.now) }
{
    for field in fields {
        if !field_stands(modules, home, earlier, field) {
            return false;
        }
    }
    true
}

fn has_fields(fields: &[Field]) -> bool
    ensures { result ≡ typing.has_fields (map field_view fields.now) }
{
    match fields {
        [] => false,
        [_, ..] => true,
    }
}

fn record_typed(modules: &[Module], unit: &Module, earlier: &[Item], one: &Record) -> bool
    requires modules { ModulesAreAligned (map module_view modules.now) }
    requires earlier { AreAligned (reverse (map item_view earlier.now)) }
    requires one { IsAligned one.now.align }
    ensures { result ≡ typing.record_typed (map module_view modules.now) (module_view «unit».now) (reverse (map item_view earlier.now)) (record_view one.now) }
{
    let fields = one.fields.as_slice();
    has_fields(fields)
        && fields_differ(fields)
        && fields_stand(modules, &unit.name, earlier, fields)
        && record_in_front(&unit.name, earlier, one).is_some()
}

// ---- static objects

fn are_bytes(values: &[Int]) -> bool
    ensures { result ≡ list_all (fits_integer I8) values.now }
{
    for value in values {
        if !fits_integer(IntegerTy::I8, *value) {
            return false;
        }
    }
    true
}

fn values_fit(values: &Option<Items<Int>>) -> bool
    ensures { result ≡ typing.values_fit values.now }
{
    match values {
        None => true,
        Some(values) => are_bytes(values.as_slice()),
    }
}

fn static_typed(modules: &[Module], object: &Static) -> bool
    requires { ModulesAreAligned (map module_view modules.now) }
    ensures { result ≡ typing.static_typed (map module_view modules.now) (static_view object.now) }
{
    type_stands(modules, object.ty.get()) && values_fit(&object.values)
}

fn outers_typed(modules: &[Module], outers: &[Outer]) -> bool
    requires { ModulesAreAligned (map module_view modules.now) }
    ensures { result ≡ list_all (typing.outer_typed (map module_view modules.now)) (map outer_view outers.now) }
{
    for outer in outers {
        if !outer_typed(modules, outer) {
            return false;
        }
    }
    true
}

// ---- functions

fn params_stand(modules: &[Module], params: &[Local]) -> bool
    requires { ModulesAreAligned (map module_view modules.now) }
    ensures { result ≡ typing.params_stand (map module_view modules.now) (tys (map (λ param. param.ty) (map local_view params.now))) }
{
    for param in params {
        if !(is_scalar_type(param.ty.get()) && type_stands(modules, param.ty.get())) {
            return false;
        }
    }
    true
}

fn locals_stand(modules: &[Module], locals: &[Local]) -> bool
    requires { ModulesAreAligned (map module_view modules.now) }
    ensures { result ≡ list_all (λ local. typing.type_stands (map module_view modules.now) local.ty) (map local_view locals.now) }
{
    for local in locals {
        if !type_stands(modules, local.ty.get()) {
            return false;
        }
    }
    true
}

fn types_stand(modules: &[Module], function: &Function) -> bool
    requires { ModulesAreAligned (map module_view modules.now) }
    ensures { result ≡ typing.types_stand (map module_view modules.now) (function_view function.now) }
{
    params_stand(modules, function.params.as_slice())
        && result_stands(modules, &function.result)
        && locals_stand(modules, function.locals.as_slice())
}

fn gives_value(stmt: &RStmt) -> bool
    ensures { result ≡ typing.gives_value (stmt_view stmt.now) }
{
    match stmt {
        RStmt::Return(value) => value.is_some(),
        _ => false,
    }
}

// Whether the last statement gives a value.
#[tactic(auto, using(crate::proofs::Bodies::last_gives))]
fn ends_with_value(body: &[RStmt]) -> bool
    ensures { result ≡ typing.ends_with_value (stmts (map stmt_view body.now)) }
{
    last_gives_value(body)
}

fn last_gives_value(body: &[RStmt]) -> bool
    ensures { result ≡ bodies.ends_from false (map stmt_view body.now) }
{
    let mut ends = false;
    for stmt in body {
        ends = gives_value(stmt);
    }
    ends
}

fn body_ends(function: &Function) -> bool
    ensures { result ≡ typing.body_ends (function_view function.now).result (function_view function.now).body }
{
    function.result.is_none() || ends_with_value(function.body.as_slice())
}

fn body_typed(modules: &[Module], function: &Function) -> bool
    requires { ModulesAreAligned (map module_view modules.now) }
    ensures { result ≡ typing.stmts_typed (typing.scope_of (map module_view modules.now) (function_view function.now)) (function_view function.now).body }
{
    let labels = Labels::Outermost;
    let scope = HeldScope {
        modules,
        params: function.params.as_slice(),
        locals: function.locals.as_slice(),
        given: &function.result,
        labels: &labels,
    };
    stmts_typed(scope, &function.body)
}

fn function_typed(modules: &[Module], unit: &Module, function: &Function) -> bool
    requires { ModulesAreAligned (map module_view modules.now) }
    ensures { result ≡ typing.function_typed (map module_view modules.now) (module_view «unit».now) (function_view function.now) }
{
    own_head_typed(function)
        && names_typed(unit, function.params.as_slice(), function.locals.as_slice())
        && types_stand(modules, function)
        && body_typed(modules, function)
        && body_ends(function)
}

// ---- items

fn item_typed(modules: &[Module], unit: &Module, earlier: &[Item], item: &Item) -> bool
    requires modules { ModulesAreAligned (map module_view modules.now) }
    requires earlier { AreAligned (reverse (map item_view earlier.now)) }
    requires item { AreAligned (item_view item.now ∷ []) }
    ensures { result ≡ typing.item_typed (map module_view modules.now) (module_view «unit».now) (reverse (map item_view earlier.now)) (item_view item.now) }
{
    match item {
        Item::Record(one) => record_typed(modules, unit, earlier, one),
        Item::Static(object) => static_typed(modules, object),
        Item::Extern(outers) => outers_typed(modules, outers.as_slice()),
        Item::Function(function) => function_typed(modules, unit, function),
    }
}

/// Whether an item of a module is well typed behind the earlier ones, and its names are new.
pub(crate) fn item_stands(modules: &[Module], unit: &Module, earlier: &[Item], item: &Item) -> bool
    requires modules { ModulesAreAligned (map module_view modules.now) }
    requires earlier { AreAligned (reverse (map item_view earlier.now)) }
    requires item { AreAligned (item_view item.now ∷ []) }
    ensures { result ≡ (typing.names_differ (reverse (map item_view earlier.now)) (item_view item.now)
        && typing.item_typed (map module_view modules.now) (module_view «unit».now) (reverse (map item_view earlier.now)) (item_view item.now)) }
{
    names_differ(earlier, item) && item_typed(modules, unit, earlier, item)
}
