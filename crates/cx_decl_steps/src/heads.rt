//! Heads and bodies of function definitions (ISO C99, 6.9.1).

ghost use Rattle.std.specs.Prelude.{◌≡◌, true, reverse, map, IfOk, OnOk};
ghost use Rattle.cx_context.specs.Checks.{Checks};
ghost use Rattle.cx_context.specs.Views.{scope_of};
ghost use Rattle.cx_contents.specs.Contents as contents;
ghost use Rattle.cx_core.specs.Views.{view_function, view_stmt, view_type};
ghost use Rattle.cx_decl_steps.specs.Kept.{numbers_of};
ghost use Rattle.cx_decl_steps.specs.Steps as steps;
ghost use Rattle.cx_decl_steps.specs.Views.{view_head};
ghost use Rattle.cx_entities.specs.Views.{view_declaring};
ghost use Rattle.cx_rules.specs.Declare as declare;
ghost use Rattle.cx_rules.specs.UnitWalk as unit;
ghost use Rattle.cx_shapes.specs.Views.{view_shape, view_specs, view_step};

use cr_base::{Boxed, Items, Memory, Name, Stop};
use cx_contents::{begin_body, define_function, end_body};
use cx_context::Context;
use cx_core::{CoreStmt, Fun, Linkage, Ty};
use cx_entities::{Declaring, clashes, function_number, is_typedef, joined_type, linkage_of};
use cx_rules::SpecsPlace;
use cx_shapes::{Shape, Specs, Step};
use cx_stmt_breaks::head_rule;
use std::alloc::Global;

/// The head of a function definition, as its body and its end need it (ISO C99, 6.9.1).
#[derive(Drop)]
pub struct Head {
    /// How many declarations there were before its declarator.
    pub count: u64,
    /// Where the scope around it began.
    pub begins: u64,
    pub name: Name,
    pub linkage: Linkage,
    /// The number of the function.
    pub number: u32,
    /// Its type as it is written.
    pub ty: Boxed<Ty>,
    /// The objects of its parameters.
    pub params: Items<u32>,
}

/// The name of a declarator, or no bytes where it has none.
pub fn name_or_none(alloc: Global, name: Option<Name>) -> Name
    ensures { result ≡ unit.name_or_none name }
{
    match name {
        None => Name::of(Vec::new(alloc)),
        Some(name) => name,
    }
}

// The function is declared, and the scope of its body begins.
fn define_in(context: &mut Context, one: Declaring<'_>, written: &Ty) -> Result<(), Memory>
    ensures { OnOk result (scope_of context.new ≡ contents.with_function (view_declaring one.entry) (view_type written.now) (scope_of context.old)) }
{
    define_function(&mut context.scope, one, written)?;
    Ok(())
}

fn begin_in(context: &mut Context, derivation: Items<Step>) -> Result<Items<u32>, Memory>
    ensures scope { OnOk result (scope_of context.new ≡ steps.body_begun (reverse (map view_step derivation)) (scope_of context.old)) }
    ensures numbers { IfOk result (λ numbers. numbers ≡ numbers_of (declare.own_params (reverse (map view_step derivation)))) }
{
    let numbers = begin_body(&mut context.scope, derivation)?;
    Ok(numbers)
}

fn head_declared(
    context: &mut Context,
    one: Declaring<'_>,
    derivation: Items<Step>,
    written: &Ty,
) -> Result<Items<u32>, Memory>
    ensures scope { OnOk result (scope_of context.new ≡ declare.with_head (view_declaring one.entry) (view_type written.now) (reverse (map view_step derivation)) (scope_of context.old)) }
    ensures numbers { IfOk result (λ numbers. numbers ≡ numbers_of (declare.own_params (reverse (map view_step derivation)))) }
{
    define_in(context, one, written)?;
    let numbers = begin_in(context, derivation)?;
    Ok(numbers)
}

fn head_made(
    context: &mut Context,
    one: Declaring<'_>,
    derivation: Items<Step>,
    written: Boxed<Ty>,
) -> Result<Head, Memory>
    ensures scope { OnOk result (scope_of context.new ≡ declare.with_head (view_declaring one.entry) (view_type written) (reverse (map view_step derivation)) (scope_of context.old)) }
    ensures head { IfOk result (λ head. view_head head ≡ steps.head_of (scope_of context.old) (view_declaring one.entry) (reverse (map view_step derivation)) (view_type written)) }
{
    let scope = context.scope();
    let count = scope.mark();
    let begins = scope.begins();
    let number = function_number(scope, one);
    let name = one.name.copy()?;
    let params = head_declared(context, one, derivation, written.get())?;
    Ok(Head {
        count,
        begins,
        name,
        linkage: one.linkage,
        number,
        ty: written,
        params,
    })
}

fn head_as(
    context: &mut Context,
    one: Declaring<'_>,
    derivation: Items<Step>,
    written: Boxed<Ty>,
) -> Result<Head, Stop>
    ensures { Checks view_head result (scope_of context.new) (steps.head_as (view_declaring one.entry) (reverse (map view_step derivation)) (view_type written) (scope_of context.old) (scope_of context.old)) }
{
    let t = written.get();
    let clash = clashes(
        context.scope(),
        one.name,
        is_typedef(one.specs),
        t,
        one.linkage,
        true,
    );
    let known = context.known();
    if let Some(rule) = head_rule(known, one.specs, t, derivation.as_slice(), clash) {
        return Err(context.refused(rule, one.line));
    }
    let made = head_made(context, one, derivation, written)?;
    Ok(made)
}

/// The declarator of a definition has ended: the function is declared, and the scope of its body begins (ISO C99, 6.2.1p4, 6.9.1).
pub fn head_seen(
    context: &mut Context,
    line: u32,
    specs: &Specs,
    shape: Shape,
    written: Boxed<Ty>,
) -> Result<Head, Stop>
    ensures { Checks view_head result (scope_of context.new) (steps.head_kept (view_specs specs.now) line (view_shape shape) (view_type written) (scope_of context.old)) }
{
    let Shape {
        name,
        steps: derivation,
    } = shape;
    let name = name_or_none(context.alloc(), name);
    let t = written.get();
    let before = context.ordinary(&name);
    let linkage = linkage_of(SpecsPlace::Definition, specs, t, before);
    let own = joined_type(context.alloc(), linkage, t, before)?;
    let one = Declaring {
        place: SpecsPlace::Definition,
        specs,
        name: &name,
        line,
        ty: own.get(),
        linkage,
        has_init: true,
    };
    head_as(context, one, derivation, written)
}

fn function_of(unit: u32, head: Head, body: Boxed<CoreStmt>) -> Fun
    ensures { view_function result ≡ steps.function_in unit (view_head head) (view_stmt body) }
{
    let Head {
        name,
        linkage,
        number,
        ty,
        params,
        ..
    } = head;
    Fun {
        function: number,
        name,
        unit,
        linkage,
        ty: ty.into_inner(),
        params,
        body: body.into_inner(),
    }
}

fn end_in(context: &mut Context, count: u64, begins: u64, one: Fun) -> Result<(), Memory>
    ensures { OnOk result (scope_of context.new ≡ contents.body_ended count begins (view_function one) (scope_of context.old)) }
{
    end_body(&mut context.scope, count, begins, one)?;
    Ok(())
}

/// The body of a function has ended: its parameters and its labels are out of scope (ISO C99, 6.2.1p3, p4).
#[tactic(auto, unfolding(cx_rules::specs::Readings::check_chain, cx_rules::specs::Readings::check_here, cx_rules::specs::Readings::check_becomes))]
pub fn body_ended(context: &mut Context, head: Head, body: Boxed<CoreStmt>) -> Result<(), Stop>
    ensures { Checks (λ (_ : Unit {0}). tt) result (scope_of context.new) (steps.body_ended (view_head head) (view_stmt body) (scope_of context.old)) }
{
    let count = head.count;
    let begins = head.begins;
    let one = function_of(context.scope().unit(), head, body);
    end_in(context, count, begins, one)?;
    Ok(())
}
