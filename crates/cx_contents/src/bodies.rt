//! Heads and bodies of functions (ISO C99, 6.9.1).
#![tactic(auto, unfolding(cx_scope::specs::Views::view_scope))]

ghost use Rattle.std.specs.Prelude.{◌≡◌, ◌++◌, [], Some, map, option_map, reverse, IfOk, OnOk};
ghost use Rattle.cx_contents.specs.Contents as contents;
ghost use Rattle.cx_core.specs.Views.{view_function, view_object, view_type};
ghost use Rattle.cx_entities.specs.Views.{view_declaring};
ghost use Rattle.cx_rules.specs.Scope.{a_function, no_labels};
ghost use Rattle.cx_rules.specs.Shapes.{last_step};
ghost use Rattle.cx_scope.specs.Views.{view_declared, view_labels, view_meant, view_param, view_scope};
ghost use Rattle.cx_shapes.specs.Views.{view_step};

use cr_base::{Boxed, Items, Memory, Name};
use cx_core::{CoreObject, Fun, Linkage, Ty};
use cx_entities::{Declaring, add_meant, declare_function, function_number, told_mention};
use cx_scope::{Declarations, Declared, Labels, Meant, Objects, Param, Scope};
use cx_shapes::Step;
use std::alloc::Global;

// What the declarator of a function brings into the scope of its body.
#[derive(Drop)]
struct Within {
    params: Items<Param>,
    // What the parameters declare, the newest first.
    declared: Items<Declared>,
}

// The step to the type of the identifier itself, which stands first.
#[tactic(auto, using(crate::proofs::Steps::first_of, crate::proofs::Steps::none_first))]
fn own_step(steps: Items<Step>) -> Option<Step>
    ensures { option_map view_step result ≡ last_step (reverse (map view_step steps)) }
{
    let mut steps = steps.into_vec();
    steps.truncate(1);
    steps.pop()
}

fn nothing_within(alloc: Global) -> Within
    ensures params { map view_param result.params ≡ [] }
    ensures declared { map view_declared result.declared ≡ [] }
{
    Within {
        params: Items::new(alloc),
        declared: Items::new(alloc),
    }
}

fn list_or_none(alloc: Global, params: Option<Items<Param>>) -> Items<Param>
    ensures { map view_param result ≡ contents.list_or_none (option_map (map view_param) params) }
{
    match params {
        None => Items::new(alloc),
        Some(params) => params,
    }
}

fn within_step(alloc: Global, step: Step) -> Within
    ensures params { map view_param result.params ≡ contents.step_params (Some (view_step step)) }
    ensures declared { map view_declared result.declared ≡ contents.step_within (Some (view_step step)) }
{
    match step {
        Step::Function { params, within, .. } => Within {
            params: list_or_none(alloc, params),
            declared: within,
        },
        Step::Pointer { .. } => nothing_within(alloc),
        Step::Array { .. } => nothing_within(alloc),
    }
}

fn within_steps(alloc: Global, steps: Items<Step>) -> Within
    ensures params { map view_param result.params ≡ contents.step_params (last_step (reverse (map view_step steps))) }
    ensures declared { map view_declared result.declared ≡ contents.step_within (last_step (reverse (map view_step steps))) }
{
    match own_step(steps) {
        None => nothing_within(alloc),
        Some(step) => within_step(alloc, step),
    }
}

fn add_within(declared: &mut Declarations, within: Items<Declared>) -> Result<(), Memory>
    ensures { OnOk result (reverse (map view_declared declared.new) ≡ map view_declared within ++ reverse (map view_declared declared.old)) }
{
    let mut within = within;
    while let Some(one) = within.pop() {
        declared.push(one)?;
    }
    Ok(())
}

fn param_object(unit: u32, alloc: Global, one: &Param) -> Result<CoreObject, Memory>
    ensures { IfOk result (λ made. view_object made ≡ contents.param_object unit (view_param one.now)) }
{
    let name = copy_name(&one.name)?;
    let ty = one.ty.copy(alloc)?.into_inner();
    Ok(CoreObject {
        object: one.object,
        unit,
        name,
        is_text: false,
        ty,
        linkage: Linkage::Nothing,
        puts: None,
    })
}

fn copy_name(name: &Option<Name>) -> Result<Option<Name>, Memory>
    ensures { IfOk result (λ copy. copy ≡ name.now) }
{
    match name {
        None => Ok(None),
        Some(name) => Ok(Some(name.copy()?)),
    }
}

fn add_params(
    alloc: Global,
    unit: u32,
    params: &[Param],
    objects: &mut Objects,
) -> Result<(), Memory>
    ensures { OnOk result (map view_object objects.new ≡ map view_object objects.old ++ map (contents.param_object unit) (map view_param params.now)) }
{
    for one in params {
        let made = param_object(unit, alloc, one)?;
        objects.push(made)?;
    }
    Ok(())
}

fn param_numbers(alloc: Global, params: &[Param]) -> Result<Items<u32>, Memory>
    ensures { IfOk result (λ numbers. numbers ≡ map (λ one. one.object) (map view_param params.now)) }
{
    let mut numbers = Items::new(alloc);
    for one in params {
        numbers.push(one.object)?;
    }
    Ok(numbers)
}

fn enter_body(scope: &mut Scope, within: Within) -> Result<Items<u32>, Memory>
    ensures begun { OnOk result (view_scope scope.new ≡ contents.body_begun (map view_declared within.declared) (map view_param within.params) (view_scope scope.old)) }
    ensures numbers { IfOk result (λ numbers. numbers ≡ map (λ one. one.object) (map view_param within.params)) }
    ensures types { (view_scope scope.new).types ≡ (view_scope scope.old).types }
{
    let begins = scope.declared.len() as u64;
    let numbers = param_numbers(scope.alloc, within.params.as_slice())?;
    add_params(
        scope.alloc,
        scope.unit,
        within.params.as_slice(),
        &mut scope.objects,
    )?;
    add_within(&mut scope.declared, within.declared)?;
    scope.begins = begins;
    scope.in_function = true;
    Ok(numbers)
}

/// The scope of a function's body begins: its parameters are objects, and what its declarator declares comes into scope (ISO C99,
/// 6.2.1p4, 6.9.1p9); gives the numbers of these objects. Refused only for want of memory, and then nothing is said but that the types
/// stay.
pub fn begin_body(scope: &mut Scope, steps: Items<Step>) -> Result<Items<u32>, Memory>
    ensures begun { OnOk result (view_scope scope.new ≡ contents.body_begun
        (contents.step_within (last_step (reverse (map view_step steps)))) (contents.step_params (last_step (reverse (map view_step steps)))) (view_scope scope.old)) }
    ensures numbers { IfOk result (λ numbers. numbers ≡ map (λ one. one.object) (contents.step_params (last_step (reverse (map view_step steps))))) }
    ensures types { (view_scope scope.new).types ≡ (view_scope scope.old).types }
{
    let within = within_steps(scope.alloc, steps);
    enter_body(scope, within)
}

fn meant_function(alloc: Global, one: Declaring<'_>, function: u32) -> Result<Boxed<Meant>, Memory>
    ensures { IfOk result (λ made. view_meant made ≡ a_function function (view_type one.entry.ty.now) one.entry.linkage) }
{
    let ty = one.ty.copy(alloc)?.into_inner();
    Boxed::new(
        alloc,
        Meant::Function {
            function,
            ty,
            linkage: one.linkage,
        },
    )
}

/// The declarator of a definition has ended, with this type as it is written: the function is declared, and its name comes into scope.
/// Refused only for want of memory, and then nothing is said but that the types stay.
pub fn define_function(scope: &mut Scope, one: Declaring<'_>, written: &Ty) -> Result<(), Memory>
    ensures defined { OnOk result (view_scope scope.new ≡ contents.with_function (view_declaring one.entry) (view_type written.now) (view_scope scope.old)) }
    ensures types { (view_scope scope.new).types ≡ (view_scope scope.old).types }
{
    let number = function_number(scope, one);
    let made = told_mention(scope, one, written, true)?;
    declare_function(scope, one, true)?;
    scope.mentions.push(made)?;
    let meant = meant_function(scope.alloc, one, number)?;
    add_meant(scope, one.name, meant)
}

fn no_labels(alloc: Global) -> Labels
    ensures { view_labels result ≡ no_labels }
{
    Labels {
        labels: Items::new(alloc),
        cases: Items::new(alloc),
        has_default: false,
    }
}

// The scope of a body ends, with its labels.
fn close_body(scope: &mut Scope, count: u64, begins: u64) -> Result<(), Memory>
    ensures closed { OnOk result (view_scope scope.new ≡ contents.body_closed count begins (view_scope scope.old)) }
    ensures types { (view_scope scope.new).types ≡ (view_scope scope.old).types }
{
    if count == u64::MAX {
        return Err(Memory);
    }
    scope.leave(count + 1, begins);
    scope.in_function = false;
    scope.body = no_labels(scope.alloc);
    Ok(())
}

/// The body of a function has ended, where there were so many declarations before its declarator and the scope around it began behind so
/// many: its parameters and its labels are out of scope. Refused only for want of memory, and then nothing is said but that the types
/// stay.
pub fn end_body(scope: &mut Scope, count: u64, begins: u64, one: Fun) -> Result<(), Memory>
    ensures ended { OnOk result (view_scope scope.new ≡ contents.body_ended count begins (view_function one) (view_scope scope.old)) }
    ensures types { (view_scope scope.new).types ≡ (view_scope scope.old).types }
{
    scope.functions.push(one)?;
    close_body(scope, count, begins)
}
