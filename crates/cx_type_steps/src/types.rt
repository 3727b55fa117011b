//! Nodes of specifiers and declarators (ISO C99, 6.7.1 to 6.7.5).

ghost use Rattle.std.specs.Prelude.{◌≡◌, map, false, Some, IfOk, OnOk, option_map};
ghost use Rattle.cx_context.specs.Checks.{Checks};
ghost use Rattle.cx_context.specs.Views.{scope_of};
ghost use Rattle.cx_core.specs.Trees.{ty, record_type, enum_type};
ghost use Rattle.cx_core.specs.Views.{view_type};
ghost use Rattle.cx_rules.specs.Pieces.{tag_number, typedef_in};
ghost use Rattle.cx_rules.specs.Shapes.{with_type};
ghost use Rattle.cx_scope.specs.Views.{view_meant, view_param, view_tag};
ghost use Rattle.cx_shapes.specs.Views.{view_specs, view_shape};
ghost use Rattle.cx_type_steps.specs.Steps as steps;
ghost use Rattle.cx_type_steps.specs.Typedefs.{named_type};

use cr_base::{Boxed, Items, Memory, Name, Stop};
use cx_context::{Begun, Context};
use cx_core::{Basic, Ty, TyForm};
use cx_rules::SpecsPlace;
use cx_scope::{Meant, Param, Tag};
use cx_shapes::{Shape, Specs, Step, derived};
use cx_type_breaks::{
    derives_rule, enum_rule, enum_use_rule, identifiers_rule, record_use_rule, specs_rule,
};
use std::alloc::Global;

/// A list of specifiers has ended (ISO C99, 6.7).
pub fn specs_seen(
    context: &Context,
    place: SpecsPlace,
    line: u32,
    specs: &Specs,
) -> Result<(), Stop>
    ensures { Checks (λ _. view_specs specs.now) result (scope_of context.now) (steps.specs_seen place line (view_specs specs.now) (scope_of context.now)) }
{
    let found = specs_rule(context.alloc(), place, specs)?;
    if let Some(rule) = found {
        return Err(context.refused(rule, line));
    }
    Ok(())
}

/// A typedef name (ISO C99, 6.7.7).
#[tactic(auto, unfolding(cx_rules::specs::Readings::check_chain, cx_rules::specs::Readings::check_here, cx_rules::specs::Readings::check_gives))]
pub fn typedef_seen(context: &Context, specs: &mut Specs, name: &Name) -> Result<(), Stop>
    ensures { Checks (λ _. view_specs specs.new) result (scope_of context.now) (steps.typedef_seen (view_specs specs.old) name.now (scope_of context.now)) }
{
    let named = type_named(context, name)?;
    specs.add_type(named)?;
    Ok(())
}

#[tactic(auto, using(crate::proofs::Typedefs::named_is))]
fn type_named(context: &Context, name: &Name) -> Result<Boxed<Ty>, Memory>
    ensures { IfOk result (λ made. view_type made ≡ typedef_in (scope_of context.now) name.now) }
{
    let found = typedef_ty(context.alloc(), context.ordinary(name))?;
    Ok(found)
}

// The type that a typedef name names, and `int` where it names none.
fn typedef_ty(alloc: Global, meant: Option<&Meant>) -> Result<Boxed<Ty>, Memory>
    ensures { IfOk result (λ made. view_type made ≡ named_type (option_map (λ one. view_meant one.now) meant.entry)) }
{
    match meant {
        None => Boxed::new(alloc, Ty::basic(Basic::Int)),
        Some(one) => named_ty(alloc, one),
    }
}

fn named_ty(alloc: Global, meant: &Meant) -> Result<Boxed<Ty>, Memory>
    ensures { IfOk result (λ made. view_type made ≡ named_type (Some (view_meant meant.now))) }
{
    match meant {
        Meant::TypeName(t) => t.copy(alloc),
        Meant::Object { .. } => Boxed::new(alloc, Ty::basic(Basic::Int)),
        Meant::Function { .. } => Boxed::new(alloc, Ty::basic(Basic::Int)),
        Meant::Enumerator(_) => Boxed::new(alloc, Ty::basic(Basic::Int)),
        Meant::Tag { .. } => Boxed::new(alloc, Ty::basic(Basic::Int)),
    }
}

// One more type among specifiers: a structure or union by its number.
pub(crate) fn add_record(alloc: Global, specs: &mut Specs, number: u32) -> Result<(), Memory>
    ensures { OnOk result (view_specs specs.new ≡ with_type (ty (record_type number) false) (view_specs specs.old)) }
{
    let made = Boxed::new(
        alloc,
        Ty {
            form: TyForm::Record(number),
            is_const: false,
        },
    )?;
    specs.add_type(made)
}

// One more type among specifiers: an enumerated type by its number.
fn add_enum(alloc: Global, specs: &mut Specs, number: u32) -> Result<(), Memory>
    ensures { OnOk result (view_specs specs.new ≡ with_type (ty (enum_type number) false) (view_specs specs.old)) }
{
    let made = Boxed::new(
        alloc,
        Ty {
            form: TyForm::Enum(number),
            is_const: false,
        },
    )?;
    specs.add_type(made)
}

/// A structure or union without a list (ISO C99, 6.7.2.3).
pub fn record_use_seen(
    context: &mut Context,
    alone: bool,
    specs: &mut Specs,
    is_union: bool,
    name: &Option<Name>,
    line: u32,
) -> Result<(), Stop>
    ensures { Checks (λ _. view_specs specs.new) result (scope_of context.new) (steps.record_use_seen alone (view_specs specs.old) is_union name.now line (scope_of context.old)) }
{
    let found = context.seen_tag(alone, name);
    let known = context.known();
    if let Some(rule) = record_use_rule(known.types, is_union, found) {
        return Err(context.refused(rule, line));
    }
    let number = context.record_number(found)?;
    add_record(context.alloc(), specs, number)?;
    context.use_record(found, name, is_union)?;
    Ok(())
}

/// An enumerated type without a list (ISO C99, 6.7.2.3).
pub fn enum_use_seen(
    context: &Context,
    specs: &mut Specs,
    name: &Option<Name>,
    line: u32,
) -> Result<(), Stop>
    ensures { Checks (λ _. view_specs specs.new) result (scope_of context.now) (steps.enum_use_seen (view_specs specs.old) name.now line (scope_of context.now)) }
{
    let found = context.seen_tag(false, name);
    if let Some(rule) = enum_use_rule(found) {
        return Err(context.refused(rule, line));
    }
    let number = enum_number(found);
    add_enum(context.alloc(), specs, number)?;
    Ok(())
}

// The number of the enumerated type that a tag means.
fn enum_number(found: Option<Tag>) -> u32
    ensures { result ≡ tag_number 0 (option_map view_tag found) }
{
    match found {
        Some(one) => one.number,
        None => 0,
    }
}

/// A list of enumerators has ended (ISO C99, 6.7.2.2).
pub fn enum_ended(
    context: &mut Context,
    begun: Begun,
    specs: &mut Specs,
    name: &Option<Name>,
    line: u32,
    negative: bool,
) -> Result<(), Stop>
    ensures { Checks (λ _. view_specs specs.new) result (scope_of context.new) (steps.enum_ended (view_specs specs.old) name.now line negative (option_map view_tag begun.found) begun.number (scope_of context.old)) }
{
    if let Some(rule) = enum_rule(begun.found) {
        return Err(context.refused(rule, line));
    }
    add_enum(context.alloc(), specs, begun.number)?;
    context.end_enum(name, begun.number, negative)?;
    Ok(())
}

// A whole declarator (ISO C99, 6.7.5).
fn derives_from(context: &Context, line: u32, from: &Ty, shape: &Shape) -> Result<Boxed<Ty>, Stop>
    ensures { Checks view_type result (scope_of context.now) (steps.derives_seen line (view_type from.now) (view_shape shape.now) (scope_of context.now)) }
{
    let known = context.known();
    let steps = shape.steps.as_slice();
    let copied = from.copy(context.alloc())?;
    let whole = derived(context.alloc(), copied, steps)?;
    if let Some(rule) = derives_rule(known, from, steps, whole.get()) {
        return Err(context.refused(rule, line));
    }
    Ok(whole)
}

/// A whole declarator (ISO C99, 6.7.5).
pub fn derives_seen(
    context: &Context,
    line: u32,
    from: Boxed<Ty>,
    shape: &Shape,
) -> Result<Boxed<Ty>, Stop>
    ensures { Checks view_type result (scope_of context.now) (steps.derives_seen line (view_type from) (view_shape shape.now) (scope_of context.now)) }
{
    derives_from(context, line, from.get(), shape)
}

/// A function with a list of identifiers (ISO C99, 6.7.5.3).
pub fn identifiers_seen(
    context: &Context,
    line: u32,
    names: &[Name],
    shape: Shape,
) -> Result<Shape, Stop>
    ensures { Checks view_shape result (scope_of context.now) (steps.identifiers_seen line names.now (view_shape shape) (scope_of context.now)) }
{
    if let Some(rule) = identifiers_rule(names) {
        return Err(context.refused(rule, line));
    }
    let made = shape.behind(Step::Function {
        params: None,
        variadic: false,
        within: Items::new(context.alloc()),
    })?;
    Ok(made)
}

/// A list of parameters has ended (ISO C99, 6.7.5.3), before which there were so many declarations.
#[tactic(auto, unfolding(cx_rules::specs::Readings::check_chain, cx_rules::specs::Readings::check_here, cx_rules::specs::Readings::check_gives, cx_rules::specs::Readings::check_becomes))]
pub fn params_ended(
    context: &mut Context,
    count: u64,
    begins: u64,
    params: Items<Param>,
    variadic: bool,
    shape: Shape,
) -> Result<Shape, Stop>
    ensures { Checks view_shape result (scope_of context.new) (steps.params_ended count begins (map view_param params) variadic (view_shape shape) (scope_of context.old)) }
{
    let within = context.close(count, begins)?;
    let made = shape.behind(Step::Function {
        params: Some(params),
        variadic,
        within,
    })?;
    Ok(made)
}
