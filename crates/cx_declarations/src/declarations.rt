//! Declarations (ISO C99, 6.7).
#![tactic(auto, unfolding(cx_rules::specs::Readings::check_chain, cx_rules::specs::Readings::check_gives, cx_rules::specs::Readings::check_here))]

ghost use Rattle.std.specs.Prelude.{◌≡◌, is_some, map, option_map};
ghost use Rattle.cx_context.specs.Checks.{Checks};
ghost use Rattle.cx_context.specs.Views.{scope_of};
ghost use Rattle.cx_core.specs.Views.{view_type};
ghost use Rattle.cx_decl_steps.specs.Views.{view_begun, view_meant};
ghost use Rattle.cx_declarations.specs.Walks as walks;
ghost use Rattle.cx_init.specs.Views.{view_stored, view_target};
ghost use Rattle.cx_shapes.specs.Views.{view_shape, view_specs};
ghost use Rattle.cx_tree.specs.Views.{decl_view, init_declarator_view, initialiser_view, spec_view, specs as spec_trees};
ghost use Rattle.cx_rules.specs.UnitWalk as unit;

use cr_base::{Boxed, Stop};
use cx_context::Context;
use cx_core::Ty;
use cx_decl_steps::{
    Begun, Meant, Site, declared_begins, declared_ended, empty_seen, name_or_none,
};
use cx_init::{StoredValues, Target};
use cx_rules::SpecsPlace;
use cx_shapes::{Shape, Specs, declarator_line, specs_line};
use cx_tree::{Decl, InitDeclarator, Initialiser, Spec};
use cx_type_steps::{derives_seen, specs_seen};
use cx_walk::{declarator, initialiser, specifiers};

// An initialiser, where there is one.
fn init_of(
    context: &mut Context,
    target: &Target,
    init: &Option<Boxed<Initialiser>>,
) -> Result<StoredValues, Stop>
    ensures { Checks (map view_stored) result (scope_of context.new) (walks.init_walk (view_target target.now) (option_map initialiser_view init.now) (scope_of context.old)) }
{
    match init {
        None => Ok(StoredValues::new(context.alloc())),
        Some(one) => initialiser(context, one.get(), target),
    }
}

// The initialiser of a name, and its end.
fn begun_walk(
    context: &mut Context,
    site: Site<'_>,
    literals: u64,
    begun: &Begun,
    init: &Option<Boxed<Initialiser>>,
) -> Result<Meant, Stop>
    requires { site.has_init ≡ is_some (option_map initialiser_view init.now) }
    ensures { Checks view_meant result (scope_of context.new)
        (walks.begun_walk literals site.entry.place (view_specs site.entry.specs.now) site.entry.line (view_begun site.entry.name.now begun.now) (option_map initialiser_view init.now) (scope_of context.old)) }
{
    let stored = init_of(context, &begun.target, init)?;
    declared_ended(context, site, literals, begun, stored)
}

// A declarator with its type, and its initialiser.
fn named_walk(
    context: &mut Context,
    site: Site<'_>,
    ty: &Ty,
    init: &Option<Boxed<Initialiser>>,
) -> Result<Meant, Stop>
    requires { site.has_init ≡ is_some (option_map initialiser_view init.now) }
    ensures { Checks view_meant result (scope_of context.new)
        (walks.named_by site.entry.place (view_specs site.entry.specs.now) site.entry.line (view_type ty.now) site.entry.name.now (option_map initialiser_view init.now) (scope_of context.old)) }
{
    let literals = context.literal_count();
    let begun = declared_begins(context, site, ty)?;
    begun_walk(context, site, literals, &begun, init)
}

fn named_shape(
    context: &mut Context,
    place: SpecsPlace,
    specs: &Specs,
    line: u32,
    ty: &Ty,
    shape: Shape,
    init: &Option<Boxed<Initialiser>>,
) -> Result<Meant, Stop>
    ensures { Checks view_meant result (scope_of context.new) (walks.named_walk place (view_specs specs.now) line (view_type ty.now) (view_shape shape) (option_map initialiser_view init.now) (scope_of context.old)) }
{
    let name = name_or_none(context.alloc(), shape.name);
    let site = Site {
        place,
        specs,
        name: &name,
        line,
        has_init: init.is_some(),
    };
    named_walk(context, site, ty, init)
}

// A declarator with its initialiser (ISO C99, 6.7).
fn init_declarator(
    context: &mut Context,
    place: SpecsPlace,
    specs: &Specs,
    missing: u32,
    one: &InitDeclarator,
) -> Result<Meant, Stop>
    ensures { Checks view_meant result (scope_of context.new) (walks.init_declarator_walk place (view_specs specs.now) missing (init_declarator_view one.now) (scope_of context.old)) }
{
    let line = declarator_line(missing, one.declarator.get());
    let shape = declarator(context, one.declarator.get())?;
    let from = specs.base_type(context.alloc())?;
    let ty = derives_seen(context, line, from, &shape)?;
    named_shape(context, place, specs, line, ty.get(), shape, &one.init)
}

// Declarators from the left, behind what was declared before.
fn init_declarators(
    context: &mut Context,
    place: SpecsPlace,
    specs: &Specs,
    missing: u32,
    list: &[InitDeclarator],
) -> Result<Meant, Stop>
    ensures { Checks view_meant result (scope_of context.new) (walks.init_declarators_walk place (view_specs specs.now) missing (map init_declarator_view list.now) (scope_of context.old)) }
{
    let mut done = Meant::new(context.alloc());
    for one in list {
        let meant = init_declarator(context, place, specs, missing, one)?;
        done.add(meant)?;
    }
    Ok(done)
}

fn list_of(
    context: &mut Context,
    place: SpecsPlace,
    specs: &Specs,
    line: u32,
    list: &[InitDeclarator],
) -> Result<Meant, Stop>
    ensures { Checks view_meant result (scope_of context.new) (walks.list_walk place (view_specs specs.now) line (map init_declarator_view list.now) (scope_of context.old)) }
{
    match list.first() {
        None => empty_seen(context, line, specs),
        Some(_) => init_declarators(context, place, specs, line, list),
    }
}

// Whether specifiers are `struct s` or `union s` by itself (ISO C99, 6.7.2.3p7).
fn stands_alone(list: &[Spec]) -> bool
    ensures { result ≡ walks.stands_alone (spec_trees (map spec_view list.now)) }
{
    match list.split_first() {
        None => false,
        Some((first, others)) => is_nothing(others) && is_record_use(first),
    }
}

fn is_nothing(list: &[Spec]) -> bool
    ensures { result ≡ walks.is_last (spec_trees (map spec_view list.now)) }
{
    match list.first() {
        None => true,
        Some(_) => false,
    }
}

fn is_record_use(one: &Spec) -> bool
    ensures { result ≡ walks.is_record_use (spec_view one.now) }
{
    match one {
        Spec::Record { members, .. } => members.is_none(),
        Spec::Key { .. } => false,
        Spec::Typedef { .. } => false,
        Spec::Enum { .. } => false,
    }
}

fn declares_nothing(list: &[InitDeclarator]) -> bool
    ensures { result ≡ walks.declares_nothing (map init_declarator_view list.now) }
{
    match list.first() {
        None => true,
        Some(_) => false,
    }
}

#[tactic(auto, using(crate::proofs::Tags::tag_is))]
fn declares_tag(one: &Decl) -> bool
    ensures { result ≡ unit.declares_tag (decl_view one.now) }
{
    declares_nothing(one.list.as_slice()) && stands_alone(one.specs.as_slice())
}

/// A declaration (ISO C99, 6.7).
pub fn decl(context: &mut Context, place: SpecsPlace, one: &Decl) -> Result<Meant, Stop>
    ensures { Checks view_meant result (scope_of context.new) (walks.decl_walk place (decl_view one.now) (scope_of context.old)) }
{
    let list = one.specs.as_slice();
    let line = specs_line(list);
    let all = specifiers(context, declares_tag(one), list)?;
    specs_seen(context, place, line, &all)?;
    list_of(context, place, &all, line, one.list.as_slice())
}
