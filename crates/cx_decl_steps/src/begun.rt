//! Declarators that have ended, before their initialisers (ISO C99, 6.2.1p7, 6.7).

ghost use Rattle.std.specs.Prelude.{◌≡◌, ◌||◌, not, option_map, IfOk, OnOk};
ghost use Rattle.cx_context.specs.Checks.{Checks};
ghost use Rattle.cx_context.specs.Views.{scope_of};
ghost use Rattle.cx_core.specs.Views.{view_type};
ghost use Rattle.cx_decl_steps.specs.Steps as steps;
ghost use Rattle.cx_decl_steps.specs.Views.{view_begun};
ghost use Rattle.cx_entities.specs.Views.{view_declaring};
ghost use Rattle.cx_init.specs.Views.{view_target};
ghost use Rattle.cx_kinds.specs.Known.{IsKnown, types_in};
ghost use Rattle.cx_lex.specs.declared.token.Keyword.TheVariants as keyword;
ghost use Rattle.cx_parts.specs.Views.{view_at};
ghost use Rattle.cx_rules.specs.Declare as declare;
ghost use Rattle.cx_rules.specs.Shapes.{has_storage};
ghost use Rattle.cx_scope.specs.Views.{view_scope};
ghost use Rattle.cx_shapes.specs.Views.{view_specs};

use cr_base::{Boxed, Memory, Name, Stop};
use cx_context::Context;
use cx_core::{Linkage, Ty};
use cx_entities::{
    Declaring, clashes, declare, is_outside, is_told, is_typedef, joined_type, linkage_of,
    lives_on, object_number,
};
use cx_init::Target;
use cx_kinds::{Known, has_size, is_array, is_function};
use cx_lex::Keyword;
use cx_parts::{At, whole_of};
use cx_rules::SpecsPlace;
use cx_scope::Scope;
use cx_shapes::Specs;

/// A declarator in its declaration (ISO C99, 6.7).
#[derive(Clone, Copy)]
pub struct Site<'a> {
    pub place: SpecsPlace,
    pub specs: &'a Specs,
    /// The identifier that it declares.
    pub name: &'a Name,
    pub line: u32,
    pub has_init: bool,
}

/// A declared identifier between its declarator and the end of its initialiser (ISO C99, 6.7).
#[derive(Drop)]
pub struct Begun {
    pub ty: Boxed<Ty>,
    pub linkage: Linkage,
    /// Whether another declaration stood in its way.
    pub clashes: bool,
    /// The number of the object, where it is one.
    pub object: Option<u32>,
    /// Whether the object lives as long as the program (6.2.4p3).
    pub is_static: bool,
    /// What its initialiser is for.
    pub target: Target,
    /// Which mention of the scope the declaration is, where it is one.
    pub mention: Option<u64>,
}

// Whether an initialiser may stand there (6.7.8p3, p5).
fn may_be_initialised(known: Known, place: SpecsPlace, specs: &Specs, t: &Ty) -> bool
    requires { IsKnown known }
    ensures { result ≡ steps.may_be_initialised (types_in known.entry) place (view_specs specs.now) (view_type t.now) }
{
    if is_typedef(specs) {
        return false;
    }
    if is_function(t) {
        return false;
    }
    if !may_store(place, specs) {
        return false;
    }
    has_size(known, t) || is_array(t)
}

fn may_store(place: SpecsPlace, specs: &Specs) -> bool
    ensures { result ≡ (declare.is_outside place || not (has_storage keyword.Extern (view_specs specs.now))) }
{
    is_outside(place) || !specs.has_storage(Keyword::Extern)
}

// The whole object, where an initialiser may stand there.
fn base_of(context: &Context, one: Declaring<'_>) -> Result<Option<At>, Memory>
    ensures { IfOk result (λ made. option_map view_at made ≡ (steps.target_of (scope_of context.now).types (view_declaring one.entry)).base) }
{
    if !may_be_initialised(context.known(), one.place, one.specs, one.ty) {
        return Ok(None);
    }
    let alloc = context.alloc();
    let ty = one.ty.copy(alloc)?;
    Ok(Some(whole_of(alloc, ty)))
}

fn target_of(context: &Context, one: Declaring<'_>) -> Result<Target, Memory>
    ensures { IfOk result (λ made. view_target made ≡ steps.target_of (scope_of context.now).types (view_declaring one.entry)) }
{
    let base = base_of(context, one)?;
    Ok(Target {
        is_static: lives_on(one.linkage, one.specs),
        base,
    })
}

fn object_of(scope: &Scope, one: Declaring<'_>) -> Option<u32>
    ensures { result ≡ steps.object_of (view_scope scope.now) (view_declaring one.entry) }
{
    if is_typedef(one.specs) {
        return None;
    }
    if is_function(one.ty) {
        return None;
    }
    Some(object_number(scope, one))
}

fn mention_of(scope: &Scope, one: Declaring<'_>) -> Option<u64>
    ensures { result ≡ steps.mention_of (view_scope scope.now) (view_declaring one.entry) }
{
    if is_told(one) {
        Some(scope.mention_count())
    } else {
        None
    }
}

// What is known of the declared identifier, with the type that its declarator writes.
fn begun_as(context: &Context, one: Declaring<'_>, written: &Ty) -> Result<Begun, Memory>
    ensures { IfOk result (λ made. view_begun one.entry.name.now made ≡ declare.begun_as (scope_of context.now) (view_declaring one.entry) (view_type written.now)) }
{
    let scope = context.scope();
    let typedef = is_typedef(one.specs);
    let clashes = clashes(scope, one.name, typedef, written, one.linkage, one.has_init);
    let object = object_of(scope, one);
    let mention = mention_of(scope, one);
    let target = target_of(context, one)?;
    let ty = one.ty.copy(context.alloc())?;
    Ok(Begun {
        ty,
        linkage: one.linkage,
        clashes,
        object,
        is_static: lives_on(one.linkage, one.specs),
        target,
        mention,
    })
}

// What is declared comes into scope.
fn declare_in(context: &mut Context, one: Declaring<'_>) -> Result<(), Memory>
    ensures { OnOk result (scope_of context.new ≡ declare.with_declaration (view_declaring one.entry) (scope_of context.old)) }
{
    declare(&mut context.scope, one)?;
    Ok(())
}

#[tactic(auto, unfolding(cx_rules::specs::Readings::check_chain, cx_rules::specs::Readings::check_gives, cx_rules::specs::Readings::check_becomes))]
fn begins_as(context: &mut Context, one: Declaring<'_>, written: &Ty) -> Result<Begun, Stop>
    ensures { Checks (view_begun one.entry.name.now) result (scope_of context.new) (steps.begins_as (scope_of context.old) (view_declaring one.entry) (view_type written.now) (scope_of context.old)) }
{
    let begun = begun_as(context, one, written)?;
    declare_in(context, one)?;
    Ok(begun)
}

/// A declarator with this type has ended: what it declares comes into scope (ISO C99, 6.2.1p7).
#[tactic(auto, unfolding(cx_rules::specs::Readings::check_chain, cx_rules::specs::Readings::check_here))]
pub fn declared_begins(context: &mut Context, site: Site<'_>, ty: &Ty) -> Result<Begun, Stop>
    ensures { Checks (view_begun site.entry.name.now) result (scope_of context.new)
        (steps.declared_begins site.entry.place (view_specs site.entry.specs.now) site.entry.name.now site.entry.line (view_type ty.now) site.entry.has_init (scope_of context.old)) }
{
    let before = context.ordinary(site.name);
    let linkage = linkage_of(site.place, site.specs, ty, before);
    let own = joined_type(context.alloc(), linkage, ty, before)?;
    let one = Declaring {
        place: site.place,
        specs: site.specs,
        name: site.name,
        line: site.line,
        ty: own.get(),
        linkage,
        has_init: site.has_init,
    };
    begins_as(context, one, ty)
}
