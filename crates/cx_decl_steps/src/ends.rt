//! Declarators whose initialisers have ended (ISO C99, 6.7, 6.7.8).

ghost use Rattle.std.specs.Prelude.{◌≡◌, ◌&&◌, ◌∷◌, [], not, true, false, map, option_map, IfOk, OnOk};
ghost use Rattle.cx_context.specs.Checks.{Checks};
ghost use Rattle.cx_context.specs.Views.{scope_of};
ghost use Rattle.cx_contents.specs.Contents as contents;
ghost use Rattle.cx_contents.specs.Views.{view_content};
ghost use Rattle.cx_core.specs.Views.{view_puts, view_stmt, view_type};
ghost use Rattle.cx_core.specs.Trees.{stmt, begin};
ghost use Rattle.cx_decl_steps.specs.Steps as steps;
ghost use Rattle.cx_decl_steps.specs.Views.{content_of, view_begun, view_meant};
ghost use Rattle.cx_init.specs.Views.{view_filled, view_stored};
ghost use Rattle.cx_rules.specs.Pieces.{at_line};
ghost use Rattle.cx_rules.specs.UnitWalk as unit;
ghost use Rattle.cx_shapes.specs.Views.{view_specs};

use crate::begun::{Begun, Site};
use crate::meant::Meant;
use cr_base::{Items, Memory, Name, Place, Stop};
use cx_contents::{Content, complete, literals_since};
use cx_context::Context;
use cx_core::{CoreStmt, Put, StmtForm, Ty};
use cx_entities::clashes_completed;
use cx_init::{Filled, StoredValues, filled_object};
use cx_stmt_breaks::declares_rule;
use std::alloc::Global;

// What an initialiser leaves of the object, or what there is without one.
fn filled_by(
    context: &Context,
    t: &Ty,
    has_init: bool,
    stored: StoredValues,
) -> Result<Filled, Memory>
    ensures { IfOk result (λ made. view_filled made ≡ steps.filled_by has_init (scope_of context.now).types (view_type t.now) (map view_stored stored)) }
{
    let alloc = context.alloc();
    if has_init {
        let own = t.copy(alloc)?;
        return filled_object(alloc, context.known(), own, stored);
    }
    unfilled(context, t)
}

fn unfilled(context: &Context, t: &Ty) -> Result<Filled, Memory>
    ensures { IfOk result (λ made. view_filled made ≡ steps.unfilled (scope_of context.now).types (view_type t.now)) }
{
    let alloc = context.alloc();
    let own = t.copy(alloc)?;
    let made = filled_object(alloc, context.known(), own, StoredValues::new(alloc))?;
    let ty = t.copy(alloc)?;
    Ok(Filled {
        ty,
        puts: made.puts,
    })
}

fn content_of<'a>(name: &'a Name, begun: &Begun) -> Content<'a>
    ensures { view_content result ≡ content_of (view_begun name.now begun.now) }
{
    Content {
        name,
        linkage: begun.linkage,
        object: begun.object,
        is_static: begun.is_static,
        mention: begun.mention,
    }
}

// The initialiser has ended, where there is one.
fn complete_if(
    context: &mut Context,
    has_init: bool,
    one: Content<'_>,
    t: &Ty,
    puts: Items<Put>,
) -> Result<(), Memory>
    ensures { OnOk result (scope_of context.new ≡ steps.with_content_if has_init (view_content one.entry) (view_type t.now) (view_puts puts) (scope_of context.old)) }
{
    if has_init {
        complete_in(context, one, t, puts)
    } else {
        Ok(())
    }
}

fn complete_in(
    context: &mut Context,
    one: Content<'_>,
    t: &Ty,
    puts: Items<Put>,
) -> Result<(), Memory>
    ensures { OnOk result (scope_of context.new ≡ contents.with_content (view_content one.entry) (view_type t.now) (view_puts puts) (scope_of context.old)) }
{
    complete(&mut context.scope, one, t, puts)?;
    Ok(())
}

// ---- what stands for the declaration in a block

fn puts_if(has_init: bool, puts: Items<Put>) -> Option<Items<Put>>
    ensures { option_map view_puts result ≡ steps.puts_if has_init (view_puts puts) }
{
    if has_init { Some(puts) } else { None }
}

fn begin_stmt(
    alloc: Global,
    at: Place,
    number: u32,
    puts: Option<Items<Put>>,
) -> Result<Items<CoreStmt>, Memory>
    ensures { IfOk result (λ made. map view_stmt made ≡ stmt at [] (begin number (option_map view_puts puts)) ∷ []) }
{
    let mut stmts = Items::new(alloc);
    stmts.push(CoreStmt {
        place: at,
        objects: Items::new(alloc),
        form: StmtForm::Begin(number, puts),
    })?;
    Ok(stmts)
}

fn number_first(alloc: Global, number: u32, literals: Items<u32>) -> Result<Items<u32>, Memory>
    ensures { IfOk result (λ made. made ≡ number ∷ literals) }
{
    let mut objects = Items::new(alloc);
    objects.push(number)?;
    objects.append(literals)?;
    Ok(objects)
}

// The life of an object is filled anew where its declaration is reached (6.2.4p6).
fn begin_of(
    alloc: Global,
    at: Place,
    object: Option<u32>,
    puts: Option<Items<Put>>,
    literals: Items<u32>,
) -> Result<Meant, Memory>
    ensures { IfOk result (λ made. view_meant made ≡ steps.with_literals literals (steps.begins_with at (option_map view_puts puts) object)) }
{
    let Some(number) = object else {
        return Ok(Meant {
            stmts: Items::new(alloc),
            objects: literals,
        });
    };
    let stmts = begin_stmt(alloc, at, number, puts)?;
    let objects = number_first(alloc, number, literals)?;
    Ok(Meant { stmts, objects })
}

fn literals_in(context: &Context, count: u64) -> Result<Items<u32>, Memory>
    ensures { IfOk result (λ made. made ≡ steps.literals_from count (scope_of context.now)) }
{
    literals_since(context.scope(), count)
}

// ---- the end

// Whether another declaration stands in the way of the declarator, or of the type that it has behind its initialiser.
fn clashes_behind(context: &Context, site: Site<'_>, begun: &Begun, t: &Ty) -> bool
    ensures { result ≡ unit.clashes_behind site.entry.has_init (scope_of context.now) (view_begun site.entry.name.now begun.now) (view_type t.now) }
{
    if begun.clashes {
        return true;
    }
    site.has_init && clashes_completed(context.scope(), site.name, begun.linkage, t)
}

// An object of a block that isn't static.
fn ends_anew(
    context: &mut Context,
    site: Site<'_>,
    literals: u64,
    begun: &Begun,
    filled: Filled,
) -> Result<Meant, Stop>
    requires { ((scope_of context.old).in_function && not begun.now.is_static) ≡ true }
    ensures { Checks view_meant result (scope_of context.new)
        (steps.ends_as literals site.entry.place (view_specs site.entry.specs.now) site.entry.line (view_begun site.entry.name.now begun.now) site.entry.has_init (scope_of context.old) (view_filled filled) (scope_of context.old)) }
{
    let known = context.known();
    let t = filled.ty.get();
    let clashes = clashes_behind(context, site, begun, t);
    if let Some(rule) = declares_rule(known, site.place, site.specs, t, begun.linkage, clashes) {
        return Err(context.refused(rule, site.line));
    }
    let made = anew(context, site, literals, begun, filled)?;
    Ok(made)
}

fn anew(
    context: &mut Context,
    site: Site<'_>,
    literals: u64,
    begun: &Begun,
    filled: Filled,
) -> Result<Meant, Memory>
    requires { ((scope_of context.old).in_function && not begun.now.is_static) ≡ true }
    ensures meant { IfOk result (λ made. view_meant made ≡ steps.declared_meant literals (scope_of context.old) (at_line (scope_of context.old) site.entry.line) (view_begun site.entry.name.now begun.now) site.entry.has_init (view_filled filled).puts) }
    ensures scope { OnOk result (scope_of context.new ≡ unit.with_content_if site.entry.has_init (view_begun site.entry.name.now begun.now) (view_filled filled) (scope_of context.old)) }
{
    let Filled { ty, puts } = filled;
    let alloc = context.alloc();
    let at = context.at_line(site.line);
    let own = literals_in(context, literals)?;
    let one = content_of(site.name, begun);
    complete_if(context, site.has_init, one, ty.get(), Items::new(alloc))?;
    begin_of(alloc, at, begun.object, puts_if(site.has_init, puts), own)
}

// What has no statement: an object that lives as long as the program, a function, or a typedef name.
fn ends_once(
    context: &mut Context,
    site: Site<'_>,
    literals: u64,
    begun: &Begun,
    filled: Filled,
) -> Result<Meant, Stop>
    requires { ((scope_of context.old).in_function && not begun.now.is_static) ≡ false }
    ensures { Checks view_meant result (scope_of context.new)
        (steps.ends_as literals site.entry.place (view_specs site.entry.specs.now) site.entry.line (view_begun site.entry.name.now begun.now) site.entry.has_init (scope_of context.old) (view_filled filled) (scope_of context.old)) }
{
    let known = context.known();
    let t = filled.ty.get();
    let clashes = clashes_behind(context, site, begun, t);
    if let Some(rule) = declares_rule(known, site.place, site.specs, t, begun.linkage, clashes) {
        return Err(context.refused(rule, site.line));
    }
    let made = once(context, site, literals, begun, filled)?;
    Ok(made)
}

fn once(
    context: &mut Context,
    site: Site<'_>,
    literals: u64,
    begun: &Begun,
    filled: Filled,
) -> Result<Meant, Memory>
    requires { ((scope_of context.old).in_function && not begun.now.is_static) ≡ false }
    ensures meant { IfOk result (λ made. view_meant made ≡ steps.declared_meant literals (scope_of context.old) (at_line (scope_of context.old) site.entry.line) (view_begun site.entry.name.now begun.now) site.entry.has_init (view_filled filled).puts) }
    ensures scope { OnOk result (scope_of context.new ≡ unit.with_content_if site.entry.has_init (view_begun site.entry.name.now begun.now) (view_filled filled) (scope_of context.old)) }
{
    let Filled { ty, puts } = filled;
    let alloc = context.alloc();
    let own = literals_in(context, literals)?;
    let one = content_of(site.name, begun);
    complete_if(context, site.has_init, one, ty.get(), puts)?;
    Ok(Meant {
        stmts: Items::new(alloc),
        objects: own,
    })
}

fn is_anew(context: &Context, begun: &Begun) -> bool
    ensures { result ≡ ((scope_of context.now).in_function && not begun.now.is_static) }
{
    context.is_inside() && !begun.is_static
}

/// The initialiser of a declarator has ended, or there is none; before the declarator there were so many literals (ISO C99, 6.7).
#[tactic(auto, unfolding(cx_rules::specs::Readings::check_chain, cx_rules::specs::Readings::check_here))]
pub fn declared_ended(
    context: &mut Context,
    site: Site<'_>,
    literals: u64,
    begun: &Begun,
    stored: StoredValues,
) -> Result<Meant, Stop>
    ensures { Checks view_meant result (scope_of context.new)
        (steps.declared_ended literals site.entry.place (view_specs site.entry.specs.now) site.entry.line (view_begun site.entry.name.now begun.now) site.entry.has_init (map view_stored stored) (scope_of context.old)) }
{
    let filled = filled_by(context, begun.ty.get(), site.has_init, stored)?;
    if is_anew(context, begun) {
        ends_anew(context, site, literals, begun, filled)
    } else {
        ends_once(context, site, literals, begun, filled)
    }
}
