//! Mentions at the end of a unit (ISO C99, 6.9.2p2).

ghost use Rattle.std.specs.Prelude.{◌≡◌, Some, map, IfOk};
ghost use Rattle.cx_core.specs.Trees.{form_of_type};
ghost use Rattle.cx_core.specs.Views.{view_does, view_mention, view_type};
ghost use Rattle.cx_scope.specs.Views.{view_thing};
ghost use Rattle.cx_unit_ends.specs.Ends as ends;

use crate::types::{final_type, is_left};
use cr_base::{Items, Memory};
use cx_core::{Does, Mention, Ty, TyForm};
use cx_scope::{Thing, Things};
use std::alloc::Global;

fn is_defining(does: &Does) -> bool
    ensures { result ≡ ends.is_defining (view_does does.now) }
{
    match does {
        Does::Defines => true,
        Does::Declares => false,
        Does::Calls(_) => false,
        Does::Uses => false,
    }
}

fn has_no_length(t: &Ty) -> bool
    ensures { result ≡ ends.has_no_length (form_of_type (view_type t.now)) }
{
    match &t.form {
        TyForm::Array(_, length) => length.is_none(),
        TyForm::Void => false,
        TyForm::Basic(_) => false,
        TyForm::Enum(_) => false,
        TyForm::Pointer(_) => false,
        TyForm::Record(_) => false,
        TyForm::Function(_) => false,
    }
}

fn ends_with_one_element(one: &Thing) -> bool
    ensures { result ≡ ends.ends_with_one_element (view_thing one.now) }
{
    if !is_left(one) {
        return false;
    }
    has_no_length(&one.ty)
}

fn finished_by(alloc: Global, one: Mention, thing: &Thing) -> Result<Mention, Memory>
    ensures { IfOk result (λ made. view_mention made ≡ ends.final_mention_by (view_mention one) (Some (view_thing thing.now))) }
{
    if !ends_with_one_element(thing) {
        return Ok(one);
    }
    let ty = final_type(alloc, thing)?;
    let Mention {
        name,
        place,
        linkage,
        does,
        ..
    } = one;
    Ok(Mention {
        name,
        place,
        ty: ty.into_inner(),
        linkage,
        does,
    })
}

fn finished(alloc: Global, things: &Things, one: Mention) -> Result<Mention, Memory>
    ensures { IfOk result (λ made. view_mention made ≡ ends.final_mention (map view_thing things.now) (view_mention one)) }
{
    if !is_defining(&one.does) {
        return Ok(one);
    }
    match things.named(&one.name) {
        None => Ok(one),
        Some(thing) => finished_by(alloc, one, thing),
    }
}

/// The mentions of a unit as they are at its end. Refused only for want of memory.
#[tactic(auto, using(crate::proofs::Ordering::reversed_map))]
pub(crate) fn final_mentions(
    alloc: Global,
    things: &Things,
    mentions: Vec<Mention>,
) -> Result<Items<Mention>, Memory>
    ensures { IfOk result (λ made. map view_mention made ≡ map (ends.final_mention (map view_thing things.now)) (map view_mention mentions.items)) }
{
    let mut mentions = mentions;
    let mut done = Vec::new(alloc);
    while let Some(one) = mentions.pop() {
        let made = finished(alloc, things, one)?;
        done.push(made)?;
    }
    done.reverse();
    Ok(Items::of(done))
}
