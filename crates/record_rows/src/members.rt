//! Members of structures and unions in rows.

ghost use Rattle.std.specs.Prelude.{map, All, IfSome, IsTrue};
ghost use Rattle.cx_core.specs.Views.{view_member};
ghost use Rattle.cx_layout.specs.Calls.{IsMemberComplete, HasFittingBits};

use crate::types::type_in;
use cr_base::{Items, Name};
use cx_core::{Member, TyForm};
use cx_layout::Layouts;
use row_words::Asked;
use std::alloc::Global;

/// The words that are left as members, which can be laid out.
pub(crate) fn members_left(layouts: &Layouts, alloc: Global, asked: &mut Asked) -> Items<Member>
    ensures complete { All (IsMemberComplete layouts.now) (map view_member result) }
    ensures bits { All HasFittingBits (map view_member result) }
{
    let mut members = Items::new(alloc);
    for word in asked.rest().split_ascii_whitespace() {
        if let Some(member) = fit_member(layouts, alloc, asked, word) {
            asked.had(members.push(member));
        }
    }
    members
}

// A member that can be laid out.
fn fit_member<'a>(
    layouts: &Layouts,
    alloc: Global,
    asked: &mut Asked<'a>,
    word: &'a str,
) -> Option<Member>
    ensures { IfSome result (λ member. IsMemberComplete layouts.now (view_member member) × HasFittingBits (view_member member)) }
{
    let member = member(alloc, asked, word)?;
    if !is_fit(layouts, &member) {
        asked.refuse();
        return None;
    }
    Some(member)
}

// Whether a member can be laid out, but for its size.
fn is_fit(layouts: &Layouts, member: &Member) -> bool
    ensures { IsTrue result → IsMemberComplete layouts.now (view_member member.now) × HasFittingBits (view_member member.now) }
{
    layouts.is_complete(&member.ty) && has_fitting_bits(member)
}

fn has_fitting_bits(member: &Member) -> bool
    ensures { IsTrue result → HasFittingBits (view_member member.now) }
{
    match (member.bits, &member.ty.form) {
        (None, _) => true,
        (Some(width), TyForm::Basic(which)) => width <= which.width(),
        (Some(width), TyForm::Enum(_)) => width <= 32,
        _ => false,
    }
}

fn member<'a>(alloc: Global, asked: &mut Asked<'a>, word: &'a str) -> Option<Member> {
    let (name, behind) = asked.found(word.split_once('='), (word, "int"));
    let (of, width) = split_width(behind);
    let bits = bits(asked, width);
    let ty = type_in(alloc, asked, of)?;
    Some(Member {
        name: name_in(alloc, asked, name),
        ty: ty.into_inner(),
        bits,
    })
}

// The name in front of a `=`, where there is one.
fn name_in<'a>(alloc: Global, asked: &mut Asked<'a>, name: &'a str) -> Option<Name> {
    if name.is_empty() {
        return None;
    }
    asked.begin(name);
    Some(Name::of(asked.bytes(alloc)))
}

// What stands in front of a `:` and, where there is one, behind it.
fn split_width(word: &str) -> (&str, Option<&str>) {
    match word.split_once(':') {
        Some((of, width)) => (of, Some(width)),
        None => (word, None),
    }
}

fn bits(asked: &mut Asked, width: Option<&str>) -> Option<u32> {
    let width = width?.parse().ok();
    Some(asked.found(width, 0))
}
