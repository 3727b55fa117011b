//! `const` in types (ISO C99, 6.3.2.1p1).

ghost use Rattle.std.specs.Prelude.{◌≡◌, ◌+◌, map, option_map, slice_get};
ghost use Rattle.std.specs.List.{list_any};
ghost use Rattle.std.specs.Option.{option_flatten};
ghost use Rattle.cx_core.specs.Trees.{form_of_type};
ghost use Rattle.cx_core.specs.Layouts.{completed_count};
ghost use Rattle.cx_core.specs.ValidTypes.{holds_const, const_in, has_const, any_const};
ghost use Rattle.cx_core.specs.Views.{view_type, view_types, view_member, view_record};
ghost use Rattle.cx_kinds.specs.Qualifiers.{innermost, const_on_way, if_record};

use cx_core::{Member, RecordTy, Ty, TyForm, Types};

/// Whether a type is `const`, or one of its elements or members is, or of theirs (ISO C99, 6.3.2.1p1).
#[tactic(auto, unfolding(cx_core::specs::ValidTypes::holds_const))]
pub fn holds_const(types: &Types, t: &Ty) -> bool
    ensures { result ≡ holds_const (view_types types.now) (view_type t.now) }
{
    const_in(types, completed_count(types.records.as_slice()), t)
}

// The same, where records hold each other at most so deep.
#[cycle(qualifiers)]
#[tactic(auto, using(crate::proofs::Qualifying::const_by_innermost))]
fn const_in(types: &Types, depth: usize, t: &Ty) -> bool
    ensures { result ≡ const_in (has_const (view_types types.now) depth) (view_type t.now) }
{
    const_on_way(t) || record_const(types, depth, innermost(t))
}

#[cycle(qualifiers)]
fn record_const(types: &Types, depth: usize, t: &Ty) -> bool
    ensures { result ≡ if_record (has_const (view_types types.now) depth) (form_of_type (view_type t.now)) }
{
    match &t.form {
        TyForm::Record(number) => has_const(types, depth, *number),
        _ => false,
    }
}

// Whether a record has a `const` part, that at most so many records hold around it.
#[cycle(qualifiers)]
fn has_const(types: &Types, depth: usize, number: u32) -> bool
    ensures { result ≡ has_const (view_types types.now) depth number }
{
    if depth == 0 {
        return false;
    }
    match record_at(types, number) {
        None => false,
        Some(one) => any_const(types, depth - 1, one.members.as_slice()),
    }
}

#[cycle(qualifiers)]
fn any_const(types: &Types, depth: usize, members: &[Member]) -> bool
    ensures { result ≡ list_any (λ member. const_in (has_const (view_types types.now) depth) member.type) (map view_member members.now) }
{
    for member in members {
        if const_in(types, depth, &member.ty) {
            return true;
        }
    }
    false
}

/// The completed record with a number, or None where there is none.
pub fn record_at(types: &Types, number: u32) -> Option<&RecordTy>
    ensures { option_map (λ one. view_record one.now) result ≡ option_flatten (slice_get (view_types types.now).records number) }
{
    match types.records.get(number as usize) {
        Some(found) => found.as_ref(),
        None => None,
    }
}

fn innermost(t: &Ty) -> &Ty
    ensures { view_type result.now ≡ innermost (view_type t.now) }
{
    match &t.form {
        TyForm::Array(element, _) => innermost(element.get()),
        _ => t,
    }
}

fn const_on_way(t: &Ty) -> bool
    ensures { result ≡ const_on_way (view_type t.now) }
{
    match &t.form {
        TyForm::Array(element, _) => t.is_const || const_on_way(element.get()),
        _ => t.is_const,
    }
}

/// How many records are completed (ISO C99, 6.7.2.3).
pub fn completed_count(records: &[Option<RecordTy>]) -> usize
    ensures { result ≡ completed_count (map (option_map view_record) records.now) }
{
    let mut count = 0;
    for record in records {
        if record.is_some() {
            count += 1;
        }
    }
    count
}
