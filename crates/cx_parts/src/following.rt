//! What comes next behind a part of an object (ISO C99, 6.7.8p17).

ghost use Rattle.std.specs.Prelude.{◌≡◌, ◌≤◌, length, IfOk, IfSome, option_map};
ghost use Rattle.cx_core.specs.Views.{view_type};
ghost use Rattle.cx_kinds.specs.Known.{IsKnown, types_in};
ghost use Rattle.cx_parts.specs.Paths.{path_behind};
ghost use Rattle.cx_rules.specs.Initial.{following, next_part};

use crate::parts::{next_part, part_type};
use cr_base::{Items, Memory};
use cx_core::Ty;
use cx_kinds::Known;
use std::alloc::Global;

// Where a path goes on: so many of its numbers are kept, and this one follows.
#[derive(Clone, Copy)]
pub(crate) struct Behind {
    pub(crate) kept: usize,
    pub(crate) index: u64,
}

/// The path of what comes next behind a part of an object of a type, or None where nothing does. Refused only for want of memory.
pub(crate) fn following(
    alloc: Global,
    known: Known,
    t: &Ty,
    path: &[u64],
) -> Result<Option<Items<u64>>, Memory>
    requires { IsKnown known }
    ensures { IfOk result (λ made. made ≡ following (types_in known.entry) (view_type t.now) path.now) }
{
    match goes_on(known, t, path) {
        None => Ok(None),
        Some(one) => {
            let mut made = Items::from_slice(alloc, &path[..one.kept])?;
            made.push(one.index)?;
            Ok(Some(made))
        }
    }
}

fn goes_on(known: Known, t: &Ty, path: &[u64]) -> Option<Behind>
    requires { IsKnown known }
    ensures path { option_map (path_behind path.now) result ≡ following (types_in known.entry) (view_type t.now) path.now }
    ensures within { IfSome result (λ one. one.kept ≤ length path.now) }
{
    let Some((index, rest)) = path.split_first() else {
        return None;
    };
    let Some(part) = part_type(known, t, *index) else {
        return step_over(known, t, *index);
    };
    match goes_on(known, part, rest) {
        Some(one) => Some(Behind {
            kept: one.kept + 1,
            index: one.index,
        }),
        None => step_over(known, t, *index),
    }
}

// The part behind one of an object itself.
fn step_over(known: Known, t: &Ty, index: u64) -> Option<Behind>
    requires { IsKnown known }
    ensures { result ≡ option_map (λ next. record { kept = 0; index = next }) (next_part (types_in known.entry) (view_type t.now) index) }
{
    let next = next_part(known, t, index)?;
    Some(Behind {
        kept: 0,
        index: next,
    })
}
