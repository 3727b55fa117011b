//! What a later value takes away (ISO C99, 6.7.8p19).

ghost use Rattle.std.specs.Prelude.{◌≡◌, ◌++◌, [], ◌∷◌, if◌then◌else◌, map, IfOk, OnOk};
ghost use Rattle.std.specs.List.{list_any};
ghost use Rattle.cx_init.specs.Views.{view_stored};
ghost use Rattle.cx_rules.specs.Pieces.{is_within, kept_outside};

use crate::paths::is_within;
use crate::stored::Stored;
use crate::values::StoredValues;
use cr_base::{Items, Memory};
use std::alloc::Global;
use std::mem;

/// What was stored in a part goes; nothing was where the part stands behind all that is stored. Refused only for want of memory.
pub(crate) fn drop_within(
    alloc: Global,
    part: &[u64],
    stored: &mut StoredValues,
) -> Result<(), Memory>
    ensures { OnOk result (map view_stored stored.new ≡ kept_outside part.now (map view_stored stored.old)) }
{
    if stored.stand_before(part) {
        return Ok(());
    }
    if !holds_within(part, stored.as_slice()) {
        return Ok(());
    }
    let all = mem::replace(stored, StoredValues::new(alloc));
    let kept = kept_outside(alloc, part, all.into_items())?;
    *stored = StoredValues::of(kept);
    Ok(())
}

// Whether something was stored in a part.
fn holds_within(part: &[u64], stored: &[Stored]) -> bool
    ensures { result ≡ list_any (λ one. is_within part.now one.path) (map view_stored stored.now) }
{
    for one in stored {
        if is_within(part, one.path.as_slice()) {
            return true;
        }
    }
    false
}

#[tactic(auto, using(crate::proofs::Taking::kept_last))]
fn kept_outside(alloc: Global, part: &[u64], stored: Items<Stored>) -> Result<Items<Stored>, Memory>
    ensures { IfOk result (λ kept. map view_stored kept ≡ kept_outside part.now (map view_stored stored)) }
{
    let mut kept = Items::new(alloc);
    for one in stored.into_vec() {
        keep_outside(part, one, &mut kept)?;
    }
    Ok(kept)
}

fn keep_outside(part: &[u64], one: Stored, kept: &mut Items<Stored>) -> Result<(), Memory>
    ensures { OnOk result (map view_stored kept.new ≡ map view_stored kept.old ++ (if is_within part.now one.path then [] else view_stored one ∷ [])) }
{
    if is_within(part, one.path.as_slice()) {
        return Ok(());
    }
    kept.push(one)
}
