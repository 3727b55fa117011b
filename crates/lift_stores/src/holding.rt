//! How an operand is held in a temporary. Each maker is refused only for want of memory.

ghost use Rattle.std.specs.Prelude.{◌≡◌, ◌++◌, map, suc, [], ◌∷◌, IfOk};
ghost use Rattle.lift_exprs.specs.Written as spec;
ghost use Rattle.lift_exprs.specs.Written.{held_by, held_gives, temporary_place};
ghost use Rattle.lift_forms.specs.Operators.{given_value};
ghost use Rattle.lift_forms_code.specs.Views.{given_view};
ghost use Rattle.lift_stores.specs.Names.{lift_names};
ghost use Rattle.lift_stores.specs.Views.{kind_view, text_view};
ghost use Rattle.rs_items.specs.Known.{view_names};
ghost use Rattle.rs_text.specs.Tree as tree;
ghost use Rattle.rs_tree.specs.Views.{place_view, expr_view, stmt_view};

use crate::kinds::NodeKind;
use crate::names::temporary_place;
use crate::places::{address_of_given, copied};
use crate::written::{Written, then_takes};
use cr_base::{Boxed, Items, Memory};
use lift_forms_code::{RGiven, value_of};
use rs_items::NameMap;
use rs_makers::{address, read, target};
use rs_tree::{RExpr, RPlace, RStmt};
use std::alloc::Global;

/// `p = e;`
pub fn assign(alloc: Global, place: Boxed<RPlace>, e: Boxed<RExpr>) -> Result<Boxed<RStmt>, Memory>
    ensures { IfOk result (λ made. stmt_view made ≡ tree.Assign (place_view place) (expr_view e)) }
{
    Boxed::new(alloc, RStmt::Assign(place, e))
}

/// One statement as a list.
pub fn one_stmt(alloc: Global, s: Boxed<RStmt>) -> Result<Items<RStmt>, Memory>
    ensures { IfOk result (λ made. map stmt_view made ≡ stmt_view s ∷ []) }
{
    let mut list = Items::new(alloc);
    list.push(s.into_inner())?;
    Ok(list)
}

fn held_value(
    alloc: Global,
    temporary: Boxed<RPlace>,
    given: RGiven,
) -> Result<Boxed<RStmt>, Memory>
    ensures { IfOk result (λ made. stmt_view made ≡ tree.Assign (place_view temporary) (given_value (given_view given))) }
{
    let e = value_of(alloc, given)?;
    assign(alloc, temporary, e)
}

fn held_address(
    alloc: Global,
    temporary: Boxed<RPlace>,
    given: RGiven,
) -> Result<Boxed<RStmt>, Memory>
    ensures { IfOk result (λ made. stmt_view made ≡ tree.Assign (place_view temporary) (spec.address_of_given (given_view given))) }
{
    let e = address_of_given(alloc, given)?;
    assign(alloc, temporary, e)
}

fn held_record(
    alloc: Global,
    temporary: Boxed<RPlace>,
    size: u64,
    given: RGiven,
) -> Result<Boxed<RStmt>, Memory>
    ensures { IfOk result (λ made. stmt_view made ≡ spec.copied (spec.address_of_given (given_view given)) (tree.AddressOf (place_view temporary)) size) }
{
    let source = address_of_given(alloc, given)?;
    let to = address(alloc, temporary)?;
    copied(alloc, source, to, size)
}

/// How what a node gives gets to a temporary.
pub fn held_by(
    alloc: Global,
    temporary: Boxed<RPlace>,
    kind: &NodeKind,
    given: RGiven,
) -> Result<Boxed<RStmt>, Memory>
    ensures { IfOk result (λ made. stmt_view made ≡ held_by (place_view temporary) (kind_view kind.now) (given_view given)) }
{
    match kind {
        NodeKind::Value(_) => held_value(alloc, temporary, given),
        NodeKind::Record(_, size) => held_record(alloc, temporary, *size, given),
        NodeKind::Place(_) | NodeKind::BitField(_) => held_address(alloc, temporary, given),
    }
}

fn read_target(alloc: Global, temporary: Boxed<RPlace>) -> Result<Boxed<RPlace>, Memory>
    ensures { IfOk result (λ made. place_view made ≡ tree.Deref (tree.Read (place_view temporary))) }
{
    let pointer = read(alloc, temporary)?;
    target(alloc, pointer)
}

/// What the temporary gives.
pub fn held_gives(
    alloc: Global,
    temporary: Boxed<RPlace>,
    kind: &NodeKind,
) -> Result<RGiven, Memory>
    ensures { IfOk result (λ made. given_view made ≡ held_gives (place_view temporary) (kind_view kind.now)) }
{
    match kind {
        NodeKind::Value(_) | NodeKind::BitField(_) => Ok(RGiven::Value(read(alloc, temporary)?)),
        NodeKind::Record(_, _) => Ok(RGiven::Value(address(alloc, temporary)?)),
        NodeKind::Place(_) => Ok(RGiven::Place(read_target(alloc, temporary)?)),
    }
}

/// What is written for an operand, with a temporary that holds it.
pub fn then_held(
    alloc: Global,
    names: &NameMap,
    kind: &NodeKind,
    one: Written,
) -> Result<Written, Memory>
    ensures { IfOk result (λ made. text_view made ≡ record {
      body = (text_view one).body ++ held_by (temporary_place (lift_names (view_names names.now)) one.next) (kind_view kind.now) (text_view one).given ∷ [];
      given = held_gives (temporary_place (lift_names (view_names names.now)) one.next) (kind_view kind.now);
      next = suc one.next;
    }) }
{
    let Written { body, given, next } = one;
    let temporary = temporary_place(alloc, names, next)?;
    let holds = held_by(alloc, temporary, kind, given)?;
    let more = one_stmt(alloc, holds)?;
    let there = temporary_place(alloc, names, next)?;
    let held = held_gives(alloc, there, kind)?;
    let before = Written {
        body,
        given: RGiven::Nothing,
        next,
    };
    then_takes(before, more, held)
}
