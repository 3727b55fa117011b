//! Members of structures and unions (ISO C99, 6.5.2.3).

ghost use Rattle.std.specs.Prelude.{◌≡◌, IfOk, if◌then◌else◌};
ghost use Rattle.cx_core.specs.Trees.{expr, member, unqualified, type_of, is_const_type};
ghost use Rattle.cx_core.specs.ValidTypes.{with_const};
ghost use Rattle.cx_core.specs.Views.{view_expr, view_type};
ghost use Rattle.cx_kinds.specs.Known.{IsKnown, types_in};
ghost use Rattle.cx_nodes.specs.Members.{member_of};
ghost use Rattle.cx_operands.specs.Views.{view_operand};
ghost use Rattle.cx_rules.specs.Meanings.{arrow_meaning, dot_meaning};

use crate::constants::no_meaning;
use crate::pointers::deref_meaning;
use cr_base::{Boxed, Memory, Place, Spot};
use cx_core::{CoreExpr, Ty};
use cx_forms::member_node;
use cx_kinds::Known;
use cx_operands::{Operand, is_place};
use cx_operators::{a_place, a_value};
use cx_pairs::find_member;
use cx_types::with_const;
use cx_values::{unqualified_copy, value_of};
use std::alloc::Global;

/// What the member with a name of a structure or union means (ISO C99, 6.5.2.3p3). Refused only for want of memory.
#[tactic(auto, using(crate::proofs::Opened::type_of_view))]
pub fn dot_meaning(
    alloc: Global,
    known: Known,
    at: Place,
    of: Operand,
    name: &[u8],
) -> Result<Operand, Memory>
    requires { IsKnown known }
    ensures { IfOk result (λ made. view_operand made ≡ dot_meaning at (types_in known.entry) (view_operand of) name.now) }
{
    match find_member(known, &of.core.get().ty, name) {
        None => no_meaning(alloc, at),
        Some(found) => {
            let is_place = is_place(&of);
            member_of(
                alloc,
                at,
                is_place,
                of.is_register,
                of.core,
                found.ty,
                found.spot,
            )
        }
    }
}

fn member_of(
    alloc: Global,
    at: Place,
    is_place: bool,
    is_register: bool,
    of: Boxed<CoreExpr>,
    t: &Ty,
    spot: Spot,
) -> Result<Operand, Memory>
    ensures { IfOk result (λ made. view_operand made ≡ member_of at is_place is_register (view_expr of) (view_type t.now) spot) }
{
    if is_place {
        let core = member_place(alloc, at, of, t, spot)?;
        Ok(a_place(is_register, core))
    } else {
        let ty = unqualified_copy(alloc, t)?;
        let core = member_node(alloc, ty, at, of, spot)?;
        Ok(a_value(core))
    }
}

#[tactic(auto, using(crate::proofs::Opened::const_of_view))]
fn member_place(
    alloc: Global,
    at: Place,
    of: Boxed<CoreExpr>,
    t: &Ty,
    spot: Spot,
) -> Result<Boxed<CoreExpr>, Memory>
    ensures { IfOk result (λ made. view_expr made
        ≡ expr (with_const (is_const_type (type_of (view_expr of))) (view_type t.now)) at (member (view_expr of) spot)) }
{
    let ty = with_const(alloc, of.get().ty.is_const, t)?;
    member_node(alloc, ty, at, of, spot)
}

/// What `p->m` means: `(*p).m` (ISO C99, 6.5.2.3p4). Refused only for want of memory.
pub fn arrow_meaning(
    alloc: Global,
    known: Known,
    at: Place,
    of: Operand,
    name: &[u8],
) -> Result<Operand, Memory>
    requires { IsKnown known }
    ensures { IfOk result (λ made. view_operand made ≡ arrow_meaning at (types_in known.entry) (view_operand of) name.now) }
{
    let value = value_of(alloc, of)?;
    let object = deref_meaning(alloc, at, value)?;
    dot_meaning(alloc, known, at, object, name)
}
