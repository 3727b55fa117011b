//! Constants, and the sizes of types (ISO C99, 6.4.4 and 6.5.3.4).

ghost use Rattle.std.specs.Prelude.{◌≡◌, pos, ℤ, None, Some, IfOk};
ghost use Rattle.cx_core.specs.Views.{view_type};
ghost use Rattle.cx_kinds.specs.Known.{IsKnown, types_in};
ghost use Rattle.cx_operands.specs.Views.{view_operand};
ghost use Rattle.cx_rules.specs.Meanings.{basic_of_constant, int_meaning, no_meaning, number_meaning, size_meaning};
ghost use Rattle.cx_rules.specs.Types.{size_of};

use cr_base::{Int, Memory, Place};
use cx_core::{Basic, Ty};
use cx_forms::{basic_ty, whole_node};
use cx_kinds::{Known, size_of};
use cx_lex::Ty0;
use cx_operands::Operand;
use cx_operators::a_value;
use std::alloc::Global;

/// What an integer constant means (ISO C99, 6.4.4.1p5). Refused only for want of memory.
pub fn number_meaning(alloc: Global, at: Place, value: u64, ty: Ty0) -> Result<Operand, Memory>
    ensures { IfOk result (λ made. view_operand made ≡ number_meaning at value ty) }
{
    let of = basic_ty(alloc, basic_of_constant(ty))?;
    let core = whole_node(alloc, of, at, Int::from(value))?;
    Ok(a_value(core))
}

fn basic_of_constant(ty: Ty0) -> Basic
    ensures { result ≡ basic_of_constant ty }
{
    match ty {
        Ty0::Int => Basic::Int,
        Ty0::Unsigned => Basic::Unsigned,
        Ty0::Long => Basic::Long,
        Ty0::UnsignedLong => Basic::UnsignedLong,
        Ty0::LongLong => Basic::LongLong,
        Ty0::UnsignedLongLong => Basic::UnsignedLongLong,
    }
}

/// What a character constant or an enumeration constant means (ISO C99, 6.4.4.3p2, 6.4.4.4p10). Refused only for want of
/// memory.
pub fn int_meaning(alloc: Global, at: Place, value: Int) -> Result<Operand, Memory>
    ensures { IfOk result (λ made. view_operand made ≡ int_meaning at value) }
{
    let of = basic_ty(alloc, Basic::Int)?;
    let core = whole_node(alloc, of, at, value)?;
    Ok(a_value(core))
}

/// What a node whose parts break a rule means: nothing is asked of it. Refused only for want of memory.
pub fn no_meaning(alloc: Global, at: Place) -> Result<Operand, Memory>
    ensures { IfOk result (λ made. view_operand made ≡ no_meaning at) }
{
    let of = basic_ty(alloc, Basic::Int)?;
    let core = whole_node(alloc, of, at, 0)?;
    Ok(a_value(core))
}

/// What `sizeof` of a type, or of an operand of that type, means (ISO C99, 6.5.3.4p2). Refused only for want of memory.
pub fn size_meaning(alloc: Global, known: Known, at: Place, t: &Ty) -> Result<Operand, Memory>
    requires { IsKnown known }
    ensures { IfOk result (λ made. view_operand made ≡ size_meaning at (types_in known.entry) (view_type t.now)) }
{
    let of = basic_ty(alloc, Basic::UnsignedLong)?;
    let core = whole_node(alloc, of, at, size_number(known, t))?;
    Ok(a_value(core))
}

fn size_number(known: Known, t: &Ty) -> Int
    requires { IsKnown known }
    ensures { result ≡ (elim (size_of (types_in known.entry) (view_type t.now)) as (λ _. ℤ) [ None ↦ pos 0 | Some size ↦ pos size ]) }
{
    match size_of(known, t) {
        None => 0,
        Some(size) => Int::from(size),
    }
}
