//! What an initialiser has stored so far (ISO C99, 6.7.8).

ghost use Rattle.std.specs.Prelude.{◌≡◌, map, option_map, IfOk};
ghost use Rattle.cx_core.specs.Views.{view_types};
ghost use Rattle.cx_init.specs.Views.{view_stored};
ghost use Rattle.cx_operands.specs.Views.{view_operand};
ghost use Rattle.cx_parts.specs.Views.{view_at};
ghost use Rattle.cx_rules.specs.Pieces.{stored_value};

use crate::values::StoredValues;
use cr_base::{Boxed, Items, Memory};
use cx_core::{CoreExpr, Ty, Types};
use cx_operands::Operand;
use cx_parts::At;
use cx_values::{fitted, value_of};
use std::alloc::Global;

/// A value that is stored in a part of an object.
#[derive(Drop)]
pub struct Stored {
    /// The numbers of the elements and members that lead to the part, each in the one before.
    pub path: Items<u64>,
    pub ty: Boxed<Ty>,
    pub value: Boxed<CoreExpr>,
}

/// What is stored so far, and where the next value stands, where there is a place for one.
#[derive(Drop)]
pub struct Filling {
    pub stored: StoredValues,
    pub next: Option<At>,
}

/// What an initialiser is for.
#[derive(Drop)]
pub struct Target {
    /// Whether the object is initialised before the program begins.
    pub is_static: bool,
    /// What the innermost list in braces is for, where there is such a part.
    pub base: Option<At>,
}

/// What the value of an operand stores at a part of the object, where there is such a part: converted to the type of the part (ISO C99,
/// 6.7.8p11). Refused only for want of memory.
pub fn value_stored(
    alloc: Global,
    types: &Types,
    value: Operand,
    at: Option<At>,
) -> Result<StoredValues, Memory>
    ensures { IfOk result (λ made. map view_stored made ≡ stored_value (view_types types.now) (view_operand value) (option_map view_at at)) }
{
    let mut made = StoredValues::new(alloc);
    match at {
        None => Ok(made),
        Some(at) => {
            let taken = value_of(alloc, value)?;
            let value = fitted(alloc, types, at.ty.get(), taken)?;
            made.push(Stored {
                path: at.path,
                ty: at.ty,
                value,
            })?;
            Ok(made)
        }
    }
}
