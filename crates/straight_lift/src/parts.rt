ghost use Rattle.std.specs.Prelude.{◌≡◌, [], ◌∷◌, ◌++◌, map, IfOk};
ghost use Rattle.straight_lift.specs.Coded.{names_of, nth_name, written_view, known_name};
ghost use Rattle.straight_lift.specs.Lifted.{temporary_place, operand_expr, operand_exprs, in_temporary, form_place};
ghost use Rattle.straight_rust_tree.specs.Tree.{i32, named, static_at, literal, read, call, neg, binary, exprs, assign, eval};
ghost use Rattle.straight_rust_tree.specs.View.{ty_view, place_view, expr_view, stmt_view};

use crate::atom::Atom;
use crate::names::{NameTable, known_name};
use crate::written::Written;
use cr_base::{Boxed, Int, Items, Memory, Name};
use std::alloc::Global;
use straight_rust_tree::{Operator, RExpr, RPath, RPlace, RStmt, RTy};

// A literal of type `i32`.
pub(crate) fn literal(value: Int) -> RExpr
    ensures { expr_view result ≡ literal value i32 }
{
    RExpr::Literal(value, RTy::I32)
}

// The name of a temporary; the empty name where there is none of this number.
fn temporary_name(alloc: Global, names: &[Name], number: u32) -> Result<Name, Memory>
    ensures { IfOk result (λ name. name ≡ nth_name names.now number) }
{
    match names.get(number as usize) {
        Some(name) => name.copy(),
        None => Ok(Name::of(Vec::new(alloc))),
    }
}

// The place of a temporary.
pub(crate) fn temporary_place(
    alloc: Global,
    names: &NameTable,
    number: u32,
) -> Result<RPlace, Memory>
    ensures { IfOk result (λ place. place_view place ≡ temporary_place (names_of names.now) number) }
{
    let name = temporary_name(alloc, names.temporaries.as_slice(), number)?;
    Ok(RPlace::Name(name))
}

// An operand, where a value is there.
pub(crate) fn operand(
    alloc: Global,
    names: &NameTable,
    value: Option<Atom>,
) -> Result<RExpr, Memory>
    ensures { IfOk result (λ e. expr_view e ≡ operand_expr (names_of names.now) value) }
{
    match value {
        None => Ok(literal(0)),
        Some(Atom::Fixed(number)) => Ok(literal(number)),
        Some(Atom::Temporary(number)) => {
            let place = temporary_place(alloc, names, number)?;
            Ok(RExpr::Place(place))
        }
    }
}

// The path of a function.
pub(crate) fn function_path(alloc: Global, names: &NameTable, callee: u32) -> Result<RPath, Memory>
    ensures home { IfOk result (λ path. path.home ≡ names.now.home) }
    ensures name { IfOk result (λ path. path.name ≡ known_name names.now.functions callee) }
{
    let name = known_name(alloc, names.functions.as_slice(), callee)?;
    let home = names.home.copy()?;
    Ok(RPath { home, name })
}

/// The place of the static object with a number, by its name in a table. Refused only for want of memory.
pub fn object_place(alloc: Global, names: &NameTable, object: u32) -> Result<RPlace, Memory>
    ensures { IfOk result (λ place. place_view place ≡ static_at names.now.home (known_name names.now.objects object)) }
{
    let name = known_name(alloc, names.objects.as_slice(), object)?;
    let home = names.home.copy()?;
    Ok(RPlace::Path(RPath { home, name }))
}

// A value is stored in the next temporary, behind other statements. A number past those of 32 bits counts
// as want of memory.
pub(crate) fn in_temporary(
    alloc: Global,
    names: &NameTable,
    stmts: Items<RStmt>,
    next: u32,
    value: RExpr,
) -> Result<Written, Memory>
    ensures { IfOk result (λ made. written_view made ≡ in_temporary (names_of names.now) (map stmt_view stmts) next (expr_view value)) }
{
    let Some(after) = next.checked_add(1) else {
        return Err(Memory);
    };
    let place = temporary_place(alloc, names, next)?;
    let mut stmts = stmts;
    stmts.push(RStmt::Assign(place, value))?;
    Ok(Written {
        stmts,
        value: Some(Atom::Temporary(next)),
        next: after,
    })
}

// The operands of a call.
pub(crate) fn operands(
    alloc: Global,
    names: &NameTable,
    values: &[Option<Atom>],
) -> Result<Items<RExpr>, Memory>
    ensures { IfOk result (λ made. map expr_view made ≡ operand_exprs (names_of names.now) values.now) }
{
    let mut made = Items::new(alloc);
    for value in values {
        made.push(operand(alloc, names, *value)?)?;
    }
    Ok(made)
}
