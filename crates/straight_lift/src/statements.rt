ghost use Rattle.std.specs.Prelude.{◌≡◌, [], ◌∷◌, ◌++◌, map, IfOk, option_map};
ghost use Rattle.straight_core.specs.Views.{view_expr, view_stmt, stmts_of};
ghost use Rattle.straight_lift.specs.Coded.{names_of, written_view, stmts_view};
ghost use Rattle.straight_lift.specs.Lifted.{lift_return, lift_stmt, lift_stmts};

use crate::lifting::lift;
use crate::names::NameTable;
use crate::parts::operand;
use crate::written::WrittenStmts;
use cr_base::{Items, Memory};
use std::alloc::Global;
use straight_core::{CoreExpr, CoreStmt, StmtForm};
use straight_rust_tree::RStmt;

#[cycle(lift_stmt)]
/// What is written for a statement, with temporaries from a number on. Refused only for want of memory, as
/// `lift` is.
pub fn lift_stmt(
    alloc: Global,
    stmt: &CoreStmt,
    names: &NameTable,
    from: u32,
) -> Result<WrittenStmts, Memory>
    ensures { IfOk result (λ made. stmts_view made ≡ lift_stmt (names_of names.now) (view_stmt stmt.now) from) }
{
    match &stmt.form {
        StmtForm::Block(stmts) => lift_stmts(alloc, stmts.as_slice(), names, from),
        StmtForm::Expr(value) => {
            let one = lift(alloc, value, names, from)?;
            Ok(WrittenStmts {
                stmts: one.stmts,
                next: one.next,
            })
        }
        StmtForm::Return(value) => lift_return(alloc, value, names, from),
    }
}

#[cycle(lift_stmt)]
// What is written for statements, in order.
fn lift_stmts(
    alloc: Global,
    list: &[CoreStmt],
    names: &NameTable,
    from: u32,
) -> Result<WrittenStmts, Memory>
    ensures { IfOk result (λ made. stmts_view made ≡ lift_stmts (names_of names.now) (stmts_of (map view_stmt list.now)) from) }
{
    let mut stmts = Items::new(alloc);
    let mut next = from;
    for stmt in list {
        let one = lift_stmt(alloc, stmt, names, next)?;
        stmts.append(one.stmts)?;
        next = one.next;
    }
    Ok(WrittenStmts { stmts, next })
}

// What is written for a `return`.
fn lift_return(
    alloc: Global,
    value: &Option<CoreExpr>,
    names: &NameTable,
    from: u32,
) -> Result<WrittenStmts, Memory>
    ensures { IfOk result (λ made. stmts_view made ≡ lift_return (names_of names.now) (option_map view_expr value.now) from) }
{
    match value {
        None => {
            let mut stmts = Items::new(alloc);
            stmts.push(RStmt::Return(None))?;
            Ok(WrittenStmts { stmts, next: from })
        }
        Some(value) => {
            let one = lift(alloc, value, names, from)?;
            let given = operand(alloc, names, one.value)?;
            let mut stmts = one.stmts;
            stmts.push(RStmt::Return(Some(given)))?;
            Ok(WrittenStmts {
                stmts,
                next: one.next,
            })
        }
    }
}
