ghost use Rattle.std.specs.Prelude.{◌≡◌, map, option_map};
ghost use Rattle.straight_core.specs.Views.{exprs_of, stmts_of, view_expr, view_stmt};
ghost use Rattle.straight_whole.specs.Calls.{calls_in, calls_in_args, calls_in_option, calls_in_stmt, calls_in_stmts};

use straight_core::{CoreExpr, CoreStmt, Form, StmtForm};

#[cycle(calls)]
// Whether an expression has a call of the function with this number (ISO C99, 6.5.2.2).
fn calls_in(number: u32, e: &CoreExpr) -> bool
    ensures { result ≡ calls_in number (view_expr e.now) }
{
    match &e.form {
        Form::Whole(_) => false,
        Form::Object(_) => false,
        Form::Load(place) => calls_in(number, place.get()),
        Form::Convert(value) => calls_in(number, value.get()),
        Form::Unary(_, value) => calls_in(number, value.get()),
        Form::Binary(_, left, right) => {
            calls_in(number, left.get()) || calls_in(number, right.get())
        }
        Form::Assign(target, value) => {
            calls_in(number, target.get()) || calls_in(number, value.get())
        }
        Form::Call(callee, args) => *callee == number || calls_in_args(number, args.as_slice()),
    }
}

#[cycle(calls)]
// Whether one of these arguments has such a call.
fn calls_in_args(number: u32, args: &[CoreExpr]) -> bool
    ensures { result ≡ calls_in_args number (exprs_of (map view_expr args.now)) }
{
    for arg in args {
        if calls_in(number, arg) {
            return true;
        }
    }
    false
}

// Whether the value of a `return` (6.8.6.4) has such a call, if there is one.
fn calls_in_return(number: u32, value: &Option<CoreExpr>) -> bool
    ensures { result ≡ calls_in_option number (option_map view_expr value.now) }
{
    match value {
        None => false,
        Some(value) => calls_in(number, value),
    }
}

#[cycle(calls_in_stmt)]
// Whether a statement (6.8) has a call of the function with this number.
pub(crate) fn calls_in_stmt(number: u32, stmt: &CoreStmt) -> bool
    ensures { result ≡ calls_in_stmt number (view_stmt stmt.now) }
{
    match &stmt.form {
        StmtForm::Block(stmts) => calls_in_stmts(number, stmts.as_slice()),
        StmtForm::Expr(value) => calls_in(number, value),
        StmtForm::Return(value) => calls_in_return(number, value),
    }
}

#[cycle(calls_in_stmt)]
// Whether one of these statements has such a call.
fn calls_in_stmts(number: u32, stmts: &[CoreStmt]) -> bool
    ensures { result ≡ calls_in_stmts number (stmts_of (map view_stmt stmts.now)) }
{
    for stmt in stmts {
        if calls_in_stmt(number, stmt) {
            return true;
        }
    }
    false
}
