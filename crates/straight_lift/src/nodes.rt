ghost use Rattle.std.specs.Prelude.{◌≡◌, [], ◌∷◌, ◌++◌, map, IfOk};
ghost use Rattle.straight_core.specs.Trees.{form_of_type};
ghost use Rattle.straight_core.specs.Views.{view_expr, view_type};
ghost use Rattle.straight_lift.specs.Coded.{names_of, written_view, args_view};
ghost use Rattle.straight_lift.specs.Lifted.{operand_expr, operator_of, in_temporary, held, held_atom, lvalue_place, lifted_unary, lifted_conversion, lifted_call, lifted_binary, lifted_assign};
ghost use Rattle.straight_rust_tree.specs.Tree.{read};
ghost use Rattle.straight_rust_tree.specs.View.{place_view, expr_view, stmt_view};

use crate::atom::Atom;
use crate::names::NameTable;
use crate::parts::{function_path, in_temporary, literal, object_place, operand, operands};
use crate::written::{Written, WrittenArgs};
use cr_base::{Boxed, Items, Memory, Name};
use std::alloc::Global;
use straight_core::{CoreExpr, Form, Op1, Op2, Ty, TyForm};
use straight_rust_tree::{Operator, RExpr, RPath, RPlace, RStmt};

// The static object that an lvalue names.
pub(crate) fn lvalue(alloc: Global, names: &NameTable, e: &CoreExpr) -> Result<RPlace, Memory>
    ensures { IfOk result (λ place. place_view place ≡ lvalue_place (names_of names.now) (view_expr e.now)) }
{
    match &e.form {
        Form::Object(number) => object_place(alloc, names, *number),
        _ => {
            let home = names.home.copy()?;
            let name = Name::of(Vec::new(alloc));
            Ok(RPlace::Path(RPath { home, name }))
        }
    }
}

// A literal is stored in a temporary first.
fn hold(alloc: Global, names: &NameTable, one: Written) -> Result<Written, Memory>
    ensures { IfOk result (λ made. written_view made ≡ held (names_of names.now) (written_view one)) }
{
    match one.value {
        Some(Atom::Fixed(value)) => in_temporary(alloc, names, one.stmts, one.next, literal(value)),
        _ => Ok(one),
    }
}

// A unary operator behind its operand.
pub(crate) fn unary(
    alloc: Global,
    names: &NameTable,
    op: Op1,
    one: Written,
) -> Result<Written, Memory>
    ensures { IfOk result (λ made. written_view made ≡ lifted_unary (names_of names.now) op (held (names_of names.now) (written_view one))) }
{
    let one = hold(alloc, names, one)?;
    let value = operand(alloc, names, one.value)?;
    match op {
        Op1::Minus => {
            let value = RExpr::Neg(Boxed::new(alloc, value)?);
            in_temporary(alloc, names, one.stmts, one.next, value)
        }
    }
}

fn operator(op: Op2) -> Operator
    ensures { result ≡ operator_of op }
{
    match op {
        Op2::Add => Operator::Add,
        Op2::Subtract => Operator::Sub,
        Op2::Multiply => Operator::Mul,
    }
}

// An operator between two operands, behind both.
pub(crate) fn binary(
    alloc: Global,
    names: &NameTable,
    op: Op2,
    one: Written,
    other: Written,
) -> Result<Written, Memory>
    ensures { IfOk result (λ made. written_view made ≡ lifted_binary (names_of names.now) op (written_view one) (written_view other)) }
{
    let left = Boxed::new(alloc, operand(alloc, names, one.value)?)?;
    let right = Boxed::new(alloc, operand(alloc, names, other.value)?)?;
    let mut stmts = one.stmts;
    stmts.append(other.stmts)?;
    let value = RExpr::Binary(operator(op), left, right);
    in_temporary(alloc, names, stmts, other.next, value)
}

// The store of an assignment, behind its value.
pub(crate) fn store(
    alloc: Global,
    names: &NameTable,
    target: &CoreExpr,
    one: Written,
) -> Result<Written, Memory>
    ensures { IfOk result (λ made. written_view made ≡ lifted_assign (names_of names.now) (view_expr target.now) (written_view one)) }
{
    let place = lvalue(alloc, names, target)?;
    let value = operand(alloc, names, one.value)?;
    let mut stmts = one.stmts;
    stmts.push(RStmt::Assign(place, value))?;
    Ok(Written {
        stmts,
        value: one.value,
        next: one.next,
    })
}

// A conversion to a type, behind its operand.
pub(crate) fn conversion(ty: &Ty, one: Written) -> Written
    ensures { written_view result ≡ lifted_conversion (form_of_type (view_type ty.now)) (written_view one) }
{
    match &ty.form {
        TyForm::Void => Written {
            stmts: one.stmts,
            value: None,
            next: one.next,
        },
        TyForm::Int => one,
        TyForm::Function(_, _, _) => one,
    }
}

// A call whose result has a type, behind its arguments.
pub(crate) fn call(
    alloc: Global,
    names: &NameTable,
    ty: &Ty,
    callee: u32,
    args: WrittenArgs,
) -> Result<Written, Memory>
    ensures { IfOk result (λ made. written_view made ≡ lifted_call (names_of names.now) (form_of_type (view_type ty.now)) callee (args_view args)) }
{
    let path = function_path(alloc, names, callee)?;
    let values = operands(alloc, names, args.values.as_slice())?;
    let value = RExpr::Call(path, values);
    match &ty.form {
        TyForm::Void => {
            let mut stmts = args.stmts;
            stmts.push(RStmt::Eval(value))?;
            Ok(Written {
                stmts,
                value: None,
                next: args.next,
            })
        }
        TyForm::Int => in_temporary(alloc, names, args.stmts, args.next, value),
        TyForm::Function(_, _, _) => Ok(Written {
            stmts: args.stmts,
            value: None,
            next: args.next,
        }),
    }
}
