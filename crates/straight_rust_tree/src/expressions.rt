ghost use Rattle.std.specs.Prelude.{◌≡◌, ◌++◌, ◌↔◌, map, IsTrue, OnOk, drop};
ghost use Rattle.straight_rust_tree.specs.Lines.{type_text, path_text, place_text, operator_text, is_atom, operand_text, expr_text, args_text, more_args_text, stmt_text};
ghost use Rattle.straight_rust_tree.specs.Tree.{exprs};
ghost use Rattle.straight_rust_tree.specs.View.{ty_view, place_view, expr_view, stmt_view};

use crate::draft::Draft;
use crate::tree::{Operator, RExpr, RPath, RPlace, RStmt, RTy};
use cr_base::Memory;

pub(crate) fn type_text(ty: &RTy) -> &'static str
    ensures { result.now ≡ type_text (ty_view ty.now) }
{
    match ty {
        RTy::I8 => "i8",
        RTy::I16 => "i16",
        RTy::I32 => "i32",
        RTy::I64 => "i64",
        RTy::U8 => "u8",
        RTy::U16 => "u16",
        RTy::U32 => "u32",
        RTy::U64 => "u64",
        RTy::Isize => "isize",
        RTy::Usize => "usize",
        RTy::Bool => "bool",
    }
}

fn operator_text(operator: Operator) -> &'static str
    ensures { result.now ≡ operator_text operator }
{
    match operator {
        Operator::Add => " + ",
        Operator::Sub => " - ",
        Operator::Mul => " * ",
    }
}

pub(crate) fn path(draft: &mut Draft, path: &RPath) -> Result<(), Memory>
    ensures { OnOk result (draft.new ≡ draft.old ++ path_text path.now.home path.now.name) }
{
    draft.text("crate::")?;
    draft.name(&path.home)?;
    draft.text("::")?;
    draft.name(&path.name)
}

fn place(draft: &mut Draft, place: &RPlace) -> Result<(), Memory>
    ensures { OnOk result (draft.new ≡ draft.old ++ place_text (place_view place.now)) }
{
    match place {
        RPlace::Name(name) => draft.name(name),
        RPlace::Path(of) => path(draft, of),
    }
}

// Whether an expression is an atom; a compound stands in parentheses where it is an operand.
fn is_atom(expression: &RExpr) -> bool
    ensures { result ≡ is_atom (expr_view expression.now) }
{
    match expression {
        RExpr::Literal(value, _) => *value >= 0,
        RExpr::Place(_) => true,
        RExpr::Call(_, _) => true,
        RExpr::Neg(_) => false,
        RExpr::Binary(_, _, _) => false,
    }
}

#[cycle(expressions)]
pub(crate) fn expression(draft: &mut Draft, expression: &RExpr) -> Result<(), Memory>
    ensures { OnOk result (draft.new ≡ draft.old ++ expr_text (expr_view expression.now)) }
{
    match expression {
        RExpr::Literal(value, ty) => {
            draft.number(*value)?;
            draft.text(type_text(ty))
        }
        RExpr::Place(of) => place(draft, of),
        RExpr::Call(of, args) => {
            path(draft, of)?;
            draft.text("(")?;
            arguments(draft, args.as_slice())?;
            draft.text(")")
        }
        RExpr::Neg(of) => {
            draft.text("-")?;
            operand(draft, of.get())
        }
        RExpr::Binary(operator, left, right) => {
            operand(draft, left.get())?;
            draft.text(operator_text(*operator))?;
            operand(draft, right.get())
        }
    }
}

#[cycle(expressions)]
fn operand(draft: &mut Draft, of: &RExpr) -> Result<(), Memory>
    ensures { OnOk result (draft.new ≡ draft.old ++ operand_text (is_atom (expr_view of.now)) (expr_text (expr_view of.now))) }
{
    if is_atom(of) {
        return expression(draft, of);
    }
    draft.text("(")?;
    expression(draft, of)?;
    draft.text(")")
}

// The arguments of a call, with a comma and a blank between two.
#[cycle(expressions)]
fn arguments(draft: &mut Draft, args: &[RExpr]) -> Result<(), Memory>
    ensures { OnOk result (draft.new ≡ draft.old ++ args_text (exprs (map expr_view args.now))) }
{
    let Some(first) = args.first() else {
        return Ok(());
    };
    expression(draft, first)?;
    more_arguments(draft, args)
}

// The arguments behind the first.
#[cycle(expressions)]
fn more_arguments(draft: &mut Draft, args: &[RExpr]) -> Result<(), Memory>
    ensures { OnOk result (draft.new ≡ draft.old ++ more_args_text (exprs (map expr_view (drop 1 args.now)))) }
{
    for index in 1..args.len() {
        draft.text(", ")?;
        expression(draft, &args[index])?;
    }
    Ok(())
}

/// The text of a statement's line.
pub(crate) fn statement(draft: &mut Draft, statement: &RStmt) -> Result<(), Memory>
    ensures { OnOk result (draft.new ≡ draft.old ++ stmt_text (stmt_view statement.now)) }
{
    match statement {
        RStmt::Assign(to, value) => {
            place(draft, to)?;
            draft.text(" = ")?;
            expression(draft, value)?;
            draft.text(";")
        }
        RStmt::Eval(value) => {
            expression(draft, value)?;
            draft.text(";")
        }
        RStmt::Return(None) => draft.text("return;"),
        RStmt::Return(Some(value)) => {
            draft.text("return ")?;
            expression(draft, value)?;
            draft.text(";")
        }
    }
}
