//! The calls by name in a statement, and those of a unit (ISO C99, 6.5.2.2, 6.8). The walks are refused only for want of memory.

ghost use Rattle.std.specs.Prelude.{◌≡◌, map, option_map, IfOk, OnOk};
ghost use Rattle.cx_core.specs.Views.{otherwise_of, stmts_of, view_function, view_object, view_program, view_stmt};
ghost use Rattle.whole_keys.specs.Behind.{calls_behind_else, calls_behind_function, calls_behind_functions, calls_behind_object, calls_behind_objects, calls_behind_stmt, calls_behind_stmts};
ghost use Rattle.whole_keys.specs.Views.{view_call};
ghost use Rattle.whole_names.specs.Keys.{calls_of};

use crate::calls::{NamedCall, calls_behind, contents_behind, option_behind};
use cr_base::{Boxed, Items, Memory};
use cx_core::{CoreObject, CoreStmt, Fun, Parts, StmtForm};
use std::alloc::Global;

// Those of a statement behind others.
#[cycle(stmts)]
fn stmt_behind(s: &CoreStmt, calls: &mut Items<NamedCall>) -> Result<(), Memory>
    ensures { OnOk result (map view_call calls.new ≡ calls_behind_stmt (view_stmt s.now) (map view_call calls.old)) }
{
    match &s.form {
        StmtForm::Label(_, body) | StmtForm::Case(_, body) | StmtForm::Default(body) => {
            stmt_behind(body.get(), calls)
        }
        StmtForm::Block(stmts) => stmts_behind(stmts.as_slice(), calls),
        StmtForm::Expr(value) | StmtForm::Return(value) => option_behind(value, calls),
        StmtForm::If(test, body, otherwise) => {
            calls_behind(test.get(), calls)?;
            stmt_behind(body.get(), calls)?;
            else_behind(otherwise, calls)
        }
        StmtForm::Switch(value, body) | StmtForm::While(value, body) => {
            calls_behind(value.get(), calls)?;
            stmt_behind(body.get(), calls)
        }
        StmtForm::Do(body, test) => {
            stmt_behind(body.get(), calls)?;
            calls_behind(test.get(), calls)
        }
        StmtForm::For {
            first,
            test,
            next,
            body,
        } => {
            stmts_behind(first.as_slice(), calls)?;
            option_behind(test, calls)?;
            option_behind(next, calls)?;
            stmt_behind(body.get(), calls)
        }
        StmtForm::Goto(_) | StmtForm::Continue | StmtForm::Break => Ok(()),
        StmtForm::Begin(_, contents) => contents_behind(contents, calls),
    }
}

// Those of what follows `else`.
#[cycle(stmts)]
fn else_behind(
    otherwise: &Option<Boxed<CoreStmt>>,
    calls: &mut Items<NamedCall>,
) -> Result<(), Memory>
    ensures { OnOk result (map view_call calls.new ≡ calls_behind_else (otherwise_of (option_map view_stmt otherwise.now)) (map view_call calls.old)) }
{
    match otherwise {
        None => Ok(()),
        Some(body) => stmt_behind(body.get(), calls),
    }
}

// Those of statements, in their order.
#[cycle(stmts)]
fn stmts_behind(stmts: &[CoreStmt], calls: &mut Items<NamedCall>) -> Result<(), Memory>
    ensures { OnOk result (map view_call calls.new ≡ calls_behind_stmts (stmts_of (map view_stmt stmts.now)) (map view_call calls.old)) }
{
    for one in stmts {
        stmt_behind(one, calls)?;
    }
    Ok(())
}

// Those of an object that is of the unit.
fn object_behind(one: &CoreObject, unit: u32, calls: &mut Items<NamedCall>) -> Result<(), Memory>
    ensures { OnOk result (map view_call calls.new ≡ calls_behind_object unit (view_object one.now) (map view_call calls.old)) }
{
    if one.unit == unit {
        return contents_behind(&one.puts, calls);
    }
    Ok(())
}

// Those of the objects of a unit, behind others.
fn objects_behind(
    objects: &[CoreObject],
    unit: u32,
    calls: &mut Items<NamedCall>,
) -> Result<(), Memory>
    ensures { OnOk result (map view_call calls.new ≡ calls_behind_objects unit (map view_object objects.now) (map view_call calls.old)) }
{
    for one in objects {
        object_behind(one, unit, calls)?;
    }
    Ok(())
}

// Those of a function that is of the unit.
fn function_behind(one: &Fun, unit: u32, calls: &mut Items<NamedCall>) -> Result<(), Memory>
    ensures { OnOk result (map view_call calls.new ≡ calls_behind_function unit (view_function one.now) (map view_call calls.old)) }
{
    if one.unit == unit {
        return stmt_behind(&one.body, calls);
    }
    Ok(())
}

// Those of the functions of a unit, behind others.
fn functions_behind(
    functions: &[Fun],
    unit: u32,
    calls: &mut Items<NamedCall>,
) -> Result<(), Memory>
    ensures { OnOk result (map view_call calls.new ≡ calls_behind_functions unit (map view_function functions.now) (map view_call calls.old)) }
{
    for one in functions {
        function_behind(one, unit, calls)?;
    }
    Ok(())
}

/// The calls by name of a unit.
pub fn calls_of(alloc: Global, parts: &Parts, unit: u32) -> Result<Items<NamedCall>, Memory>
    ensures { IfOk result (λ calls. map view_call calls ≡ calls_of (view_program parts.now) unit) }
{
    let mut calls = Items::new(alloc);
    objects_behind(parts.objects.as_slice(), unit, &mut calls)?;
    functions_behind(parts.functions.as_slice(), unit, &mut calls)?;
    Ok(calls)
}
