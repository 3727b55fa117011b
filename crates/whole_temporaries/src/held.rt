//! The types of the temporaries of held operands, in the order of the text, behind others. Each is refused only for want of memory.

ghost use Rattle.std.specs.Prelude.{◌≡◌, ◌++◌, map, option_map, OnOk};
ghost use Rattle.build_flow_nodes.specs.Parts as parts;
ghost use Rattle.cx_core.specs.Views.{puts_of, stmts_of, view_expr, view_put, view_puts, view_stmt};
ghost use Rattle.lift_exprs.specs.Temporaries as spec;
ghost use Rattle.rs_tree.specs.Views.{ty_view};
ghost use Rattle.whole_temporaries.specs.Types.{names_of};

use cr_base::{Boxed, Items, Memory};
use cx_core::{CoreExpr, CoreStmt, Put, StmtForm};
use lift::{full, operand};
use lift_temporaries::{held_types, held_types_in_puts};
use rs_items::NameMap;
use rs_tree::RTy;
use std::alloc::Global;

// ---- expressions

// Those of a condition or another operand.
#[tactic(auto, unfolding(crate::specs::Types::names_of))]
fn operand_types(
    alloc: Global,
    names: &NameMap,
    e: &CoreExpr,
    types: &mut Items<RTy>,
) -> Result<(), Memory>
    ensures { OnOk result (map ty_view types.new ≡ map ty_view types.old ++ parts.temporaries_in_operand (names_of names.now) (view_expr e.now)) }
{
    held_types(alloc, names, operand(), e, types)
}

// Those of a full expression.
#[tactic(auto, using(crate::proofs::Full::full_types), unfolding(crate::specs::Types::names_of))]
fn full_types(
    alloc: Global,
    names: &NameMap,
    e: &CoreExpr,
    types: &mut Items<RTy>,
) -> Result<(), Memory>
    ensures { OnOk result (map ty_view types.new ≡ map ty_view types.old ++ parts.temporaries_in (names_of names.now) (view_expr e.now)) }
{
    let asked = full(e);
    held_types(alloc, names, asked, e, types)
}

// Those of the values of an initialiser.
#[tactic(auto, unfolding(crate::specs::Types::names_of))]
fn put_types(
    alloc: Global,
    names: &NameMap,
    puts: &[Put],
    types: &mut Items<RTy>,
) -> Result<(), Memory>
    ensures { OnOk result (map ty_view types.new ≡ map ty_view types.old ++ spec.held_types_in_puts (names_of names.now) (puts_of (map view_put puts.now))) }
{
    held_types_in_puts(alloc, names, puts, types)
}

fn option_types(
    alloc: Global,
    names: &NameMap,
    e: &Option<Boxed<CoreExpr>>,
    types: &mut Items<RTy>,
) -> Result<(), Memory>
    ensures { OnOk result (map ty_view types.new ≡ map ty_view types.old ++ parts.temporaries_in_option (names_of names.now) (option_map view_expr e.now)) }
{
    match e {
        Some(e) => full_types(alloc, names, e.get(), types),
        None => Ok(()),
    }
}

fn condition_types(
    alloc: Global,
    names: &NameMap,
    e: &Option<Boxed<CoreExpr>>,
    types: &mut Items<RTy>,
) -> Result<(), Memory>
    ensures { OnOk result (map ty_view types.new ≡ map ty_view types.old ++ parts.temporaries_in_condition (names_of names.now) (option_map view_expr e.now)) }
{
    match e {
        Some(e) => operand_types(alloc, names, e.get(), types),
        None => Ok(()),
    }
}

fn contents_types(
    alloc: Global,
    names: &NameMap,
    puts: &Option<Items<Put>>,
    types: &mut Items<RTy>,
) -> Result<(), Memory>
    ensures { OnOk result (map ty_view types.new ≡ map ty_view types.old ++ parts.temporaries_in_contents (names_of names.now) (option_map view_puts puts.now)) }
{
    match puts {
        Some(puts) => put_types(alloc, names, puts.as_slice(), types),
        None => Ok(()),
    }
}

// ---- statements

/// Those of a statement.
#[cycle(holding)]
pub(crate) fn stmt_types(
    alloc: Global,
    s: &CoreStmt,
    names: &NameMap,
    types: &mut Items<RTy>,
) -> Result<(), Memory>
    ensures { OnOk result (map ty_view types.new ≡ map ty_view types.old ++ parts.temporaries_in_stmt (names_of names.now) (view_stmt s.now)) }
{
    match &s.form {
        StmtForm::Label(_, body) => stmt_types(alloc, body.get(), names, types),
        StmtForm::Case(_, body) => stmt_types(alloc, body.get(), names, types),
        StmtForm::Default(body) => stmt_types(alloc, body.get(), names, types),
        StmtForm::Block(stmts) => list_types(alloc, stmts.as_slice(), names, types),
        StmtForm::Expr(value) => option_types(alloc, names, value, types),
        StmtForm::If(test, first, second) => {
            operand_types(alloc, names, test.get(), types)?;
            stmt_types(alloc, first.get(), names, types)?;
            match second {
                Some(other) => stmt_types(alloc, other.get(), names, types),
                None => Ok(()),
            }
        }
        StmtForm::Switch(value, body) => {
            operand_types(alloc, names, value.get(), types)?;
            stmt_types(alloc, body.get(), names, types)
        }
        StmtForm::While(test, body) => {
            operand_types(alloc, names, test.get(), types)?;
            stmt_types(alloc, body.get(), names, types)
        }
        StmtForm::Do(body, test) => {
            stmt_types(alloc, body.get(), names, types)?;
            operand_types(alloc, names, test.get(), types)
        }
        StmtForm::For {
            first,
            test,
            next,
            body,
        } => {
            list_types(alloc, first.as_slice(), names, types)?;
            condition_types(alloc, names, test, types)?;
            option_types(alloc, names, next, types)?;
            stmt_types(alloc, body.get(), names, types)
        }
        StmtForm::Return(value) => option_types(alloc, names, value, types),
        StmtForm::Begin(_, puts) => contents_types(alloc, names, puts, types),
        StmtForm::Goto(_) | StmtForm::Continue | StmtForm::Break => Ok(()),
    }
}

// Those of the statements of a list.
#[cycle(holding)]
fn list_types(
    alloc: Global,
    stmts: &[CoreStmt],
    names: &NameMap,
    types: &mut Items<RTy>,
) -> Result<(), Memory>
    ensures { OnOk result (map ty_view types.new ≡ map ty_view types.old ++ parts.temporaries_in_stmts (names_of names.now) (stmts_of (map view_stmt stmts.now))) }
{
    for one in stmts {
        stmt_types(alloc, one, names, types)?;
    }
    Ok(())
}
