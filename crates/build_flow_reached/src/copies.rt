//! Copies of nodes.

ghost use Rattle.std.specs.Prelude.{◌≡◌, map, option_map, IfOk};
ghost use Rattle.flow.specs.Views.{branch_view};
ghost use Rattle.rs_tree.specs.Views.{expr_view, stmt_view};

use cr_base::{Boxed, Items, Memory};
use emit_stmts::{Labels, copy_stmts};
use flow::{Branch, FlowNode};
use rs_makers::copy_expr;
use rs_tree::{RExpr, RStmt};
use std::alloc::Global;

fn copy_body(alloc: Global, body: &Items<RStmt>) -> Result<Items<RStmt>, Memory>
    ensures { IfOk result (λ made. map stmt_view made ≡ map stmt_view body.now) }
{
    copy_stmts(alloc, &Labels::AsTheyAre, body)
}

fn copy_value(alloc: Global, value: &Option<Boxed<RExpr>>) -> Result<Option<Boxed<RExpr>>, Memory>
    ensures { IfOk result (λ made. option_map expr_view made ≡ option_map expr_view value.now) }
{
    match value {
        Some(value) => Ok(Some(copy_expr(alloc, value.get())?)),
        None => Ok(None),
    }
}

fn copy_branch(alloc: Global, branch: &Branch) -> Result<Branch, Memory>
    ensures { IfOk result (λ made. branch_view made ≡ branch_view branch.now) }
{
    match branch {
        Branch::Go(to) => Ok(Branch::Go(*to)),
        Branch::If(test, if_true, if_false) => {
            let test = copy_expr(alloc, test.get())?;
            Ok(Branch::If(test, *if_true, *if_false))
        }
        Branch::Switch {
            on,
            by,
            cases,
            other,
        } => {
            let cases = Items::from_slice(alloc, cases.as_slice())?;
            let on = copy_expr(alloc, on.get())?;
            Ok(Branch::Switch {
                on,
                by: *by,
                cases,
                other: *other,
            })
        }
        Branch::Return(value) => Ok(Branch::Return(copy_value(alloc, value)?)),
    }
}

/// An equal node. Refused only for want of memory.
pub(crate) fn copy_node(alloc: Global, node: &FlowNode) -> Result<FlowNode, Memory>
    ensures body { IfOk result (λ made. map stmt_view made.body ≡ map stmt_view node.now.body) }
    ensures last { IfOk result (λ made. branch_view made.last ≡ branch_view node.now.last) }
{
    let last = copy_branch(alloc, &node.last)?;
    let body = copy_body(alloc, &node.body)?;
    Ok(FlowNode { body, last })
}
