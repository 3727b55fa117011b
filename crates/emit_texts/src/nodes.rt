//! The statements of a node.

ghost use Rattle.std.specs.Prelude.{◌≡◌, length, map, IfOk};
ghost use Rattle.emit_rules.specs.Bodies.{node_stmts};
ghost use Rattle.emit_texts.specs.Texts.{text_view};
ghost use Rattle.flow.specs.Flows.{node_at, targets_of};
ghost use Rattle.flow.specs.Views.{flow_view};
ghost use Rattle.rs_mean.specs.Laws.{behind};
ghost use Rattle.rs_text.specs.Tree.{stmts};
ghost use Rattle.rs_tree.specs.Views.{stmt_view};

use crate::branches::{Text, branch_stmts};
use cr_base::{Items, Memory};
use emit_stmts::{Labels, copy_stmts};
use flow::Flow;
use rs_tree::RStmt;
use std::alloc::Global;

/// An equal body, and statements behind it.
fn behind_body(
    alloc: Global,
    body: &Items<RStmt>,
    rest: Items<RStmt>,
) -> Result<Items<RStmt>, Memory>
    ensures { IfOk result (λ made. stmts (map stmt_view made) ≡ behind (stmts (map stmt_view body.now)) (stmts (map stmt_view rest))) }
{
    let mut made = copy_stmts(alloc, &Labels::AsTheyAre, body)?;
    made.append(rest)?;
    Ok(made)
}

/// A node's statements, and its branch with the statements that stand at each of its targets.
pub(crate) fn node_stmts(
    alloc: Global,
    flow: &Flow,
    node: u32,
    texts: Items<Text>,
) -> Result<Items<RStmt>, Memory>
    requires { length texts ≡ length (targets_of (flow_view flow.now) node) }
    ensures { IfOk result (λ made. stmts (map stmt_view made) ≡ node_stmts (node_at (flow_view flow.now) node) (map text_view texts)) }
{
    let Some(node) = flow.nodes.get(node as usize) else {
        return Ok(Items::new(alloc));
    };
    let branch = branch_stmts(alloc, &node.last, texts)?;
    behind_body(alloc, &node.body, branch)
}
