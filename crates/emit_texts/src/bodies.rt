//! The statements of a function's body.

ghost use Rattle.std.specs.Prelude.{◌≡◌, [], map, IfOk};
ghost use Rattle.emit_nests.specs.Views.{nest_view};
ghost use Rattle.emit_rules.specs.Bodies.{body_of, draft_of, without_last_return};
ghost use Rattle.emit_rules.specs.Labels.{numbered};
ghost use Rattle.emit_rules.specs.Nests.{chain};
ghost use Rattle.emit_texts.specs.Texts.{is_plain_return};
ghost use Rattle.flow.specs.Views.{flow_view};
ghost use Rattle.rs_text.specs.Tree.{stmts};
ghost use Rattle.rs_tree.specs.Views.{stmt_view};

use crate::nests::chain_stmts;
use crate::ways::told;
use cr_base::{Items, Memory};
use emit_nests::{Nest, chain_is_told};
use emit_stmts::{Labels, copy_stmts};
use flow::Flow;
use rs_tree::RStmt;
use std::alloc::Global;

// Whether a statement is `return;`.
fn is_plain_return(s: &RStmt) -> bool
    ensures { result ≡ is_plain_return (stmt_view s.now) }
{
    matches!(s, RStmt::Return(None))
}

// Without a `return;` at the end.
fn without_last_return(ss: Items<RStmt>) -> Result<Items<RStmt>, Memory>
    ensures { IfOk result (λ made. stmts (map stmt_view made) ≡ without_last_return (stmts (map stmt_view ss))) }
{
    let mut ss = ss;
    let Some(last) = ss.pop() else {
        return Ok(ss);
    };
    if is_plain_return(&last) {
        return Ok(ss);
    }
    ss.push(last)?;
    Ok(ss)
}

// The statements of nests, whose labels aren't numbered by depth.
fn draft_of(alloc: Global, flow: &Flow, nests: &Items<Nest>) -> Result<Items<RStmt>, Memory>
    ensures { IfOk result (λ made. stmts (map stmt_view made) ≡ draft_of (flow_view flow.now) (chain (map nest_view nests.now))) }
{
    let text = chain_stmts(alloc, flow, nests, &Items::new(alloc))?;
    told(alloc, chain_is_told(nests), flow.entry, text)
}

// The same statements with labels by their depth.
fn numbered(alloc: Global, draft: &Items<RStmt>) -> Result<Items<RStmt>, Memory>
    ensures { IfOk result (λ made. stmts (map stmt_view made) ≡ numbered [] (stmts (map stmt_view draft.now))) }
{
    let labels = Labels::ByDepth(Items::new(alloc));
    copy_stmts(alloc, &labels, draft)
}

/// The statements of the body of a function.
///
/// # Errors
///
/// `Memory`: the allocator gave no memory.
pub fn body_of(alloc: Global, flow: &Flow, nests: &Items<Nest>) -> Result<Items<RStmt>, Memory>
    ensures { IfOk result (λ made. stmts (map stmt_view made) ≡ body_of (flow_view flow.now) (chain (map nest_view nests.now))) }
{
    let draft = draft_of(alloc, flow, nests)?;
    let text = numbered(alloc, &draft)?;
    without_last_return(text)
}
