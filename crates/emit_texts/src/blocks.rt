//! Blocks and loops.

ghost use Rattle.std.specs.Prelude.{◌≡◌, map, IfOk, OnOk};
ghost use Rattle.emit_rules.specs.Texts.{loop_of, one_stmt};
ghost use Rattle.emit_texts.specs.Blocks.{block_of, in_front};
ghost use Rattle.rs_mean.specs.Laws.{behind};
ghost use Rattle.rs_text.specs.Tree.{Stmts, stmts};
ghost use Rattle.rs_tree.specs.Views.{stmt_view};

use cr_base::{Items, Memory};
use emit_stmts::{label_of, stmts_name};
use rs_tree::RStmt;
use std::alloc::Global;

// Statements in a block of a label, which is written where they name it.
fn block_of(alloc: Global, number: usize, body: Items<RStmt>) -> Result<Items<RStmt>, Memory>
    ensures { IfOk result (λ made. stmts (map stmt_view made) ≡ block_of number (stmts (map stmt_view body))) }
{
    let label = label_of(alloc, number)?;
    if !stmts_name(&label, &body) {
        return Ok(body);
    }
    let mut made = Items::new(alloc);
    made.push(RStmt::Block(label, body))?;
    Ok(made)
}

fn in_front(
    alloc: Global,
    has_others: bool,
    number: usize,
    body: Items<RStmt>,
) -> Result<Items<RStmt>, Memory>
    ensures { IfOk result (λ made. stmts (map stmt_view made) ≡ in_front has_others number (stmts (map stmt_view body))) }
{
    if has_others {
        block_of(alloc, number, body)
    } else {
        Ok(body)
    }
}

/// Statements are put behind others: in a block of a label, where others follow and the label is named.
pub(crate) fn put_behind(
    alloc: Global,
    made: &mut Items<RStmt>,
    has_others: bool,
    number: usize,
    body: Items<RStmt>,
) -> Result<(), Memory>
    ensures { OnOk result ((rest : Stmts) → behind (stmts (map stmt_view made.new)) rest ≡
        behind (stmts (map stmt_view made.old)) (behind (in_front has_others number (stmts (map stmt_view body))) rest)) }
{
    let text = in_front(alloc, has_others, number, body)?;
    made.append(text)
}

/// A loop of a label, which is written where it is named.
pub(crate) fn loop_of(
    alloc: Global,
    number: usize,
    body: Items<RStmt>,
) -> Result<Items<RStmt>, Memory>
    ensures { IfOk result (λ made. stmts (map stmt_view made) ≡ one_stmt (loop_of number (stmts (map stmt_view body)))) }
{
    let label = label_of(alloc, number)?;
    let is_named = stmts_name(&label, &body);
    let label = if is_named { Some(label) } else { None };
    let mut made = Items::new(alloc);
    made.push(RStmt::Loop(label, body))?;
    Ok(made)
}
