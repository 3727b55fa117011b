//! Branches with the statements in their arms.

ghost use Rattle.std.specs.Prelude.{◌≡◌, ◌+◌, pos, [], length, map, option_map, IfOk};
ghost use Rattle.emit_rules.specs.Texts.{branch_stmts, case_arms, choice_stmts, first_text, head_arms, one_stmt, other_text};
ghost use Rattle.emit_texts.specs.Texts.{if_texts, text_view};
ghost use Rattle.flow.specs.Flows.{targets};
ghost use Rattle.flow.specs.Views.{branch_view, case_view};
ghost use Rattle.rs_text.specs.Tree as tree;
ghost use Rattle.rs_text.specs.declared.integer.IntegerTy.TheVariants.{U32};
ghost use Rattle.rs_text.specs.Tree.{arms, stmts};
ghost use Rattle.rs_tree.specs.Views.{arm_view, expr_view, stmt_view};

use crate::ways::current_block;
use cr_base::{Boxed, Int, Items, Memory};
use emit_nests::is_among;
use emit_stmts::if_of;
use flow::{Branch, Case};
use rs_makers::{copy_expr, read};
use rs_tree::{Arm, IntegerTy, RExpr, RStmt};
use std::alloc::Global;

/// The statements that stand in an arm.
#[derive(Drop)]
pub(crate) struct Text {
    pub(crate) stmts: Items<RStmt>,
}

fn one_stmt(alloc: Global, s: Boxed<RStmt>) -> Result<Items<RStmt>, Memory>
    ensures { IfOk result (λ made. stmts (map stmt_view made) ≡ one_stmt (stmt_view s)) }
{
    let mut made = Items::new(alloc);
    made.push(s.into_inner())?;
    Ok(made)
}

// ---- `match`

// An arm of a case.
fn case_arm(case: &Case, by: IntegerTy, text: Text) -> Arm
    ensures { arm_view result ≡ tree.LiteralArm case.now.value by (text_view text) }
{
    Arm {
        value: case.value,
        ty: by,
        body: text.stmts,
    }
}

// The arms of cases, each with its statements.
fn case_arms(
    alloc: Global,
    by: IntegerTy,
    cases: &[Case],
    texts: Items<Text>,
) -> Result<Items<Arm>, Memory>
    requires { length texts ≡ length cases.now }
    ensures { IfOk result (λ made. arms (map arm_view made) ≡ case_arms by (map case_view cases.now) (map text_view texts)) }
{
    let mut made = Items::new(alloc);
    let mut index = 0;
    for text in texts.into_vec() {
        made.push(case_arm(&cases[index], by, text))?;
        index += 1;
    }
    Ok(made)
}

// One `match`.
fn match_stmts(
    alloc: Global,
    on: Boxed<RExpr>,
    cases: Items<Arm>,
    other: Items<RStmt>,
) -> Result<Items<RStmt>, Memory>
    ensures { IfOk result (λ made. stmts (map stmt_view made) ≡ one_stmt (tree.Match (expr_view on) (arms (map arm_view cases)) (stmts (map stmt_view other)))) }
{
    let s = Boxed::new(alloc, RStmt::Match(on, cases, other))?;
    one_stmt(alloc, s)
}

fn switch_stmts(
    alloc: Global,
    on: &RExpr,
    by: IntegerTy,
    cases: &[Case],
    texts: Items<Text>,
) -> Result<Items<RStmt>, Memory>
    requires { length texts ≡ length cases.now + 1 }
    ensures { IfOk result (λ made. stmts (map stmt_view made) ≡
        one_stmt (tree.Match (expr_view on.now) (case_arms by (map case_view cases.now) (map text_view texts)) (other_text (map case_view cases.now) (map text_view texts)))) }
{
    let mut texts = texts;
    let Some(other) = texts.pop() else {
        return Err(Memory);
    };
    let made = case_arms(alloc, by, cases, texts)?;
    let on = copy_expr(alloc, on)?;
    match_stmts(alloc, on, made, other.stmts)
}

// An arm of a head.
fn head_arm(head: u32, text: Text) -> Arm
    ensures { arm_view result ≡ tree.LiteralArm (pos head) U32 (text_view text) }
{
    Arm {
        value: Int::from(head),
        ty: IntegerTy::U32,
        body: text.stmts,
    }
}

// An arm for each different head.
fn head_arms(alloc: Global, heads: &[u32], texts: Items<Text>) -> Result<Items<Arm>, Memory>
    requires { length texts ≡ length heads.now }
    ensures { IfOk result (λ made. arms (map arm_view made) ≡ head_arms [] heads.now (map text_view texts)) }
{
    let mut made = Items::new(alloc);
    let mut earlier = Items::new(alloc);
    let mut index = 0;
    for text in texts.into_vec() {
        let head = heads[index];
        index += 1;
        if is_among(head, earlier.as_slice()) {
            continue;
        }
        earlier.push(head)?;
        made.push(head_arm(head, text))?;
    }
    Ok(made)
}

/// The head that `current_block` says.
pub(crate) fn choice_stmts(
    alloc: Global,
    heads: &[u32],
    texts: Items<Text>,
) -> Result<Items<RStmt>, Memory>
    requires { length texts ≡ length heads.now }
    ensures { IfOk result (λ made. stmts (map stmt_view made) ≡ choice_stmts heads.now (map text_view texts)) }
{
    let made = head_arms(alloc, heads, texts)?;
    let on = read(alloc, current_block(alloc)?)?;
    match_stmts(alloc, on, made, Items::new(alloc))
}

// ---- all branches

// The statements of the one arm.
fn only(texts: Items<Text>) -> Result<Items<RStmt>, Memory>
    requires { length texts ≡ 1 }
    ensures { IfOk result (λ made. stmts (map stmt_view made) ≡ first_text (map text_view texts)) }
{
    let mut texts = texts;
    match texts.pop() {
        Some(text) => Ok(text.stmts),
        None => Err(Memory),
    }
}

fn if_stmts(alloc: Global, test: &RExpr, texts: Items<Text>) -> Result<Items<RStmt>, Memory>
    requires { length texts ≡ 2 }
    ensures { IfOk result (λ made. stmts (map stmt_view made) ≡ if_texts (expr_view test.now) (map text_view texts)) }
{
    let mut texts = texts;
    let Some(if_false) = texts.pop() else {
        return Err(Memory);
    };
    let if_true = only(texts)?;
    if_of(alloc, test, if_true, if_false.stmts)
}

fn return_stmts(alloc: Global, value: &Option<Boxed<RExpr>>) -> Result<Items<RStmt>, Memory>
    ensures { IfOk result (λ made. stmts (map stmt_view made) ≡ one_stmt (tree.Return (option_map expr_view value.now))) }
{
    let value = match value {
        Some(value) => Some(copy_expr(alloc, value.get())?),
        None => None,
    };
    let s = Boxed::new(alloc, RStmt::Return(value))?;
    one_stmt(alloc, s)
}

/// A branch, with the statements that stand at each of its targets.
pub(crate) fn branch_stmts(
    alloc: Global,
    branch: &Branch,
    texts: Items<Text>,
) -> Result<Items<RStmt>, Memory>
    requires { length texts ≡ length (targets (branch_view branch.now)) }
    ensures { IfOk result (λ made. stmts (map stmt_view made) ≡ branch_stmts (branch_view branch.now) (map text_view texts)) }
{
    match branch {
        Branch::Go(_) => only(texts),
        Branch::If(test, _, _) => if_stmts(alloc, test.get(), texts),
        Branch::Switch { on, by, cases, .. } => {
            switch_stmts(alloc, on.get(), *by, cases.as_slice(), texts)
        }
        Branch::Return(value) => return_stmts(alloc, value),
    }
}
