//! Statements of parts that are copies of those of others. Each is refused only for want of memory, also where a part
//! was.

ghost use Rattle.std.specs.Prelude.{◌≡◌, Some, map, option_map, IfOk};
ghost use Rattle.rs_text.specs.Tree as tree;
ghost use Rattle.rs_text.specs.Tree.{stmts, arms};
ghost use Rattle.rs_tree.specs.Views.{place_view, expr_view, stmt_view, arm_view};
ghost use Rattle.emit_stmts.specs.Copies.{stmts_copy, arms_copy, jump_label};

use crate::labels::{Labels, jump_label};
use cr_base::{Boxed, Items, Memory, Name};
use rs_makers::{copy_expr, copy_place};
use rs_tree::{Arm, RExpr, RPlace, RStmt};
use std::alloc::Global;

// ---- without statements in them

pub(crate) fn assigned(alloc: Global, place: &RPlace, value: &RExpr) -> Result<Boxed<RStmt>, Memory>
    ensures { IfOk result (λ made. stmt_view made ≡ tree.Assign (place_view place.now) (expr_view value.now)) }
{
    let place = copy_place(alloc, place)?;
    let value = copy_expr(alloc, value)?;
    Boxed::new(alloc, RStmt::Assign(place, value))
}

pub(crate) fn evaluated(alloc: Global, value: &RExpr) -> Result<Boxed<RStmt>, Memory>
    ensures { IfOk result (λ made. stmt_view made ≡ tree.Eval (expr_view value.now)) }
{
    let value = copy_expr(alloc, value)?;
    Boxed::new(alloc, RStmt::Eval(value))
}

pub(crate) fn bytes_copied(
    alloc: Global,
    source: &RExpr,
    target: &RExpr,
    count: &RExpr,
) -> Result<Boxed<RStmt>, Memory>
    ensures { IfOk result (λ made. stmt_view made ≡ tree.CopyBytes (expr_view source.now) (expr_view target.now) (expr_view count.now)) }
{
    let source = copy_expr(alloc, source)?;
    let target = copy_expr(alloc, target)?;
    let count = copy_expr(alloc, count)?;
    Boxed::new(alloc, RStmt::CopyBytes(source, target, count))
}

pub(crate) fn left(alloc: Global, labels: &Labels, label: &Name) -> Result<Boxed<RStmt>, Memory>
    ensures { IfOk result (λ made. stmt_view made ≡ tree.Break (jump_label labels.now label.now)) }
{
    let label = jump_label(alloc, labels, label)?;
    Boxed::new(alloc, RStmt::Break(label))
}

pub(crate) fn begun_anew(
    alloc: Global,
    labels: &Labels,
    label: &Name,
) -> Result<Boxed<RStmt>, Memory>
    ensures { IfOk result (λ made. stmt_view made ≡ tree.Continue (jump_label labels.now label.now)) }
{
    let label = jump_label(alloc, labels, label)?;
    Boxed::new(alloc, RStmt::Continue(label))
}

// An equal result of a function, if there is one.
fn value_copied(alloc: Global, value: &Option<Boxed<RExpr>>) -> Result<Option<Boxed<RExpr>>, Memory>
    ensures { IfOk result (λ made. option_map expr_view made ≡ option_map expr_view value.now) }
{
    match value {
        Some(value) => Ok(Some(copy_expr(alloc, value.get())?)),
        None => Ok(None),
    }
}

pub(crate) fn given_back(
    alloc: Global,
    value: &Option<Boxed<RExpr>>,
) -> Result<Boxed<RStmt>, Memory>
    ensures { IfOk result (λ made. stmt_view made ≡ tree.Return (option_map expr_view value.now)) }
{
    let value = value_copied(alloc, value)?;
    Boxed::new(alloc, RStmt::Return(value))
}

// ---- with copies of the statements in them

pub(crate) fn chosen(
    alloc: Global,
    _labels: &Labels,
    test: &RExpr,
    _if_true: &Items<RStmt>,
    if_true: Result<Items<RStmt>, Memory>,
    _if_false: &Items<RStmt>,
    if_false: Result<Items<RStmt>, Memory>,
) -> Result<Boxed<RStmt>, Memory>
    requires if_true_is { IfOk if_true (λ made. stmts (map stmt_view made) ≡ stmts_copy _labels.now (stmts (map stmt_view _if_true.now))) }
    requires if_false_is { IfOk if_false (λ made. stmts (map stmt_view made) ≡ stmts_copy _labels.now (stmts (map stmt_view _if_false.now))) }
    ensures { IfOk result (λ made. stmt_view made ≡
        tree.If (expr_view test.now) (stmts_copy _labels.now (stmts (map stmt_view _if_true.now))) (stmts_copy _labels.now (stmts (map stmt_view _if_false.now)))) }
{
    let if_true = if_true?;
    let if_false = if_false?;
    let test = copy_expr(alloc, test)?;
    Boxed::new(alloc, RStmt::If(test, if_true, if_false))
}

pub(crate) fn matched(
    alloc: Global,
    _labels: &Labels,
    on: &RExpr,
    _cases: &Items<Arm>,
    cases: Result<Items<Arm>, Memory>,
    _other: &Items<RStmt>,
    other: Result<Items<RStmt>, Memory>,
) -> Result<Boxed<RStmt>, Memory>
    requires cases_are { IfOk cases (λ made. arms (map arm_view made) ≡ arms_copy _labels.now (arms (map arm_view _cases.now))) }
    requires other_is { IfOk other (λ made. stmts (map stmt_view made) ≡ stmts_copy _labels.now (stmts (map stmt_view _other.now))) }
    ensures { IfOk result (λ made. stmt_view made ≡
        tree.Match (expr_view on.now) (arms_copy _labels.now (arms (map arm_view _cases.now))) (stmts_copy _labels.now (stmts (map stmt_view _other.now)))) }
{
    let cases = cases?;
    let other = other?;
    let on = copy_expr(alloc, on)?;
    Boxed::new(alloc, RStmt::Match(on, cases, other))
}

pub(crate) fn arm_of(
    one: &Arm,
    _labels: &Labels,
    body: Result<Items<RStmt>, Memory>,
) -> Result<Arm, Memory>
    requires { IfOk body (λ made. stmts (map stmt_view made) ≡ stmts_copy _labels.now (stmts (map stmt_view one.now.body))) }
    ensures { IfOk result (λ made. arm_view made ≡ tree.LiteralArm one.now.value one.now.ty (stmts_copy _labels.now (stmts (map stmt_view one.now.body)))) }
{
    Ok(Arm {
        value: one.value,
        ty: one.ty,
        body: body?,
    })
}
