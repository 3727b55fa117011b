//! In which ways statements end.

ghost use Rattle.std.specs.Prelude.{◌≡◌, ◌||◌, ◌&&◌, ◌++◌, not, ℕ, List, None, Some, map, bytes_eq, IfOk, OnOk};
ghost use Rattle.emit_stmts.specs.Ends.{EndsBy, in_no_way};
ghost use Rattle.rs_mean_ends.specs.Ways.{goes, is_goes, is_break, stmt_ends, stmts_end, arms_end, block_ends, loop_ends};
ghost use Rattle.rs_text.specs.Names.{is_among};
ghost use Rattle.rs_text.specs.Tree.{stmts, arms};
ghost use Rattle.rs_tree.specs.Views.{stmt_view, arm_view};

use cr_base::{Items, Memory, Name};
use rs_tree::{Arm, RStmt};
use std::alloc::Global;

// In which ways statements end: whether control goes on behind them, and by which labels they are left.
#[derive(Drop)]
struct Ends {
    goes: bool,
    breaks: Items<Name>,
}

// ---- statements without others in them

fn ends_by_going_on(alloc: Global) -> Ends
    ensures { EndsBy is_goes result }
{
    Ends {
        goes: true,
        breaks: Items::new(alloc),
    }
}

// It ends otherwise than by going on or by a `break`.
fn ends_otherwise(alloc: Global) -> Ends
    ensures { EndsBy in_no_way result }
{
    Ends {
        goes: false,
        breaks: Items::new(alloc),
    }
}

fn ends_by_break(alloc: Global, label: &Name) -> Result<Ends, Memory>
    ensures { IfOk result (EndsBy (is_break label.now)) }
{
    let mut breaks = Items::new(alloc);
    breaks.push(label.copy()?)?;
    Ok(Ends {
        goes: false,
        breaks,
    })
}

// ---- blocks and loops

// Whether a label is one of some.
fn is_among(labels: &[Name], label: &Name) -> bool
    ensures { result ≡ is_among labels.now label.now }
{
    for one in labels {
        if one.bytes() == label.bytes() {
            return true;
        }
    }
    false
}

// The labels but one.
fn without(alloc: Global, label: &Name, labels: &[Name]) -> Result<Items<Name>, Memory>
    ensures { IfOk result (λ made. (other : List ℕ) → is_among made other ≡ (not (bytes_eq label.now other) && is_among labels.now other)) }
{
    let mut made = Items::new(alloc);
    for one in labels {
        put_other(&mut made, label, one)?;
    }
    Ok(made)
}

// A label is put behind others, where it isn't this one.
fn put_other(made: &mut Items<Name>, label: &Name, one: &Name) -> Result<(), Memory>
    ensures { OnOk result ((other : List ℕ) → is_among made.new other ≡ (is_among made.old other || (not (bytes_eq label.now other) && bytes_eq one.now other))) }
{
    if one.bytes() == label.bytes() {
        return Ok(());
    }
    made.push(one.copy()?)
}

// A block of a label, of a body that ends so.
fn block_ends(
    alloc: Global,
    label: &Name,
    _body: &Items<RStmt>,
    body: Result<Ends, Memory>,
) -> Result<Ends, Memory>
    requires { IfOk body (EndsBy (stmts_end (stmts (map stmt_view _body.now)))) }
    ensures { IfOk result (EndsBy (block_ends label.now (stmts_end (stmts (map stmt_view _body.now))))) }
{
    let body = body?;
    let breaks = body.breaks.as_slice();
    let is_left = is_among(breaks, label);
    let breaks = without(alloc, label, breaks)?;
    Ok(Ends {
        goes: body.goes || is_left,
        breaks,
    })
}

// A loop of a label, of a body that ends so.
fn named_loop_ends(
    alloc: Global,
    label: &Name,
    _body: &Items<RStmt>,
    body: Result<Ends, Memory>,
) -> Result<Ends, Memory>
    requires { IfOk body (EndsBy (stmts_end (stmts (map stmt_view _body.now)))) }
    ensures { IfOk result (EndsBy (loop_ends (Some label.now) (stmts_end (stmts (map stmt_view _body.now))))) }
{
    let body = body?;
    let breaks = body.breaks.as_slice();
    let goes = is_among(breaks, label);
    let breaks = without(alloc, label, breaks)?;
    Ok(Ends { goes, breaks })
}

// A loop without a label, of a body that ends so.
fn loop_ends(_body: &Items<RStmt>, body: Result<Ends, Memory>) -> Result<Ends, Memory>
    requires { IfOk body (EndsBy (stmts_end (stmts (map stmt_view _body.now)))) }
    ensures { IfOk result (EndsBy (loop_ends None (stmts_end (stmts (map stmt_view _body.now))))) }
{
    let body = body?;
    Ok(Ends {
        goes: false,
        breaks: body.breaks,
    })
}

// ---- branches

// One of two.
fn either(one: Ends, other: Ends) -> Result<Ends, Memory>
    ensures goes { IfOk result (λ ends. ends.goes ≡ (one.goes || other.goes)) }
    ensures breaks { IfOk result (λ ends. ends.breaks ≡ one.breaks ++ other.breaks) }
{
    let goes = one.goes || other.goes;
    let mut breaks = one.breaks;
    breaks.append(other.breaks)?;
    Ok(Ends { goes, breaks })
}

fn if_ends(
    _if_true: &Items<RStmt>,
    if_true: Result<Ends, Memory>,
    _if_false: &Items<RStmt>,
    if_false: Result<Ends, Memory>,
) -> Result<Ends, Memory>
    requires if_true_is { IfOk if_true (EndsBy (stmts_end (stmts (map stmt_view _if_true.now)))) }
    requires if_false_is { IfOk if_false (EndsBy (stmts_end (stmts (map stmt_view _if_false.now)))) }
    ensures { IfOk result (EndsBy (λ way. stmts_end (stmts (map stmt_view _if_true.now)) way || stmts_end (stmts (map stmt_view _if_false.now)) way)) }
{
    either(if_true?, if_false?)
}

fn match_ends(
    _cases: &Items<Arm>,
    cases: Result<Ends, Memory>,
    _other: &Items<RStmt>,
    other: Result<Ends, Memory>,
) -> Result<Ends, Memory>
    requires cases_are { IfOk cases (EndsBy (arms_end (arms (map arm_view _cases.now)))) }
    requires other_is { IfOk other (EndsBy (stmts_end (stmts (map stmt_view _other.now)))) }
    ensures { IfOk result (EndsBy (λ way. arms_end (arms (map arm_view _cases.now)) way || stmts_end (stmts (map stmt_view _other.now)) way)) }
{
    either(cases?, other?)
}

// ---- all

// In which ways a statement ends.
#[cycle(ending)]
fn stmt_ends(alloc: Global, s: &RStmt) -> Result<Ends, Memory>
    ensures { IfOk result (EndsBy (stmt_ends (stmt_view s.now))) }
{
    match s {
        RStmt::Assign(_, _) => Ok(ends_by_going_on(alloc)),
        RStmt::Eval(_) => Ok(ends_by_going_on(alloc)),
        RStmt::CopyBytes(_, _, _) => Ok(ends_by_going_on(alloc)),
        RStmt::If(_, one, other) => {
            if_ends(one, stmts_end(alloc, one), other, stmts_end(alloc, other))
        }
        RStmt::Loop(Some(label), body) => {
            named_loop_ends(alloc, label, body, stmts_end(alloc, body))
        }
        RStmt::Loop(None, body) => loop_ends(body, stmts_end(alloc, body)),
        RStmt::Block(label, body) => block_ends(alloc, label, body, stmts_end(alloc, body)),
        RStmt::Break(label) => ends_by_break(alloc, label),
        RStmt::Continue(_) => Ok(ends_otherwise(alloc)),
        RStmt::Match(_, cases, other) => {
            match_ends(
                cases,
                arms_end(alloc, cases),
                other,
                stmts_end(alloc, other),
            )
        }
        RStmt::Return(_) => Ok(ends_otherwise(alloc)),
    }
}

// In which ways statements end.
#[cycle(ending)]
fn stmts_end(alloc: Global, ss: &Items<RStmt>) -> Result<Ends, Memory>
    ensures { IfOk result (EndsBy (stmts_end (stmts (map stmt_view ss.now)))) }
{
    let mut breaks = Items::new(alloc);
    for s in ss.as_slice() {
        let one = stmt_ends(alloc, s)?;
        breaks.append(one.breaks)?;
        if !one.goes {
            return Ok(Ends {
                goes: false,
                breaks,
            });
        }
    }
    Ok(Ends { goes: true, breaks })
}

// In which ways one of the arms ends.
#[cycle(ending)]
fn arms_end(alloc: Global, cases: &Items<Arm>) -> Result<Ends, Memory>
    ensures { IfOk result (EndsBy (arms_end (arms (map arm_view cases.now)))) }
{
    let mut ends = ends_otherwise(alloc);
    for one in cases.as_slice() {
        ends = either(ends, stmts_end(alloc, &one.body)?)?;
    }
    Ok(ends)
}

/// Whether control goes on behind statements.
pub(crate) fn goes_on(alloc: Global, ss: &Items<RStmt>) -> Result<bool, Memory>
    ensures { IfOk result (λ goes_on. goes_on ≡ stmts_end (stmts (map stmt_view ss.now)) goes) }
{
    let ends = stmts_end(alloc, ss)?;
    Ok(ends.goes)
}
