//! Which labels statements name.

ghost use Rattle.std.specs.Prelude.{◌≡◌, map};
ghost use Rattle.rs_mean_ends.specs.Ways.{stmt_names, stmts_name, arms_name};
ghost use Rattle.rs_text.specs.Tree.{stmts, arms};
ghost use Rattle.rs_tree.specs.Views.{stmt_view, arm_view};

use cr_base::{Items, Name};
use rs_tree::{Arm, RStmt};

// Whether a statement names a label by a `break` or a `continue`.
#[cycle(naming)]
fn stmt_names(label: &Name, s: &RStmt) -> bool
    ensures { result ≡ stmt_names label.now (stmt_view s.now) }
{
    match s {
        RStmt::Assign(_, _) => false,
        RStmt::Eval(_) => false,
        RStmt::CopyBytes(_, _, _) => false,
        RStmt::If(_, one, other) => stmts_name(label, one) || stmts_name(label, other),
        RStmt::Loop(_, body) => stmts_name(label, body),
        RStmt::Block(_, body) => stmts_name(label, body),
        RStmt::Break(other) => other.bytes() == label.bytes(),
        RStmt::Continue(other) => other.bytes() == label.bytes(),
        RStmt::Match(_, cases, other) => arms_name(label, cases) || stmts_name(label, other),
        RStmt::Return(_) => false,
    }
}

/// Whether statements name a label by a `break` or a `continue`.
#[cycle(naming)]
pub fn stmts_name(label: &Name, ss: &Items<RStmt>) -> bool
    ensures { result ≡ stmts_name label.now (stmts (map stmt_view ss.now)) }
{
    for s in ss.as_slice() {
        if stmt_names(label, s) {
            return true;
        }
    }
    false
}

#[cycle(naming)]
fn arms_name(label: &Name, cases: &Items<Arm>) -> bool
    ensures { result ≡ arms_name label.now (arms (map arm_view cases.now)) }
{
    for one in cases.as_slice() {
        if stmts_name(label, &one.body) {
            return true;
        }
    }
    false
}
