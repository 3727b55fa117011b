//! Statements that are done at once, where literals and locals tell all of their operands: what a body does
//! most takes no function for each of its parts (the Rust Reference, "Statements").

ghost use Rattle.std.specs.Prelude.{Option, map};
ghost use Rattle.mem_bytes.specs.Counted.{Limit};
ghost use Rattle.mem_bytes.specs.Memory.{Blocks};
ghost use Rattle.rs_forms.specs.Forms.{nested_run};
ghost use Rattle.rs_forms.specs.Left.{IsLeft};
ghost use Rattle.rs_mean.specs.Calls as piece;
ghost use Rattle.rs_mean.specs.Run.{Frame, goes_on, run_stmt, run_stmts};
ghost use Rattle.rs_mean.specs.World.{either, seq};
ghost use Rattle.rs_scene.specs.Scenes.{IsScene, frame_view};
ghost use Rattle.rs_text.specs.Tree as tree;
ghost use Rattle.rs_text.specs.Tree.{stmts};
ghost use Rattle.rs_tree.specs.Views.{expr_view, place_view, stmt_view};
ghost use Rattle.rs_value.specs.Views.{spot_view, typed_view};

use crate::forms::{Nested, StmtForm, stmt_form};
use crate::quick::{Found, quick_number, quick_spot, quick_test, value_of};
use cr_base::Items;
use mem_bytes::Store;
use rs_machine::{Halt, store_at};
use rs_scene::Scene;
use rs_tree::{RExpr, RPlace, RStmt};
use rs_value::{TypedValue, ValueSpot};

/// What is left of a statement behind what was done of it at once.
#[derive(Clone, Copy)]
pub enum Left<'t> {
    /// Nothing: control goes on behind it.
    Nothing,
    /// These statements.
    Inner(&'t [RStmt]),
    /// Nothing, since the run goes no further.
    Halted(Halt<'t>),
    /// All of it.
    Everything,
}

// Statements are left, if there are some.
#[inline(always)]
fn inner_left<'t>(list: &'t [RStmt]) -> Left<'t>
    ensures { (frame : Frame) (blocks : Blocks) (limit : Option Limit) → IsLeft frame (run_stmts frame (stmts (map stmt_view list.now))) result blocks blocks limit limit }
{
    if list.is_empty() {
        return Left::Nothing;
    }
    Left::Inner(list)
}

// The statements on the side of a test are left.
#[inline(always)]
fn side_left<'t>(test: bool, if_true: &'t Items<RStmt>, if_false: &'t Items<RStmt>) -> Left<'t>
    ensures { (frame : Frame) (blocks : Blocks) (limit : Option Limit) → IsLeft frame
        (either test (run_stmts frame (stmts (map stmt_view if_true.now))) (run_stmts frame (stmts (map stmt_view if_false.now)))) result blocks blocks limit limit }
{
    if test {
        return inner_left(if_true.as_slice());
    }
    inner_left(if_false.as_slice())
}

// What is left of an `if`.
#[inline(always)]
fn if_left<'t, S: Store>(
    store: &S,
    scene: Scene<'t, '_>,
    condition: &'t RExpr,
    if_true: &'t Items<RStmt>,
    if_false: &'t Items<RStmt>,
) -> Left<'t>
    requires { IsScene scene }
    ensures { (limit : Option Limit) → IsLeft (frame_view scene.entry)
        (run_stmt (frame_view scene.entry) (tree.If (expr_view condition.now) (stmts (map stmt_view if_true.now)) (stmts (map stmt_view if_false.now)))) result (S.memory store.now) (S.memory store.now) limit limit }
{
    match quick_test(store, scene, condition) {
        Some(test) => side_left(test, if_true, if_false),
        None => Left::Everything,
    }
}

// What is left of a statement that has statements in it.
#[inline(always)]
fn nested_left<'t, S: Store>(store: &S, scene: Scene<'t, '_>, form: Nested<'t>) -> Left<'t>
    requires { IsScene scene }
    ensures { (limit : Option Limit) → IsLeft (frame_view scene.entry) (nested_run (frame_view scene.entry) form.entry) result (S.memory store.now) (S.memory store.now) limit limit }
{
    match form {
        Nested::If(condition, if_true, if_false) => {
            if_left(store, scene, condition, if_true, if_false)
        }
        Nested::Loop(_, _) => Left::Everything,
        Nested::Block(_, _) => Left::Everything,
        Nested::Match(_, _, _) => Left::Everything,
    }
}

// What is left of a store at a place that was found.
#[inline(always)]
fn store_left<'t, S: Store>(store: &mut S, spot: ValueSpot<'t>, value: TypedValue<'t>) -> Left<'t>
    ensures { (frame : Frame) → IsLeft frame (seq (piece.store (spot_view spot.entry) (typed_view value.entry).value) goes_on) result
        (S.memory store.old) (S.memory store.new) (S.limit store.old) (S.limit store.new) }
{
    match store_at(store, spot.is_based, spot.ty, spot.at, value.value) {
        Ok(()) => Left::Nothing,
        Err(halt) => Left::Halted(halt),
    }
}

// What is left of an assignment.
#[inline(always)]
fn assign_left<'t, S: Store>(
    store: &mut S,
    scene: Scene<'t, '_>,
    of: &'t RPlace,
    value: &'t RExpr,
) -> Left<'t>
    requires { IsScene scene }
    ensures { IsLeft (frame_view scene.entry) (run_stmt (frame_view scene.entry) (tree.Assign (place_view of.now) (expr_view value.now))) result
        (S.memory store.old) (S.memory store.new) (S.limit store.old) (S.limit store.new) }
{
    let Some(spot) = quick_spot(scene, of) else {
        return Left::Everything;
    };
    let mut found = Found { number: 0 };
    let Some(ty) = quick_number(store, scene, value, &mut found) else {
        return Left::Everything;
    };
    store_left(store, spot, value_of(ty, &found.number))
}

/// Does what can be done at once of a statement, and says what is left of it.
#[inline(never)]
pub fn quick_stmt<'t, S: Store>(store: &mut S, scene: Scene<'t, '_>, tree: &'t RStmt) -> Left<'t>
    requires { IsScene scene }
    ensures { IsLeft (frame_view scene.entry) (run_stmt (frame_view scene.entry) (stmt_view tree.now)) result
        (S.memory store.old) (S.memory store.new) (S.limit store.old) (S.limit store.new) }
{
    match stmt_form(tree) {
        StmtForm::Assign(of, value) => assign_left(store, scene, of, value),
        StmtForm::Within(form) => nested_left(store, scene, form),
        StmtForm::Leaves(_) => Left::Everything,
        StmtForm::Call(_) => Left::Everything,
        StmtForm::Value(_) => Left::Everything,
        StmtForm::Copy(_, _, _) => Left::Everything,
        StmtForm::Return(_) => Left::Everything,
    }
}
