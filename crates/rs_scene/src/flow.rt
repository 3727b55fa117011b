//! The flow of control (the Rust Reference, "Loop expressions", "Labelled block expressions", "match
//! expressions" and "return expressions").

ghost use Rattle.std.specs.Prelude.{◌≡◌, map, None};
ghost use Rattle.rs_scene.specs.Flows.{behind_block, body_of, chosen, flow_view, is_arm, is_label, is_normal, is_number, turn_view, turned};
ghost use Rattle.rs_machine.specs.Does.{Stays, end_of};
ghost use Rattle.rs_mean.specs.Run as run;
ghost use Rattle.rs_mean.specs.World.{pure};
ghost use Rattle.rs_text.specs.Tree.{stmts};
ghost use Rattle.rs_tree.specs.Views.{arm_view, stmt_view};
ghost use Rattle.rs_value.specs.Views.{typed_view};

use cr_base::{Int, Name};
use mem_bytes::Value;
use rs_machine::Halt;
use rs_tree::{Arm, RStmt};
use rs_value::TypedValue;

/// What a statement does with the flow of control.
#[derive(Clone, Copy)]
pub enum Flow<'t> {
    /// It goes on behind the statement.
    Normal,
    /// The block or loop of this label is left.
    Breaks(&'t Name),
    /// The next turn of the loop of this label begins.
    Continues(&'t Name),
    /// The function gives back a value, if any.
    Returned(Option<TypedValue<'t>>),
}

/// What comes behind a turn of a loop.
#[derive(Clone, Copy)]
pub enum Turn<'t> {
    Again,
    Done(Flow<'t>),
}

pub fn is_normal(flow: Flow<'_>) -> bool
    ensures { result ≡ is_normal (flow_view flow.entry) }
{
    matches!(flow, Flow::Normal)
}

pub fn breaks<'t>(label: &'t Name) -> Result<Flow<'t>, Halt<'t>>
    ensures { Stays (pure (run.breaks label.now)) (end_of flow_view result) }
{
    Ok(Flow::Breaks(label))
}

pub fn continues<'t>(label: &'t Name) -> Result<Flow<'t>, Halt<'t>>
    ensures { Stays (pure (run.continues label.now)) (end_of flow_view result) }
{
    Ok(Flow::Continues(label))
}

pub fn returns_nothing<'t>() -> Result<Flow<'t>, Halt<'t>>
    ensures { Stays (pure (run.returned None)) (end_of flow_view result) }
{
    Ok(Flow::Returned(None))
}

/// What comes behind a block of a label.
pub fn after_block<'t>(name: &'t Name, flow: Flow<'t>) -> Flow<'t>
    ensures { flow_view result ≡ behind_block name.now (flow_view flow.entry) }
{
    match flow {
        Flow::Normal => Flow::Normal,
        Flow::Breaks(label) => {
            if name.bytes() == label.bytes() {
                Flow::Normal
            } else {
                Flow::Breaks(label)
            }
        }
        Flow::Continues(label) => Flow::Continues(label),
        Flow::Returned(value) => Flow::Returned(value),
    }
}

fn is_label(label: &Name, name: &Option<Name>) -> bool
    ensures { result ≡ is_label label.now name.now }
{
    match name {
        Some(name) => name.bytes() == label.bytes(),
        None => false,
    }
}

/// Whether a turn of a loop is followed by another.
pub fn after_turn<'t>(name: &'t Option<Name>, flow: Flow<'t>) -> Turn<'t>
    ensures { turn_view result ≡ turned name.now (flow_view flow.entry) }
{
    match flow {
        Flow::Normal => Turn::Again,
        Flow::Breaks(label) => {
            if is_label(label, name) {
                Turn::Done(Flow::Normal)
            } else {
                Turn::Done(Flow::Breaks(label))
            }
        }
        Flow::Continues(label) => {
            if is_label(label, name) {
                Turn::Again
            } else {
                Turn::Done(Flow::Continues(label))
            }
        }
        Flow::Returned(value) => Turn::Done(Flow::Returned(value)),
    }
}

// Whether a value is a number.
fn is_number(number: &Int, value: Value) -> bool
    ensures { result ≡ is_number number.now value }
{
    match value {
        Value::Whole(other) => other == *number,
        _ => false,
    }
}

// Whether the literal of an arm is a value.
fn is_arm(arm: &Arm, operand: TypedValue<'_>) -> bool
    ensures { result ≡ is_arm (arm_view arm.now) (typed_view operand.entry) }
{
    is_number(&arm.value, operand.value)
}

// The statements of an arm.
fn body_of(arm: &Arm) -> &[RStmt]
    ensures { stmts (map stmt_view result.now) ≡ body_of (arm_view arm.now) }
{
    arm.body.as_slice()
}

/// The statements of the first arm whose literal is the value, or the others.
pub fn chosen<'t>(cases: &'t [Arm], operand: TypedValue<'t>, other: &'t [RStmt]) -> &'t [RStmt]
    ensures { stmts (map stmt_view result.now)
        ≡ chosen (map arm_view cases.now) (typed_view operand.entry) (stmts (map stmt_view other.now)) }
{
    for arm in cases {
        if is_arm(arm, operand) {
            return body_of(arm);
        }
    }
    other
}
