//! The ways of a `switch` and of `goto` (ISO C99, 6.8.1, 6.8.4.2 and 6.8.6.1). Each maker is refused only for want of memory.

ghost use Rattle.std.specs.Prelude.{◌≡◌, ◌+◌, ◌++◌, [], ◌∷◌, flat_map, map, IfOk, OnOk, option_map};
ghost use Rattle.build_flow_code.specs.Bodies.{body_of};
ghost use Rattle.build_flow_code.specs.Labels.{label_view};
ghost use Rattle.build_flow_instrs.specs.Views.{case_view, instr_view, place_view};
ghost use Rattle.build_flow_linear.specs.Linear as line;
ghost use Rattle.build_flow_nodes.specs.Builder as builder;
ghost use Rattle.build_flow_nodes.specs.Labels as labels_spec;
ghost use Rattle.build_flow_nodes.specs.Parts.{begun, count_in_test, operand_of};
ghost use Rattle.cx_mean.specs.BodyGraph.{is_default};
ghost use Rattle.cx_core.specs.Views.{view_expr};
ghost use Rattle.lift.specs.Fits.{FieldsFit};
ghost use Rattle.rs_tree.specs.Views.{stmt_view};

use crate::body::Body;
use crate::exprs::operand_of;
use crate::labels::{Label, Target, default_label};
use crate::parts::begun;
use build_flow_instrs::{
    FlowPlace, Instr, PlacedBranch, PlacedCase, copy_place, edge_at, push_body, push_branch,
    push_jump, push_mark, statement_at,
};
use cr_base::{Items, Memory};
use cx_core::CoreExpr;
use rs_tree::RStmt;
use std::alloc::Global;

// Where a `switch` goes for a label: to the statement, or to what begins the objects on its way.
fn edge_place(
    alloc: Global,
    begins: &[RStmt],
    choice: &[u32],
    target: &[u32],
) -> Result<FlowPlace, Memory>
    ensures { IfOk result (λ made. place_view made ≡ builder.edge_place (map stmt_view begins.now) choice.now target.now) }
{
    if begins.is_empty() {
        statement_at(alloc, target)
    } else {
        edge_at(alloc, choice, target)
    }
}

fn label_place(
    alloc: Global,
    of: &Body<'_>,
    choice: &[u32],
    one: &Label,
) -> Result<FlowPlace, Memory>
    ensures { IfOk result (λ made. place_view made ≡ builder.label_place (body_of of.now) choice.now (label_view one.now)) }
{
    let begins = begun(alloc, of, one.objects.as_slice())?;
    edge_place(alloc, begins.as_slice(), choice, one.path.as_slice())
}

// Where it goes for the values of its labels.
fn cases_of(
    alloc: Global,
    of: &Body<'_>,
    choice: &[u32],
    labels: &[Label],
) -> Result<Items<PlacedCase>, Memory>
    ensures { IfOk result (λ made. map case_view made ≡
        flat_map (λ (it : labels_spec.Label). builder.case_in (body_of of.now) choice.now it.target it) (map label_view labels.now)) }
{
    let mut made = Items::new(alloc);
    for one in labels {
        if let Target::Case(value) = &one.target {
            let to = label_place(alloc, of, choice, one)?;
            made.push(PlacedCase { value: *value, to })?;
        }
    }
    Ok(made)
}

// Where it goes for other values.
fn default_place(
    alloc: Global,
    of: &Body<'_>,
    choice: &[u32],
    labels: &[Label],
    place: &FlowPlace,
) -> Result<FlowPlace, Memory>
    ensures { IfOk result (λ made. place_view made ≡
        builder.default_or (body_of of.now) choice.now (labels_spec.label_where is_default (map label_view labels.now)) (place_view place.now)) }
{
    match default_label(labels) {
        Some(one) => label_place(alloc, of, choice, one),
        None => copy_place(alloc, place),
    }
}

/// The operand of a `switch`, and the branch by its value.
pub fn choice_code(
    alloc: Global,
    of: &Body<'_>,
    value: &CoreExpr,
    choice: &[u32],
    labels: &[Label],
    place: &FlowPlace,
    number: u32,
    code: &mut Items<Instr>,
) -> Result<u32, Memory>
    requires { FieldsFit (view_expr value.now) }
    ensures code { OnOk result (map instr_view code.new ≡ map instr_view code.old
        ++ line.all_of (builder.switch_point (body_of of.now) choice.now (operand_of (body_of of.now) (view_expr value.now) number) (map label_view labels.now) (place_view place.now)) []) }
    ensures next { IfOk result (λ next. next ≡ number + count_in_test (body_of of.now).names (view_expr value.now)) }
{
    let one = operand_of(alloc, of, value, number)?;
    let next = one.next;
    push_body(one.body, code)?;
    let cases = cases_of(alloc, of, choice, labels)?;
    let other = default_place(alloc, of, choice, labels, place)?;
    push_branch(
        PlacedBranch::Chooses {
            on: one.value,
            by: one.by,
            cases,
            other,
        },
        code,
    )?;
    Ok(next)
}

// What begins the objects on the way to a label.
fn edge_code(
    alloc: Global,
    of: &Body<'_>,
    choice: &[u32],
    one: &Label,
    code: &mut Items<Instr>,
) -> Result<(), Memory>
    ensures { OnOk result (map instr_view code.new ≡ map instr_view code.old
        ++ line.edge_code choice.now (label_view one.now) (begun (body_of of.now) (label_view one.now).objects)) }
{
    let begins = begun(alloc, of, one.objects.as_slice())?;
    if begins.is_empty() {
        return Ok(());
    }
    let here = edge_at(alloc, choice, one.path.as_slice())?;
    push_mark(alloc, &here, code)?;
    push_body(begins, code)?;
    let to = statement_at(alloc, one.path.as_slice())?;
    push_jump(alloc, &to, code)
}

/// What begins the objects on the ways of a `switch`.
pub fn edges_code(
    alloc: Global,
    of: &Body<'_>,
    choice: &[u32],
    labels: &[Label],
    code: &mut Items<Instr>,
) -> Result<(), Memory>
    ensures { OnOk result (map instr_view code.new ≡ map instr_view code.old ++ line.edges_code (body_of of.now) choice.now (map label_view labels.now)) }
{
    for one in labels {
        match &one.target {
            Target::Named(_) => {}
            _ => edge_code(alloc, of, choice, one, code)?,
        }
    }
    Ok(())
}

/// The way of a `goto` to a label: the objects on it begin.
pub fn goto_code(
    alloc: Global,
    of: &Body<'_>,
    to: Option<&Label>,
    place: &FlowPlace,
    code: &mut Items<Instr>,
) -> Result<(), Memory>
    ensures { OnOk result (map instr_view code.new ≡ map instr_view code.old
        ++ line.all_of (builder.goto_point (body_of of.now) (option_map (λ one. label_view one.now) to.entry) (place_view place.now)) []) }
{
    match to {
        Some(one) => {
            push_body(begun(alloc, of, one.objects.as_slice())?, code)?;
            let to = statement_at(alloc, one.path.as_slice())?;
            push_jump(alloc, &to, code)
        }
        None => {
            push_body(Items::new(alloc), code)?;
            push_jump(alloc, place, code)
        }
    }
}
