//! The labels of a body, and the objects whose lives begin on the way to them (ISO C99, 6.2.4p5, 6.8.1 and 6.8.6.1). The walks are refused only for want of memory.

ghost use Rattle.std.specs.Prelude.{◌≡◌, ◌++◌, [], ◌∷◌, map, IfOk, OnOk, option_map};
ghost use Rattle.std.specs.Option.{option_copied};
ghost use Rattle.build_flow_code.specs.Labels.{label_view, labels_in_stmt, own_label_of, target_view};
ghost use Rattle.build_flow_nodes.specs.Labels as spec;
ghost use Rattle.build_flow_nodes.specs.Labels.{labels_from, labels_among, labels_of_switch, label_where};
ghost use Rattle.cx_core.specs.Views.{stmts_of, view_stmt};
ghost use Rattle.cx_mean.specs.BodyGraph as graph;

use build_flow_instrs::{copy_path, part_path};
use cr_base::{Int, Items, Memory, Name};
use cx_core::{CoreStmt, StmtForm};
use std::alloc::Global;

/// What a label is.
#[derive(Drop)]
pub enum Target {
    Named(Name),
    Case(Int),
    Default,
}

/// A labelled statement, and the objects of the statements that are entered on the way to it.
#[derive(Drop)]
pub struct Label {
    pub target: Target,
    pub path: Items<u32>,
    pub objects: Items<u32>,
}

/// A number of a part: so many parts are never kept for want of memory.
pub fn part_number(index: usize) -> Result<u32, Memory>
    ensures { IfOk result (λ number. number ≡ index) }
{
    match u32::try_from(index) {
        Ok(number) => Ok(number),
        Err(_) => Err(Memory),
    }
}

/// The number of the body of a `for`, behind its first part.
#[tactic(auto, using(crate::proofs::Counts::counted))]
pub fn body_number(first: &[CoreStmt]) -> Result<u32, Memory>
    ensures { IfOk result (λ number. number ≡ graph.count_of (stmts_of (map view_stmt first.now))) }
{
    part_number(first.len())
}

// Objects behind others.
fn entered_with(alloc: Global, entered: &[u32], objects: &[u32]) -> Result<Items<u32>, Memory>
    ensures { IfOk result (λ made. made ≡ entered.now ++ objects.now) }
{
    let mut made = Items::from_slice(alloc, entered)?;
    made.append(Items::from_slice(alloc, objects)?)?;
    Ok(made)
}

// One label more.
fn push_label(
    alloc: Global,
    target: Target,
    path: &[u32],
    entered: &[u32],
    labels: &mut Items<Label>,
) -> Result<(), Memory>
    ensures { OnOk result (map label_view labels.new ≡ map label_view labels.old ++ spec.label_at (target_view target) path.now entered.now ∷ []) }
{
    let path = copy_path(alloc, path)?;
    let objects = copy_path(alloc, entered)?;
    labels.push(Label {
        target,
        path,
        objects,
    })
}

// What an equal label is.
fn copy_target(target: &Target) -> Result<Target, Memory>
    ensures { IfOk result (λ made. target_view made ≡ target_view target.now) }
{
    match target {
        Target::Named(name) => Ok(Target::Named(name.copy()?)),
        Target::Case(value) => Ok(Target::Case(*value)),
        Target::Default => Ok(Target::Default),
    }
}

/// Equal labels, behind others.
pub fn push_labels(alloc: Global, more: &[Label], labels: &mut Items<Label>) -> Result<(), Memory>
    ensures { OnOk result (map label_view labels.new ≡ map label_view labels.old ++ map label_view more.now) }
{
    for one in more {
        let target = copy_target(&one.target)?;
        push_label(
            alloc,
            target,
            one.path.as_slice(),
            one.objects.as_slice(),
            labels,
        )?;
    }
    Ok(())
}

// What a statement is labelled with, if it is.
fn own_label(
    alloc: Global,
    s: &CoreStmt,
    path: &[u32],
    entered: &[u32],
    labels: &mut Items<Label>,
) -> Result<(), Memory>
    ensures { OnOk result (map label_view labels.new ≡ map label_view labels.old ++ own_label_of (view_stmt s.now) path.now entered.now) }
{
    match &s.form {
        StmtForm::Label(name, _) => {
            push_label(alloc, Target::Named(name.copy()?), path, entered, labels)
        }
        StmtForm::Case(value, _) => push_label(alloc, Target::Case(*value), path, entered, labels),
        StmtForm::Default(_) => push_label(alloc, Target::Default, path, entered, labels),
        _ => Ok(()),
    }
}

// The labels in a statement; those of an inner `switch` may be left out.
#[cycle(labelling)]
fn labels_from(
    alloc: Global,
    s: &CoreStmt,
    own: bool,
    path: &[u32],
    entered: &[u32],
    labels: &mut Items<Label>,
) -> Result<(), Memory>
    ensures { OnOk result (map label_view labels.new ≡ map label_view labels.old ++ labels_from own (view_stmt s.now) path.now entered.now) }
{
    own_label(alloc, s, path, entered, labels)?;
    let entered = entered_with(alloc, entered, s.objects.as_slice())?;
    labels_in(alloc, s, own, path, entered.as_slice(), labels)
}

// Those of a part of an open statement.
#[cycle(labelling)]
fn labels_of_part(
    alloc: Global,
    s: &CoreStmt,
    own: bool,
    index: u32,
    path: &[u32],
    entered: &[u32],
    labels: &mut Items<Label>,
) -> Result<(), Memory>
    ensures { OnOk result (map label_view labels.new ≡ map label_view labels.old ++ labels_from own (view_stmt s.now) (index ∷ path.now) entered.now) }
{
    let path = part_path(alloc, index, path)?;
    labels_from(alloc, s, own, path.as_slice(), entered, labels)
}

/// Those inside an open statement, behind others.
#[cycle(labelling)]
pub fn labels_in(
    alloc: Global,
    s: &CoreStmt,
    own: bool,
    path: &[u32],
    entered: &[u32],
    labels: &mut Items<Label>,
) -> Result<(), Memory>
    ensures { OnOk result (map label_view labels.new ≡ map label_view labels.old ++ labels_in_stmt own (view_stmt s.now) path.now entered.now) }
{
    match &s.form {
        StmtForm::Label(_, body) => labels_of_part(
            alloc,
            body.get(),
            own,
            0,
            path,
            entered,
            labels,
        ),
        StmtForm::Case(_, body) => labels_of_part(alloc, body.get(), own, 0, path, entered, labels),
        StmtForm::Default(body) => labels_of_part(alloc, body.get(), own, 0, path, entered, labels),
        StmtForm::While(_, body) => labels_of_part(
            alloc,
            body.get(),
            own,
            0,
            path,
            entered,
            labels,
        ),
        StmtForm::Do(body, _) => labels_of_part(alloc, body.get(), own, 0, path, entered, labels),
        StmtForm::Switch(_, body) => {
            if own {
                return Ok(());
            }
            labels_of_part(alloc, body.get(), own, 0, path, entered, labels)
        }
        StmtForm::Block(stmts) => labels_among(alloc, stmts.as_slice(), own, path, entered, labels),
        StmtForm::If(_, first, second) => {
            labels_of_part(alloc, first.get(), own, 0, path, entered, labels)?;
            match second {
                Some(other) => labels_of_part(alloc, other.get(), own, 1, path, entered, labels),
                None => Ok(()),
            }
        }
        StmtForm::For { first, body, .. } => {
            let index = body_number(first.as_slice())?;
            labels_of_part(alloc, body.get(), own, index, path, entered, labels)
        }
        StmtForm::Expr(_)
        | StmtForm::Goto(_)
        | StmtForm::Continue
        | StmtForm::Break
        | StmtForm::Return(_)
        | StmtForm::Begin(_, _) => Ok(()),
    }
}

// Those of the statements of a list.
#[cycle(labelling)]
fn labels_among(
    alloc: Global,
    stmts: &[CoreStmt],
    own: bool,
    path: &[u32],
    entered: &[u32],
    labels: &mut Items<Label>,
) -> Result<(), Memory>
    ensures { OnOk result (map label_view labels.new ≡ map label_view labels.old ++ labels_among own (stmts_of (map view_stmt stmts.now)) 0 path.now entered.now) }
{
    for index in 0..stmts.len() {
        let number = part_number(index)?;
        labels_of_part(alloc, &stmts[index], own, number, path, entered, labels)?;
    }
    Ok(())
}

/// The `case` labels of a `switch` whose body this is.
pub fn labels_of_switch(
    alloc: Global,
    body: &CoreStmt,
    path: &[u32],
) -> Result<Items<Label>, Memory>
    ensures { IfOk result (λ labels. map label_view labels ≡ labels_of_switch (view_stmt body.now) path.now) }
{
    let mut labels = Items::new(alloc);
    let nothing = Items::new(alloc);
    labels_of_part(alloc, body, true, 0, path, nothing.as_slice(), &mut labels)?;
    Ok(labels)
}

// The label of this name.
fn is_named(one: &Label, name: &Name) -> bool
    ensures { result ≡ graph.is_named name.now (label_view one.now).target }
{
    match &one.target {
        Target::Named(own) => name.bytes() == own.bytes(),
        _ => false,
    }
}

// Whether it is `default`.
fn is_default(one: &Label) -> bool
    ensures { result ≡ graph.is_default (label_view one.now).target }
{
    matches!(&one.target, Target::Default)
}

/// The first label of a name in a list.
pub fn label_named<'a>(labels: &'a [Label], name: &Name) -> Option<&'a Label>
    ensures { option_map label_view (option_copied result) ≡ label_where (graph.is_named name.now) (map label_view labels.now) }
{
    for one in labels {
        if is_named(one, name) {
            return Some(one);
        }
    }
    None
}

/// The first `default` label of a list.
pub fn default_label(labels: &[Label]) -> Option<&Label>
    ensures { option_map label_view (option_copied result) ≡ label_where graph.is_default (map label_view labels.now) }
{
    for one in labels {
        if is_default(one) {
            return Some(one);
        }
    }
    None
}

// ---- loops that are gone on with

/// A `continue` of the loop whose body this is stands in it (6.8.6.2).
#[cycle(continuing)]
pub fn has_continue(s: &CoreStmt) -> bool
    ensures { result ≡ spec.has_continue (view_stmt s.now) }
{
    match &s.form {
        StmtForm::Label(_, body) => has_continue(body.get()),
        StmtForm::Case(_, body) => has_continue(body.get()),
        StmtForm::Default(body) => has_continue(body.get()),
        StmtForm::Switch(_, body) => has_continue(body.get()),
        StmtForm::Block(stmts) => some_has_continue(stmts.as_slice()),
        StmtForm::If(_, first, second) => {
            has_continue(first.get())
                || match second {
                    Some(other) => has_continue(other.get()),
                    None => false,
                }
        }
        StmtForm::Continue => true,
        _ => false,
    }
}

#[cycle(continuing)]
fn some_has_continue(stmts: &[CoreStmt]) -> bool
    ensures { result ≡ spec.some_has_continue (stmts_of (map view_stmt stmts.now)) }
{
    for one in stmts {
        if has_continue(one) {
            return true;
        }
    }
    false
}
