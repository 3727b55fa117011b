//! The walk over a body (ISO C99, 6.8). It is refused only for want of memory.

ghost use Rattle.std.specs.Prelude.{◌≡◌, ◌+◌, ◌++◌, [], ◌∷◌, drop, false, length, map, IfOk, OnOk, option_map};
ghost use Rattle.build_flow_code.specs.Bodies.{body_of};
ghost use Rattle.build_flow_code.specs.Fits.{StmtFits, StmtsFit};
ghost use Rattle.build_flow_code.specs.Labels.{label_view, labels_in_stmt, labels_or};
ghost use Rattle.build_flow_code.specs.Parts.{ContentsFit, OptionFits};
ghost use Rattle.build_flow_instrs.specs.Views.{instr_view, place_view};
ghost use Rattle.build_flow_code.specs.Walks as text;
ghost use Rattle.build_flow_code.specs.Walks.{around_view};
ghost use Rattle.build_flow_linear.specs.Linear as line;
ghost use Rattle.build_flow_linear.specs.Linear.{leaves};
ghost use Rattle.build_flow_nodes.specs.Builder as builder;
ghost use Rattle.build_flow_nodes.specs.Parts as parts;
ghost use Rattle.build_flow_nodes.specs.Points.{goes};
ghost use Rattle.build_flow_nodes.specs.Parts.{effect_of_option, count_in_stmt, count_in_stmts, count_in_test, count_in_option, count_in_condition};
ghost use Rattle.cx_core.specs.Trees.{do_while, else_do, switch, while};
ghost use Rattle.cx_core.specs.Views.{otherwise_of, stmts_of, view_expr, view_puts, view_stmt};
ghost use Rattle.lift.specs.Fits.{FieldsFit};

use crate::body::Body;
use crate::choices::{choice_code, edges_code, goto_code};
use crate::exprs::{at_end, condition, declared, effect, given};
use crate::labels::{
    Label, body_number, has_continue, label_named, labels_in, labels_of_switch, part_number,
    push_labels,
};
use crate::parts::{begun, behind_expr};
use crate::places::{else_place, head_place, next_place, part_place, turn_place};
use build_flow_instrs::{
    FlowPlace, Instr, PlacedBranch, copy_place, part_path, push_body, push_branch, push_jump,
    push_mark, statement_at, test_at, third_at,
};
use cr_base::{Boxed, Items, Memory};
use cx_core::{CoreExpr, CoreStmt, Put, StmtForm};
use lift::full;
use std::alloc::Global;

/// What stands around a statement: the place of what follows, where `break` and `continue` go, and the labels of all open statements, those inside of the
/// innermost first.
#[derive(Clone, Copy)]
pub struct Around<'a> {
    pub place: &'a FlowPlace,
    pub breaks: &'a FlowPlace,
    pub continues: &'a FlowPlace,
    pub labels: &'a [Label],
}

/// Where a statement stands, and the number of its first temporary.
#[derive(Clone, Copy)]
pub struct Site<'a> {
    pub around: Around<'a>,
    pub path: &'a [u32],
    pub number: u32,
}

// ---- parts

// A condition, and the branch by it.
fn test_code(
    alloc: Global,
    of: &Body<'_>,
    e: &CoreExpr,
    number: u32,
    if_true: FlowPlace,
    if_false: FlowPlace,
    code: &mut Items<Instr>,
) -> Result<u32, Memory>
    requires { FieldsFit (view_expr e.now) }
    ensures code { OnOk result (map instr_view code.new ≡ map instr_view code.old
        ++ line.test_code (body_of of.now) (view_expr e.now) number (place_view if_true) (place_view if_false) []) }
    ensures next { IfOk result (λ next. next ≡ number + count_in_test (body_of of.now).names (view_expr e.now)) }
{
    let one = condition(alloc, of, e, number)?;
    let next = one.next;
    push_body(one.body, code)?;
    push_branch(PlacedBranch::Tests(one.test, if_true, if_false), code)?;
    Ok(next)
}

// A full expression whose value isn't used, if there is one.
fn effect_code(
    alloc: Global,
    of: &Body<'_>,
    e: Option<&CoreExpr>,
    number: u32,
    code: &mut Items<Instr>,
) -> Result<u32, Memory>
    requires { OptionFits (option_map (λ one. view_expr one.now) e) }
    ensures code { OnOk result (map instr_view code.new ≡ map instr_view code.old
        ++ line.does (effect_of_option (body_of of.now) (option_map (λ one. view_expr one.now) e.entry) number) ∷ []) }
    ensures next { IfOk result (λ next. next ≡ number + count_in_option (body_of of.now).names (option_map (λ one. view_expr one.now) e.entry)) }
{
    let done = effect(alloc, of, e, number)?;
    let next = done.next;
    push_body(done.body, code)?;
    Ok(next)
}

// A condition at its own place, if there is one.
fn condition_code(
    alloc: Global,
    of: &Body<'_>,
    e: Option<&CoreExpr>,
    path: &[u32],
    number: u32,
    if_true: FlowPlace,
    if_false: &FlowPlace,
    code: &mut Items<Instr>,
) -> Result<u32, Memory>
    requires { OptionFits (option_map (λ one. view_expr one.now) e) }
    ensures code { OnOk result (map instr_view code.new ≡ map instr_view code.old
        ++ line.condition_code (body_of of.now) (option_map (λ one. view_expr one.now) e.entry) number path.now (place_view if_true) (place_view if_false.now) []) }
    ensures next { IfOk result (λ next. next ≡ number + count_in_condition (body_of of.now).names (option_map (λ one. view_expr one.now) e.entry)) }
{
    let Some(e) = e else {
        return Ok(number);
    };
    let here = test_at(alloc, path)?;
    push_mark(alloc, &here, code)?;
    let other = copy_place(alloc, if_false)?;
    test_code(alloc, of, e, number, if_true, other, code)
}

// The end of a turn, where a `continue` goes there too.
fn turn_end(
    alloc: Global,
    has_continue: bool,
    place: &FlowPlace,
    code: &mut Items<Instr>,
) -> Result<(), Memory>
    ensures { OnOk result (map instr_view code.new ≡ map instr_view code.old ++ line.turn_end has_continue (place_view place.now) []) }
{
    if has_continue {
        push_jump(alloc, place, code)
    } else {
        Ok(())
    }
}

// The third expression of a `for` behind its body, and the way to its head.
fn third_code(
    alloc: Global,
    of: &Body<'_>,
    body: &CoreStmt,
    next: Option<&CoreExpr>,
    number: u32,
    head: &FlowPlace,
    path: &[u32],
    code: &mut Items<Instr>,
) -> Result<(), Memory>
    requires { OptionFits (option_map (λ one. view_expr one.now) next) }
    ensures { OnOk result (map instr_view code.new ≡ map instr_view code.old
        ++ line.third_code (body_of of.now) (view_stmt body.now) (option_map (λ one. view_expr one.now) next.entry) number (place_view head.now) path.now) }
{
    let Some(e) = next else {
        return push_jump(alloc, head, code);
    };
    let here = third_at(alloc, path)?;
    turn_end(alloc, has_continue(body), &here, code)?;
    push_mark(alloc, &here, code)?;
    effect_code(alloc, of, Some(e), number, code)?;
    push_jump(alloc, head, code)
}

// ---- statements

fn is_labelled(s: &CoreStmt) -> bool
    ensures { result ≡ text.is_labelled_stmt (view_stmt s.now) }
{
    matches!(
        &s.form,
        StmtForm::Label(_, _) | StmtForm::Case(_, _) | StmtForm::Default(_)
    )
}

// What stands in front of what an open statement does.
fn entry_code(
    alloc: Global,
    s: &CoreStmt,
    of: &Body<'_>,
    path: &[u32],
    code: &mut Items<Instr>,
) -> Result<(), Memory>
    ensures { OnOk result (map instr_view code.new ≡ map instr_view code.old ++ text.entry_code (body_of of.now) path.now (view_stmt s.now)) }
{
    let here = statement_at(alloc, path)?;
    if is_labelled(s) {
        push_jump(alloc, &here, code)?;
    }
    push_mark(alloc, &here, code)?;
    push_body(begun(alloc, of, s.objects.as_slice())?, code)
}

// An open statement's own labels, in front of those around it, or None where it has none.
fn labels_inside(
    alloc: Global,
    s: &CoreStmt,
    path: &[u32],
    around: &[Label],
) -> Result<Option<Items<Label>>, Memory>
    ensures { IfOk result (λ made. labels_or made (map label_view around.now) ≡ labels_in_stmt false (view_stmt s.now) path.now [] ++ map label_view around.now) }
{
    let nothing = Items::new(alloc);
    let mut labels = Items::new(alloc);
    labels_in(alloc, s, false, path, nothing.as_slice(), &mut labels)?;
    if labels.is_empty() {
        return Ok(None);
    }
    push_labels(alloc, around, &mut labels)?;
    Ok(Some(labels))
}

// Labels, or those around where there are none.
fn labels_or<'a>(labels: &'a Option<Items<Label>>, around: &'a [Label]) -> &'a [Label]
    ensures { map label_view result.now ≡ labels_or labels.now (map label_view around.now) }
{
    match labels {
        Some(labels) => labels.as_slice(),
        None => around,
    }
}

// What an optional tree is.
fn boxed(e: &Option<Boxed<CoreExpr>>) -> Option<&CoreExpr>
    ensures { option_map (λ one. view_expr one.now) result ≡ option_map view_expr e.now }
{
    match e {
        Some(e) => Some(e.get()),
        None => None,
    }
}

fn boxed_stmt(s: &Option<Boxed<CoreStmt>>) -> Option<&CoreStmt>
    ensures { option_map (λ one. view_stmt one.now) result ≡ option_map view_stmt s.now }
{
    match s {
        Some(s) => Some(s.get()),
        None => None,
    }
}

fn contents(puts: &Option<Items<Put>>) -> Option<&[Put]>
    ensures { option_map (λ list. view_puts list.now) result ≡ option_map view_puts puts.now }
{
    match puts {
        Some(puts) => Some(puts.as_slice()),
        None => None,
    }
}

// The number behind the temporaries of an expression, if there is one.
#[tactic(auto, unfolding(crate::specs::Bodies::body_of))]
fn behind_effect(
    alloc: Global,
    of: &Body<'_>,
    e: Option<&CoreExpr>,
    number: u32,
) -> Result<u32, Memory>
    ensures { IfOk result (λ next. next ≡ number + count_in_option (body_of of.now).names (option_map (λ one. view_expr one.now) e.entry)) }
{
    match e {
        Some(e) => behind_expr(alloc, of.names, full(e), e, number),
        None => Ok(number),
    }
}

// The declaration of an object is reached.
fn declared_code(
    alloc: Global,
    of: &Body<'_>,
    object: u32,
    puts: Option<&[Put]>,
    number: u32,
    code: &mut Items<Instr>,
) -> Result<u32, Memory>
    requires { ContentsFit (option_map (λ list. view_puts list.now) puts) }
    ensures code { OnOk result (map instr_view code.new ≡ map instr_view code.old
        ++ line.does (parts.declared (body_of of.now) object (option_map (λ list. view_puts list.now) puts.entry) number) ∷ []) }
    ensures next { IfOk result (λ next. next ≡ number + length (parts.temporaries_in_contents (body_of of.now).names (option_map (λ list. view_puts list.now) puts.entry))) }
{
    let done = declared(alloc, of, object, puts, number)?;
    let next = done.next;
    push_body(done.body, code)?;
    Ok(next)
}

// A `return`.
fn return_code(
    alloc: Global,
    of: &Body<'_>,
    e: Option<&CoreExpr>,
    number: u32,
    code: &mut Items<Instr>,
) -> Result<u32, Memory>
    requires { OptionFits (option_map (λ one. view_expr one.now) e) }
    ensures code { OnOk result (map instr_view code.new ≡ map instr_view code.old
        ++ text.return_code (body_of of.now) (option_map (λ one. view_expr one.now) e.entry) number) }
    ensures next { IfOk result (λ next. next ≡ number + count_in_option (body_of of.now).names (option_map (λ one. view_expr one.now) e.entry)) }
{
    let one = given(alloc, of, e, number)?;
    let next = one.next;
    push_body(one.body, code)?;
    push_branch(PlacedBranch::Returns(one.value), code)?;
    Ok(next)
}

// A statement.
#[cycle(coding)]
fn stmt_code(
    alloc: Global,
    s: &CoreStmt,
    of: &Body<'_>,
    site: Site<'_>,
    code: &mut Items<Instr>,
) -> Result<u32, Memory>
    requires { StmtFits (view_stmt s.now) }
    ensures code { OnOk result (map instr_view code.new ≡ map instr_view code.old ++ line.code (body_of of.now) (around_view site.entry.around) site.entry.path.now site.entry.number (view_stmt s.now)) }
    ensures next { IfOk result (λ next. next ≡ site.entry.number + count_in_stmt (body_of of.now).names (view_stmt s.now)) }
{
    entry_code(alloc, s, of, site.path, code)?;
    let labels = labels_inside(alloc, s, site.path, site.around.labels)?;
    let around = Around {
        labels: labels_or(&labels, site.around.labels),
        ..site.around
    };
    form_code(alloc, s, of, Site { around, ..site }, code)
}

// A part of a statement.
#[cycle(coding)]
fn part_code(
    alloc: Global,
    s: &CoreStmt,
    of: &Body<'_>,
    index: u32,
    site: Site<'_>,
    code: &mut Items<Instr>,
) -> Result<u32, Memory>
    requires { StmtFits (view_stmt s.now) }
    ensures code { OnOk result (map instr_view code.new ≡ map instr_view code.old ++ line.code (body_of of.now) (around_view site.entry.around) (index ∷ site.entry.path.now) site.entry.number (view_stmt s.now)) }
    ensures next { IfOk result (λ next. next ≡ site.entry.number + count_in_stmt (body_of of.now).names (view_stmt s.now)) }
{
    let path = part_path(alloc, index, site.path)?;
    let here = Site {
        path: path.as_slice(),
        ..site
    };
    stmt_code(alloc, s, of, here, code)
}

// What an open statement does.
#[cycle(coding)]
fn form_code(
    alloc: Global,
    s: &CoreStmt,
    of: &Body<'_>,
    site: Site<'_>,
    code: &mut Items<Instr>,
) -> Result<u32, Memory>
    requires { StmtFits (view_stmt s.now) }
    ensures code { OnOk result (map instr_view code.new ≡ map instr_view code.old ++ text.form_code (body_of of.now) (around_view site.entry.around) site.entry.path.now site.entry.number (view_stmt s.now)) }
    ensures next { IfOk result (λ next. next ≡ site.entry.number + count_in_stmt (body_of of.now).names (view_stmt s.now)) }
{
    let around = site.around;
    match &s.form {
        StmtForm::Label(_, body) => part_code(alloc, body.get(), of, 0, site, code),
        StmtForm::Case(_, body) => part_code(alloc, body.get(), of, 0, site, code),
        StmtForm::Default(body) => part_code(alloc, body.get(), of, 0, site, code),
        StmtForm::Block(stmts) => list_code(alloc, stmts.as_slice(), of, site, code),
        StmtForm::Expr(value) => effect_code(alloc, of, boxed(value), site.number, code),
        StmtForm::Begin(object, puts) => declared_code(
            alloc,
            of,
            *object,
            contents(puts),
            site.number,
            code,
        ),
        StmtForm::If(test, first, second) => {
            let other = else_place(alloc, boxed_stmt(second), site.path, around.place)?;
            let behind = arm_code(alloc, first.get(), of, test.get(), other, site, code)?;
            match second {
                Some(second) => {
                    let rest = Site {
                        number: behind,
                        ..site
                    };
                    otherwise_code(alloc, second.get(), of, rest, code)
                }
                None => Ok(behind),
            }
        }
        StmtForm::Switch(value, body) => switch_code(
            alloc,
            body.get(),
            of,
            value.get(),
            site,
            code,
        ),
        StmtForm::While(test, body) => while_code(alloc, body.get(), of, test.get(), site, code),
        StmtForm::Do(body, test) => do_code(alloc, body.get(), of, test.get(), site, code),
        StmtForm::For {
            first,
            test,
            next,
            body,
        } => {
            let head = head_place(alloc, boxed(test), first.as_slice(), site.path)?;
            let behind = firsts_code(alloc, first.as_slice(), of, &head, boxed(next), site, code)?;
            let index = body_number(first.as_slice())?;
            let rest = Site {
                number: behind,
                ..site
            };
            for_code(
                alloc,
                body.get(),
                of,
                index,
                &head,
                boxed(test),
                boxed(next),
                rest,
                code,
            )
        }
        StmtForm::Goto(name) => {
            let to = label_named(around.labels, name);
            goto_code(alloc, of, to, around.place, code)?;
            Ok(site.number)
        }
        StmtForm::Continue => {
            push_jump(alloc, around.continues, code)?;
            Ok(site.number)
        }
        StmtForm::Break => {
            push_jump(alloc, around.breaks, code)?;
            Ok(site.number)
        }
        StmtForm::Return(value) => return_code(alloc, of, boxed(value), site.number, code),
    }
}

// The condition of an `if`, and what is done where it holds.
#[cycle(coding)]
fn arm_code(
    alloc: Global,
    first: &CoreStmt,
    of: &Body<'_>,
    test: &CoreExpr,
    other: FlowPlace,
    site: Site<'_>,
    code: &mut Items<Instr>,
) -> Result<u32, Memory>
    requires test { FieldsFit (view_expr test.now) }
    requires first { StmtFits (view_stmt first.now) }
    ensures code { OnOk result (map instr_view code.new ≡ map instr_view code.old
        ++ text.arm_code (body_of of.now) (around_view site.entry.around) site.entry.path.now site.entry.number (view_expr test.now) (view_stmt first.now) (place_view other)) }
    ensures next { IfOk result (λ next. next ≡ site.entry.number + count_in_test (body_of of.now).names (view_expr test.now) + count_in_stmt (body_of of.now).names (view_stmt first.now)) }
{
    let arm = part_place(alloc, 0, site.path)?;
    let behind = test_code(alloc, of, test, site.number, arm, other, code)?;
    let here = Site {
        number: behind,
        ..site
    };
    let next = part_code(alloc, first, of, 0, here, code)?;
    push_jump(alloc, site.around.place, code)?;
    Ok(next)
}

// What is done where it doesn't hold.
#[cycle(coding)]
fn otherwise_code(
    alloc: Global,
    second: &CoreStmt,
    of: &Body<'_>,
    site: Site<'_>,
    code: &mut Items<Instr>,
) -> Result<u32, Memory>
    requires { StmtFits (view_stmt second.now) }
    ensures code { OnOk result (map instr_view code.new ≡ map instr_view code.old
        ++ line.else_code (body_of of.now) (around_view site.entry.around) site.entry.path.now site.entry.number (else_do (view_stmt second.now))) }
    ensures next { IfOk result (λ next. next ≡ site.entry.number + count_in_stmt (body_of of.now).names (view_stmt second.now)) }
{
    let next = part_code(alloc, second, of, 1, site, code)?;
    push_jump(alloc, site.around.place, code)?;
    Ok(next)
}

// A `switch`.
#[cycle(coding)]
fn switch_code(
    alloc: Global,
    body: &CoreStmt,
    of: &Body<'_>,
    value: &CoreExpr,
    site: Site<'_>,
    code: &mut Items<Instr>,
) -> Result<u32, Memory>
    requires value { FieldsFit (view_expr value.now) }
    requires body { StmtFits (view_stmt body.now) }
    ensures code { OnOk result (map instr_view code.new ≡ map instr_view code.old
        ++ line.form_code (body_of of.now) (around_view site.entry.around) site.entry.path.now site.entry.number (switch (view_expr value.now) (view_stmt body.now))) }
    ensures next { IfOk result (λ next. next ≡ site.entry.number + count_in_test (body_of of.now).names (view_expr value.now) + count_in_stmt (body_of of.now).names (view_stmt body.now)) }
{
    let around = site.around;
    let labels = labels_of_switch(alloc, body, site.path)?;
    let list = labels.as_slice();
    let behind = choice_code(
        alloc,
        of,
        value,
        site.path,
        list,
        around.place,
        site.number,
        code,
    )?;
    edges_code(alloc, of, site.path, list, code)?;
    let inner = Around {
        breaks: around.place,
        ..around
    };
    let here = Site {
        around: inner,
        number: behind,
        ..site
    };
    let next = part_code(alloc, body, of, 0, here, code)?;
    push_jump(alloc, around.place, code)?;
    Ok(next)
}

// The body of a loop whose turn ends at a place.
#[cycle(coding)]
fn turn_code(
    alloc: Global,
    body: &CoreStmt,
    of: &Body<'_>,
    index: u32,
    turn: &FlowPlace,
    site: Site<'_>,
    code: &mut Items<Instr>,
) -> Result<u32, Memory>
    requires { StmtFits (view_stmt body.now) }
    ensures code { OnOk result (map instr_view code.new ≡ map instr_view code.old
        ++ line.code (body_of of.now) (line.in_loop (place_view turn.now) (around_view site.entry.around)) (index ∷ site.entry.path.now) site.entry.number (view_stmt body.now)) }
    ensures next { IfOk result (λ next. next ≡ site.entry.number + count_in_stmt (body_of of.now).names (view_stmt body.now)) }
{
    let around = Around {
        place: turn,
        breaks: site.around.place,
        continues: turn,
        labels: site.around.labels,
    };
    let here = Site { around, ..site };
    part_code(alloc, body, of, index, here, code)
}

// A `while`.
#[cycle(coding)]
fn while_code(
    alloc: Global,
    body: &CoreStmt,
    of: &Body<'_>,
    test: &CoreExpr,
    site: Site<'_>,
    code: &mut Items<Instr>,
) -> Result<u32, Memory>
    requires test { FieldsFit (view_expr test.now) }
    requires body { StmtFits (view_stmt body.now) }
    ensures code { OnOk result (map instr_view code.new ≡ map instr_view code.old
        ++ line.form_code (body_of of.now) (around_view site.entry.around) site.entry.path.now site.entry.number (while (view_expr test.now) (view_stmt body.now))) }
    ensures next { IfOk result (λ next. next ≡ site.entry.number + count_in_test (body_of of.now).names (view_expr test.now) + count_in_stmt (body_of of.now).names (view_stmt body.now)) }
{
    let turn = test_at(alloc, site.path)?;
    push_jump(alloc, &turn, code)?;
    push_mark(alloc, &turn, code)?;
    let inside = part_place(alloc, 0, site.path)?;
    let behind_it = copy_place(alloc, site.around.place)?;
    let behind = test_code(alloc, of, test, site.number, inside, behind_it, code)?;
    let here = Site {
        number: behind,
        ..site
    };
    let next = turn_code(alloc, body, of, 0, &turn, here, code)?;
    push_jump(alloc, &turn, code)?;
    Ok(next)
}

// A `do`.
#[cycle(coding)]
fn do_code(
    alloc: Global,
    body: &CoreStmt,
    of: &Body<'_>,
    test: &CoreExpr,
    site: Site<'_>,
    code: &mut Items<Instr>,
) -> Result<u32, Memory>
    requires body { StmtFits (view_stmt body.now) }
    requires test { FieldsFit (view_expr test.now) }
    ensures code { OnOk result (map instr_view code.new ≡ map instr_view code.old
        ++ line.form_code (body_of of.now) (around_view site.entry.around) site.entry.path.now site.entry.number (do_while (view_stmt body.now) (view_expr test.now))) }
    ensures next { IfOk result (λ next. next ≡ site.entry.number + count_in_stmt (body_of of.now).names (view_stmt body.now) + count_in_test (body_of of.now).names (view_expr test.now)) }
{
    let inside = part_place(alloc, 0, site.path)?;
    push_jump(alloc, &inside, code)?;
    let turn = test_at(alloc, site.path)?;
    let behind = turn_code(alloc, body, of, 0, &turn, site, code)?;
    turn_end(alloc, has_continue(body), &turn, code)?;
    push_mark(alloc, &turn, code)?;
    let behind_it = copy_place(alloc, site.around.place)?;
    test_code(alloc, of, test, behind, inside, behind_it, code)
}

// The first part of a `for`, and the way to its head.
#[cycle(coding)]
fn firsts_code(
    alloc: Global,
    first: &[CoreStmt],
    of: &Body<'_>,
    head: &FlowPlace,
    third: Option<&CoreExpr>,
    site: Site<'_>,
    code: &mut Items<Instr>,
) -> Result<u32, Memory>
    requires { StmtsFit (stmts_of (map view_stmt first.now)) }
    ensures code { OnOk result (map instr_view code.new ≡ map instr_view code.old
        ++ (line.list_code (body_of of.now) (line.in_firsts (place_view head.now) (builder.turn_place (option_map (λ one. view_expr one.now) third.entry) (place_view head.now) site.entry.path.now) (around_view site.entry.around)) site.entry.path.now 0 site.entry.number (stmts_of (map view_stmt first.now))
        ++ leaves (goes (place_view head.now)) ∷ [])) }
    ensures next { IfOk result (λ next. next ≡ site.entry.number + count_in_stmts (body_of of.now).names (stmts_of (map view_stmt first.now))) }
{
    let turn = turn_place(alloc, third, head, site.path)?;
    let around = Around {
        place: head,
        breaks: site.around.place,
        continues: &turn,
        ..site.around
    };
    let next = list_code(alloc, first, of, Site { around, ..site }, code)?;
    push_jump(alloc, head, code)?;
    Ok(next)
}

// A `for` behind its first part.
#[cycle(coding)]
fn for_code(
    alloc: Global,
    body: &CoreStmt,
    of: &Body<'_>,
    index: u32,
    head: &FlowPlace,
    test: Option<&CoreExpr>,
    third: Option<&CoreExpr>,
    site: Site<'_>,
    code: &mut Items<Instr>,
) -> Result<u32, Memory>
    requires body { StmtFits (view_stmt body.now) }
    requires test { OptionFits (option_map (λ one. view_expr one.now) test) }
    requires third { OptionFits (option_map (λ one. view_expr one.now) third) }
    ensures code { OnOk result (map instr_view code.new ≡ map instr_view code.old
        ++ text.for_rest (body_of of.now) (around_view site.entry.around) site.entry.path.now index site.entry.number (place_view head.now)
        (option_map (λ one. view_expr one.now) test.entry) (option_map (λ one. view_expr one.now) third.entry) (view_stmt body.now)) }
    ensures next { IfOk result (λ next. next ≡ site.entry.number + count_in_condition (body_of of.now).names (option_map (λ one. view_expr one.now) test.entry)
        + count_in_option (body_of of.now).names (option_map (λ one. view_expr one.now) third.entry) + count_in_stmt (body_of of.now).names (view_stmt body.now)) }
{
    let inside = part_place(alloc, index, site.path)?;
    let behind_test = condition_code(
        alloc,
        of,
        test,
        site.path,
        site.number,
        inside,
        site.around.place,
        code,
    )?;
    let behind_third = behind_effect(alloc, of, third, behind_test)?;
    let turn = turn_place(alloc, third, head, site.path)?;
    let here = Site {
        number: behind_third,
        ..site
    };
    let next = turn_code(alloc, body, of, index, &turn, here, code)?;
    third_code(alloc, of, body, third, behind_test, head, site.path, code)?;
    Ok(next)
}

// Statements of a list.
#[cycle(coding)]
fn list_code(
    alloc: Global,
    stmts: &[CoreStmt],
    of: &Body<'_>,
    site: Site<'_>,
    code: &mut Items<Instr>,
) -> Result<u32, Memory>
    requires { StmtsFit (stmts_of (map view_stmt stmts.now)) }
    ensures code { OnOk result (map instr_view code.new ≡ map instr_view code.old
        ++ line.list_code (body_of of.now) (around_view site.entry.around) site.entry.path.now 0 site.entry.number (stmts_of (map view_stmt stmts.now))) }
    ensures next { IfOk result (λ next. next ≡ site.entry.number + count_in_stmts (body_of of.now).names (stmts_of (map view_stmt stmts.now))) }
{
    let mut number = site.number;
    for index in 0..stmts.len() {
        let place = next_place(alloc, stmts, index + 1, site.path, site.around.place)?;
        let around = Around {
            place: &place,
            ..site.around
        };
        let here = Site {
            around,
            number,
            ..site
        };
        number = part_code(alloc, &stmts[index], of, part_number(index)?, here, code)?;
    }
    Ok(number)
}

/// The body of a function in the order of its text, behind other code, where its temporaries are numbered from 0 on. Refused only for want of memory.
pub fn body_code(alloc: Global, of: &Body<'_>, body: &CoreStmt) -> Result<Items<Instr>, Memory>
    requires { StmtFits (view_stmt body.now) }
    ensures { IfOk result (λ code. map instr_view code ≡ line.body_code (body_of of.now) (view_stmt body.now)) }
{
    let mut code = Items::new(alloc);
    let end = FlowPlace::End;
    let labels = Items::new(alloc);
    let path = Items::new(alloc);
    let around = Around {
        place: &end,
        breaks: &end,
        continues: &end,
        labels: labels.as_slice(),
    };
    let site = Site {
        around,
        path: path.as_slice(),
        number: 0,
    };
    stmt_code(alloc, body, of, site, &mut code)?;
    push_mark(alloc, &end, &mut code)?;
    let value = at_end(alloc, of)?;
    push_branch(PlacedBranch::Returns(value), &mut code)?;
    Ok(code)
}
