//! The steps of compound literals (ISO C99, 6.5.2.5): the object is made anew, and then the values of its puts are stored in it,
//! one after the other.

ghost use Rattle.std.specs.Prelude.{◌≡◌, ℕ, IfSome, Ok};
ghost use Rattle.cx_access.specs.Views.{view_setting};
ghost use Rattle.cx_core.specs.Trees.{more_puts, place_of};
ghost use Rattle.cx_core.specs.Views.{view_expr, view_put, view_puts};
ghost use Rattle.cx_mean.specs.Nodes.{literal_cleared};
ghost use Rattle.cx_mean.specs.Steps.{at_node, did_clear, literal_number, outcome_of, place_of_put, put_step};
ghost use Rattle.cx_mean.specs.Work.{filled};
ghost use Rattle.cx_ready.specs.Fills.{IsFilling, fill_by};
ghost use Rattle.cx_ready.specs.Nodes.{IsLoaded};
ghost use Rattle.cx_ready.specs.Steps.{Steps};
ghost use Rattle.cx_work.specs.Views.{view_operand, view_work};

use crate::halt::{Halt, Progress, halted};
use crate::parts::{marks_before, part_operand};
use cx_access::Setting;
use cx_core::{CoreExpr, Form, Put};
use cx_puts::{clear_object, store_put};
use cx_work::{Finished, Marks, Objects, Operand, Work};
use mem_bytes::Store;
use std::alloc::Global;

/// A put whose value is evaluated, and the puts behind it.
#[derive(Clone, Copy)]
pub(crate) struct Filling<'a> {
    put: &'a Put,
    others: &'a [Put],
}

// The value of the next put is evaluated.
fn put_fills<'a>(
    alloc: Global,
    work: &mut Work<'a>,
    node: &'a CoreExpr,
    marks: Marks,
    puts: Filling<'a>,
) -> Result<Progress<'a>, Halt>
    ensures { (number : ℕ) → IsLoaded result (view_work work.new) (filled (view_expr node.now) number marks (more_puts (view_put puts.entry.put.now) (view_puts puts.entry.others.now))) }
{
    match Work::begin(alloc, puts.put.value.get()) {
        Ok(part) => {
            work.put(Work::Fills(node, marks, puts.put, puts.others, part));
            Ok(Progress::Stepped)
        }
        Err(_) => Err(Halt::Memory),
    }
}

// A compound literal before its next put; where there is none it is finished, an lvalue of its object.
#[tactic(auto, using(crate::proofs::Opened::type_of_view))]
fn put_filled<'a>(
    alloc: Global,
    work: &mut Work<'a>,
    node: &'a CoreExpr,
    number: u32,
    marks: Marks,
    puts: &'a [Put],
) -> Result<Progress<'a>, Halt>
    ensures { IsLoaded result (view_work work.new) (filled (view_expr node.now) number marks (view_puts puts.now)) }
{
    let Some((put, others)) = puts.split_first() else {
        work.put(Work::Finished(Operand {
            ty: &node.ty,
            value: Finished::Names(number),
            marks,
        }));
        return Ok(Progress::Stepped);
    };
    put_fills(alloc, work, node, marks, Filling { put, others })
}

/// The step in which a compound literal is reached.
pub(crate) fn literal_step<'a, S: Store, O: Objects>(
    alloc: Global,
    store: &mut S,
    objects: &O,
    setting: &Setting<'a>,
    work: &mut Work<'a>,
    node: &'a CoreExpr,
    number: u32,
    puts: &'a [Put],
) -> Result<Progress<'a>, Halt>
    ensures steps { Steps result (S.memory store.old) (S.memory store.new) (view_work work.new)
        (at_node (place_of (view_expr node.now)) (outcome_of (did_clear (view_expr node.now) number (view_puts puts.now))
        (literal_cleared (view_setting setting.now) (O.frame objects.now) (S.memory store.old) number (view_puts puts.now)))) }
    ensures limit { S.limit store.new ≡ S.limit store.old }
{
    let Ok(cleared) = clear_object(alloc, store, objects, setting, number, Some(puts)) else {
        return Err(Halt::Memory);
    };
    match cleared.marks(alloc) {
        Ok(marks) => put_filled(alloc, work, node, number, marks, puts),
        Err(_) => Err(Halt::Memory),
    }
}

// The put of a compound literal whose value is evaluated.
fn current_put<'a>(work: &Work<'a>) -> Option<Filling<'a>>
    ensures { IfSome result (λ one. IsFilling one (view_work work.now)) }
{
    match work {
        Work::Fills(_, _, put, others, _) => Some(Filling { put, others }),
        _ => None,
    }
}

// The number of the object of a compound literal.
fn literal_number(node: &CoreExpr) -> Option<u32>
    ensures { IfSome result (λ number. literal_number (view_expr node.now) ≡ Ok number) }
{
    match &node.form {
        Form::Literal(number, _) => Some(*number),
        _ => None,
    }
}

// The value of a put is stored; there is a sequence point behind it.
#[tactic(auto, using(crate::proofs::Filled::stored_stops, crate::proofs::Filled::stored_filled))]
fn put_stored<'a, S: Store, O: Objects>(
    alloc: Global,
    store: &mut S,
    objects: &O,
    setting: &Setting<'a>,
    work: &mut Work<'a>,
    node: &'a CoreExpr,
    number: u32,
    filling: Filling<'a>,
    operand: Operand<'a>,
    marks: Marks,
) -> Result<Progress<'a>, Halt>
    requires { literal_number (view_expr node.now) ≡ Ok number }
    ensures steps { Steps result (S.memory store.old) (S.memory store.new) (view_work work.new)
        (at_node (place_of_put (view_put filling.entry.put.now)) (put_step (view_setting setting.now) (O.frame objects.now) (S.memory store.old) (view_expr node.now) marks
        (view_put filling.entry.put.now) (view_puts filling.entry.others.now) (view_operand operand.entry))) }
    ensures limit { S.limit store.new ≡ S.limit store.old }
{
    let Operand {
        value,
        marks: mut own,
        ..
    } = operand;
    let put = filling.put;
    if let Err(trouble) = store_put(store, objects, setting, number, put, value, &mut own) {
        return Err(halted(trouble, put.value.get().place));
    }
    let mut marks = marks;
    if marks.join(own).is_err() {
        return Err(Halt::Memory);
    }
    marks.end_sequence(alloc);
    put_filled(alloc, work, node, number, marks, filling.others)
}

/// The step of a compound literal once the value of a put is finished.
#[tactic(auto, using(crate::proofs::Filled::fill_is))]
pub(crate) fn fill_step<'a, S: Store, O: Objects>(
    alloc: Global,
    store: &mut S,
    objects: &O,
    setting: &Setting<'a>,
    work: &mut Work<'a>,
    node: &'a CoreExpr,
) -> Result<Progress<'a>, Halt>
    ensures steps { Steps result (S.memory store.old) (S.memory store.new) (view_work work.new)
        (fill_by (view_setting setting.now) (O.frame objects.now) (S.memory store.old) (view_expr node.now) (view_work work.old)) }
    ensures limit { S.limit store.new ≡ S.limit store.old }
{
    let Some(number) = literal_number(node) else {
        return Err(Halt::Memory);
    };
    let Some(filling) = current_put(work) else {
        return Err(Halt::Memory);
    };
    match part_operand(alloc, node, work) {
        Some(operand) => {
            let marks = marks_before(alloc, work);
            put_stored(
                alloc, store, objects, setting, work, node, number, filling, operand, marks,
            )
        }
        None => Err(Halt::Memory),
    }
}
