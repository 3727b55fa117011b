//! Where a run stands (ISO C99, 5.1.2.3 and 6.8).

ghost use Rattle.std.specs.Prelude.{◌≡◌, IfOk};
ghost use Rattle.cx_mean.specs.State.{control_of};
ghost use Rattle.cx_moves.specs.Sites.{view_move};
ghost use Rattle.cx_machine.specs.Machines.{IsAt};

use cr_base::{Items, Memory};
use cx_core::{CoreExpr, CoreObject, Fun};
use cx_moves::{Move, Purpose, Site};
use cx_work::{Child, Finished, Slot, Work};
use std::alloc::Global;

/// What the next step of a run is.
#[derive(Clone, Copy)]
pub enum Control<'a> {
    /// The life of a static object begins; those of a list that are defined follow.
    Begins(&'a CoreObject, &'a [CoreObject]),
    /// What comes next in a body.
    Moves(Move<'a>),
    /// A full expression takes a step, or its value is used.
    Values(Purpose<'a>),
    /// The life of a parameter of a called function begins, and then those of others.
    Takes(&'a Fun, &'a [u32]),
}

/// A function that waits for one that it called.
#[derive(Drop)]
pub struct Caller<'a> {
    /// What is left of its full expression, and what is done with the value.
    pub work: Child<Work<'a>>,
    pub purpose: Purpose<'a>,
    pub site: Site<'a>,
}

/// Where a run stands, beside the memory and the outside.
#[derive(Drop)]
pub struct Machine<'a> {
    pub control: Control<'a>,
    /// Where it stands in the function that runs.
    pub site: Site<'a>,
    /// The full expression that is evaluated.
    pub work: Option<Child<Work<'a>>>,
    /// The arguments of a called function whose parameters haven't begun, the last one first.
    pub args: Items<Finished>,
    /// The static objects that have begun.
    pub statics: Items<Slot>,
    /// The functions that wait, the outermost first.
    pub callers: Items<Caller<'a>>,
    /// The numbers of the order that are left.
    pub order: &'a [u32],
}

// A full expression of which no step was taken.
fn evaluate<'a>(
    alloc: Global,
    machine: &mut Machine<'a>,
    value: &'a CoreExpr,
    purpose: Purpose<'a>,
) -> Result<(), Memory>
    ensures { IfOk result (λ _. IsAt machine.old machine.new (control_of (view_move machine.old.site (Move.Values value.entry purpose.entry)))) }
{
    let work = Work::begin(alloc, value)?;
    machine.work = Some(work);
    machine.control = Control::Values(purpose);
    Ok(())
}

/// A move is next. What no typed program does is answered by want of memory.
///
/// # Errors
///
/// `Memory` for want of memory.
pub fn go<'a>(alloc: Global, machine: &mut Machine<'a>, one: Move<'a>) -> Result<(), Memory>
    ensures { IfOk result (λ _. IsAt machine.old machine.new (control_of (view_move machine.old.site one.entry))) }
{
    match one {
        Move::Values(value, purpose) => evaluate(alloc, machine, value, purpose),
        Move::Nowhere(_) => Err(Memory),
        Move::Reaches(stmt) => {
            machine.control = Control::Moves(Move::Reaches(stmt));
            Ok(())
        }
        Move::Begins {
            object,
            others,
            goal,
        } => {
            machine.control = Control::Moves(Move::Begins {
                object,
                others,
                goal,
            });
            Ok(())
        }
        Move::Leaves(left) => {
            machine.control = Control::Moves(Move::Leaves(left));
            Ok(())
        }
        Move::CallsMain => {
            machine.control = Control::Moves(Move::CallsMain);
            Ok(())
        }
    }
}
