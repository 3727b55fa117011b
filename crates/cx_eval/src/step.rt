ghost use Rattle.std.specs.Prelude.{◌≡◌, ◌<◌, ◌-◌, Ok, IfOk};
ghost use Rattle.cx_access.specs.Views.{view_setting};
ghost use Rattle.cx_eval.specs.Next.{IsNext, Takes, setting_by};
ghost use Rattle.cx_eval.specs.declared.step.Next.TheVariants.{Stepped};
ghost use Rattle.cx_eval.specs.Several.{TakesSome};
ghost use Rattle.cx_work.specs.Views.{view_work};

use crate::pass::{Pass, pass_tree};
use crate::walk::walk;
use cr_base::{Memory, Place, URule};
use cx_access::Setting;
use cx_core::Program;
use cx_layout::Layouts;
use cx_ready::{Halt, Progress};
use cx_work::{Called, Child, Objects, Work};
use mem_bytes::Store;
use std::alloc::Global;

/// What a step of an expression leaves.
#[derive(Drop)]
pub enum Next<'a> {
    /// It was taken.
    Stepped,
    /// It calls a function; the tree waits for its end.
    Calls(Child<Called<'a>>),
    /// C leaves it undefined, by this rule at the node with this place.
    Undefined(URule, Place),
}

/// What came of steps of an expression that were taken one after the other, each at the leftmost ready node.
#[derive(Drop)]
pub struct Last<'a> {
    /// How many were taken before the last one; none of them calls.
    pub before: u64,
    /// What the last one leaves.
    pub next: Next<'a>,
}

// What a walk leaves that reached the node.
fn next_of<'a>(taken: Result<Progress<'a>, Halt>) -> Result<Next<'a>, Memory>
    ensures { IsNext taken.entry result }
{
    match taken {
        Ok(Progress::Stepped) => Ok(Next::Stepped),
        Ok(Progress::Calls(called)) => Ok(Next::Calls(called)),
        Err(Halt::Undefined(rule, place)) => Ok(Next::Undefined(rule, place)),
        Err(Halt::Memory) => Err(Memory),
    }
}

/// Takes one step of an expression, at the ready node with the number `pick`, from 0 on in post-order, in a setting.
///
/// # Errors
///
/// `Memory` for want of memory. It stands, too, for a step that no typed program has, for a `pick` that isn't below the number of the
/// ready nodes.
pub fn take_step_in<'a, S: Store, O: Objects>(
    alloc: Global,
    work: &mut Work<'a>,
    pick: u64,
    objects: &O,
    setting: &Setting<'a>,
    store: &mut S,
) -> Result<Next<'a>, Memory>
    ensures step { Takes result (view_setting setting.now) (O.frame objects.now) (S.memory store.old) (S.memory store.new) pick (view_work work.old) (view_work work.new) }
    ensures limit { S.limit store.new ≡ S.limit store.old }
{
    let mut taken = Err(Halt::Memory);
    match walk(alloc, store, objects, setting, work, pick, &mut taken) {
        Some(_) => Err(Memory),
        None => next_of(taken),
    }
}

/// The same of a program with layouts.
///
/// # Errors
///
/// As `take_step_in`.
pub fn take_step<'a, S: Store, O: Objects>(
    alloc: Global,
    work: &mut Work<'a>,
    pick: u64,
    objects: &O,
    program: &'a Program,
    layouts: &'a Layouts,
    store: &mut S,
) -> Result<Next<'a>, Memory>
    ensures step { Takes result (setting_by program.now layouts.now) (O.frame objects.now) (S.memory store.old) (S.memory store.new) pick (view_work work.old) (view_work work.new) }
    ensures limit { S.limit store.new ≡ S.limit store.old }
{
    let setting = Setting {
        program: program.parts(),
        layouts,
    };
    take_step_in(alloc, work, pick, objects, &setting, store)
}

// What some steps came to where none calls or is undefined.
fn last_stepped<'a>(most: u64, rest: u64) -> Result<Last<'a>, Memory>
    ensures { IfOk result (λ last. (rest < most) × (last.before ≡ most - rest - 1) × (last.next ≡ Stepped)) }
{
    if rest >= most {
        return Err(Memory);
    }
    Ok(Last {
        before: most - rest - 1,
        next: Next::Stepped,
    })
}

// What some steps came to, and then one that calls or is undefined.
fn last_halted<'a>(
    most: u64,
    rest: u64,
    taken: Result<Progress<'a>, Halt>,
) -> Result<Last<'a>, Memory>
    ensures { IfOk result (λ last. (last.before ≡ most - rest) × IsNext taken.entry (Ok last.next)) }
{
    match next_of(taken) {
        Ok(next) => Ok(Last {
            before: most.saturating_sub(rest),
            next,
        }),
        Err(memory) => Err(memory),
    }
}

/// Takes steps of an expression one after the other in a setting, each at the leftmost ready node, `most` at most, up to the first one that
/// calls or is undefined. How many they are is left open: fewer may be taken than there are.
///
/// # Errors
///
/// `Memory` for want of memory. It stands, too, for a step that no typed program has, and where none may be taken or no node is ready.
pub fn take_steps_in<'a, S: Store, O: Objects>(
    alloc: Global,
    work: &mut Work<'a>,
    most: u64,
    objects: &O,
    setting: &Setting<'a>,
    store: &mut S,
) -> Result<Last<'a>, Memory>
    ensures steps { TakesSome result (view_setting setting.now) (O.frame objects.now) (S.memory store.old) (S.memory store.new) most (view_work work.old) (view_work work.new) }
    ensures limit { S.limit store.new ≡ S.limit store.old }
{
    let mut rest = most;
    let mut taken = Err(Halt::Memory);
    match pass_tree(alloc, store, objects, setting, work, &mut rest, &mut taken) {
        Pass::Through => last_stepped(most, rest),
        Pass::Rests => last_stepped(most, rest),
        Pass::Halted => last_halted(most, rest, taken),
    }
}
