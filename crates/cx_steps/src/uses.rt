//! Values of full expressions that are used: they are stored, given back or chosen by (ISO C99, 6.7.8, 6.8.4, 6.8.5, 6.8.6.4).

ghost use Rattle.std.specs.Prelude.{◌≡◌, IfOk};
ghost use Rattle.cx_access.specs.Finds.{Finds};
ghost use Rattle.cx_access.specs.Views.{view_setting};
ghost use Rattle.cx_core.specs.Views.{view_put, view_stmt};
ghost use Rattle.cr_world.specs.World.{blocks_of};
ghost use Rattle.cx_machine.specs.Machines.{GoesTo, view_machine};
ghost use Rattle.cx_machine.specs.Steps.{StoreAdvances};
ghost use Rattle.cx_mean.specs.Marks.{no_marks};
ghost use Rattle.cx_mean.specs.Moves as meaning;
ghost use Rattle.cx_mean.specs.Moves.{stand};
ghost use Rattle.cx_mean.specs.State.{after_choice, after_give, choice_at, choice_made, use_step, value_given};
ghost use Rattle.cx_moves.specs.Sites.{view_level, view_move, view_purpose, view_site};
ghost use Rattle.cx_moves.specs.Ways.{form_of};
ghost use Rattle.cx_puts.specs.Storing.{value_put};
ghost use Rattle.cx_steps.specs.Choices.{dropped_next, dropped_state, frame_of, is_in_body, number_of_value, scope_frame, switched_by, tested_by, used};
ghost use Rattle.cx_steps.specs.Given.{Stores};
ghost use Rattle.cx_work.specs.Views.{view_finished};

use cr_base::{Int, Memory, Place, URule};
use cx_access::{Setting, Trouble, number_in, scalar_value};
use cx_machine::{Machine, Stop, go, goes_on_behind, goes_on_putting, goes_on_turning, returns};
use cx_moves::{
    Behind, Level, Move, Purpose, Putting, Scope, Site, choosing, innermost, is_switch, switching,
};
use cx_node_steps::truth_of_value;
use cx_outside::Lack;
use cx_puts::store_put;
use cx_work::{Finished, Marks};
use mem_bytes::Store;
use std::alloc::Global;

// ---- a value is stored

// The value of a put is stored in its object, which is in scope.
fn stores<S: Store>(
    alloc: Global,
    machine: &Machine<'_>,
    store: &mut S,
    setting: &Setting<'_>,
    one: Putting<'_>,
    value: Finished,
) -> Result<(), Trouble>
    ensures stored { Stores result (S.memory store.new) (value_put (view_setting setting.now) (scope_frame machine.now (is_in_body one.entry.behind)) (S.memory store.old) one.entry.object (view_put one.entry.put.now) (view_finished value) no_marks) }
    ensures limit { S.limit store.new ≡ S.limit store.old }
{
    let objects = scope_of(machine, is_in_body(one.behind));
    let mut marks = Marks::new(alloc);
    match store_put(
        store, &objects, setting, one.object, one.put, value, &mut marks,
    ) {
        Ok(_) => Ok(()),
        Err(trouble) => Err(trouble),
    }
}

/// Whether what is done behind the last put of an object goes on in a body.
pub(crate) fn is_in_body(behind: Behind<'_>) -> bool
    ensures { result ≡ is_in_body behind.entry }
{
    match behind {
        Behind::Body => true,
        Behind::Statics(_) => false,
    }
}

/// The objects in scope: those of the function that runs, if one does, and the static ones.
pub(crate) fn scope_of<'s, 'a>(machine: &'s Machine<'a>, in_body: bool) -> Scope<'s, 'a>
    ensures { frame_of result ≡ scope_frame machine.now in_body }
{
    let levels = machine.site.levels.as_slice();
    let params = machine.site.params.as_slice();
    let statics = machine.statics.as_slice();
    if in_body {
        return Scope {
            levels,
            params,
            statics,
        };
    }
    Scope {
        levels: &levels[..0],
        params: &params[..0],
        statics,
    }
}

// The value of a put is stored, and what is behind it is next.
fn puts<'a, S: Store>(
    alloc: Global,
    machine: &mut Machine<'a>,
    store: &mut S,
    setting: &Setting<'a>,
    one: Putting<'a>,
    value: Finished,
) -> Result<(), Stop<'a>>
    ensures steps { StoreAdvances (λ world. use_step (view_setting setting.now) (view_machine machine.old world) (used (view_finished value)) (view_purpose (view_site machine.old.site) (Purpose.Puts one.entry))) result (view_machine machine.new)
        (S.memory store.old) (S.memory store.new) (S.limit store.old) (S.limit store.new) }
    ensures limit { S.limit store.new ≡ S.limit store.old }
{
    match stores(alloc, machine, store, setting, one, value) {
        Ok(()) => {}
        Err(Trouble::Undefined(rule)) => {
            return Err(Stop::Undefined(rule, one.put.value.get().place));
        }
        Err(Trouble::Memory) => return Err(Stop::Lacks(Lack::Memory)),
    }
    match goes_on_putting(alloc, machine, store, one) {
        Ok(()) => Ok(()),
        Err(_) => Err(Stop::Lacks(Lack::Memory)),
    }
}

// ---- a value is given back

fn gives<'a, S: Store>(
    alloc: Global,
    machine: &mut Machine<'a>,
    store: &mut S,
    place: Place,
    value: Finished,
) -> Result<(), Stop<'a>>
    ensures steps { StoreAdvances (λ world. after_give (view_machine machine.old world) place (view_site machine.old.site) (value_given (view_finished value))) result (view_machine machine.new)
        (S.memory store.old) (S.memory store.new) (S.limit store.old) (S.limit store.new) }
    ensures limit { S.limit store.new ≡ S.limit store.old }
{
    match value {
        Finished::Scalar(_) => returns(alloc, machine, store, value),
        Finished::Cells(_, _) => returns(alloc, machine, store, value),
        Finished::Missing => Err(Stop::Undefined(URule::U14, place)),
        Finished::Names(_) => Err(Stop::Lacks(Lack::Memory)),
        Finished::Designates(_) => Err(Stop::Lacks(Lack::Memory)),
        Finished::Bits(_, _, _) => Err(Stop::Lacks(Lack::Memory)),
    }
}

// ---- a statement chooses by a value

fn number_of(value: &Finished) -> Result<Int, Trouble>
    ensures { Finds (λ number. number) result (number_of_value (view_finished value.now)) }
{
    match scalar_value(value) {
        Ok(one) => number_in(one),
        Err(trouble) => Err(trouble),
    }
}

// A `switch` goes on by a value (6.8.4.2).
fn switched<'a, S: Store>(
    alloc: Global,
    value: &Finished,
    level: Level<'a>,
    outer: &mut Site<'a>,
    store: &mut S,
) -> Result<Move<'a>, Trouble>
    ensures next { Finds (λ move. stand (view_move outer.new move) (S.memory store.new)) result (switched_by (view_finished value.now) (view_level level.entry) (view_site outer.old) (S.memory store.old)) }
    ensures limit { S.limit store.new ≡ S.limit store.old }
{
    let number = match number_of(value) {
        Ok(number) => number,
        Err(trouble) => return Err(trouble),
    };
    match switching(alloc, &number, level, outer, store) {
        Ok(one) => Ok(one),
        Err(_) => Err(Trouble::Memory),
    }
}

// An `if` or a loop goes on by whether a value is true (6.8.4.1, 6.8.5).
fn tested<'a, S: Store>(
    value: &Finished,
    level: Level<'a>,
    outer: &mut Site<'a>,
    store: &mut S,
) -> Result<Move<'a>, Trouble>
    ensures next { Finds (λ move. stand (view_move outer.new move) (S.memory store.new)) result (tested_by (view_finished value.now) (view_level level.entry) (view_site outer.old) (S.memory store.old)) }
    ensures limit { S.limit store.new ≡ S.limit store.old }
{
    let holds = match truth_of_value(store, value) {
        Ok(holds) => holds,
        Err(trouble) => return Err(trouble),
    };
    match choosing(holds, level, outer, store) {
        Ok(one) => Ok(one),
        Err(_) => Err(Trouble::Memory),
    }
}

fn chosen<'a, S: Store>(
    alloc: Global,
    value: &Finished,
    level: Level<'a>,
    outer: &mut Site<'a>,
    store: &mut S,
) -> Result<Move<'a>, Trouble>
    ensures next { Finds (λ move. stand (view_move outer.new move) (S.memory store.new)) result
        (choice_made (meaning.is_switch (form_of (view_stmt level.entry.stmt.now))) (S.memory store.old) (view_finished value.now) (view_level level.entry) (view_site outer.old).levels (view_site outer.old).bottom) }
    ensures limit { S.limit store.new ≡ S.limit store.old }
{
    if is_switch(level.stmt) {
        return switched(alloc, value, level, outer, store);
    }
    tested(value, level, outer, store)
}

// The innermost open statement goes on by a value.
fn choice<'a, S: Store>(
    alloc: Global,
    value: &Finished,
    site: &mut Site<'a>,
    store: &mut S,
) -> Result<Move<'a>, Trouble>
    ensures next { Finds (λ move. stand (view_move site.new move) (S.memory store.new)) result
        (choice_at (S.memory store.old) (view_finished value.now) (view_site site.old).levels (view_site site.old).bottom) }
    ensures limit { S.limit store.new ≡ S.limit store.old }
{
    match innermost(site) {
        Some(level) => chosen(alloc, value, level, site, store),
        None => Err(Trouble::Memory),
    }
}

fn chooses<'a, S: Store>(
    alloc: Global,
    machine: &mut Machine<'a>,
    store: &mut S,
    place: Place,
    value: &Finished,
) -> Result<(), Stop<'a>>
    ensures steps { StoreAdvances (λ world. after_choice (view_machine machine.old world) place (choice_at (blocks_of world) (view_finished value.now) (view_site machine.old.site).levels (view_site machine.old.site).bottom)) result (view_machine machine.new)
        (S.memory store.old) (S.memory store.new) (S.limit store.old) (S.limit store.new) }
    ensures limit { S.limit store.new ≡ S.limit store.old }
{
    let one = match choice(alloc, value, &mut machine.site, store) {
        Ok(one) => one,
        Err(Trouble::Undefined(rule)) => return Err(Stop::Undefined(rule, place)),
        Err(Trouble::Memory) => return Err(Stop::Lacks(Lack::Memory)),
    };
    match go(alloc, machine, one) {
        Ok(()) => Ok(()),
        Err(_) => Err(Stop::Lacks(Lack::Memory)),
    }
}

// ---- all uses

// What follows is next.
fn goes_on<'a, S: Store>(
    alloc: Global,
    machine: &mut Machine<'a>,
    store: &mut S,
    turns: bool,
) -> Result<(), Memory>
    ensures next { IfOk result (λ _. GoesTo machine.old machine.new (dropped_next turns (view_site machine.old.site) (S.memory store.old)) (S.memory store.new)) }
    ensures limit { S.limit store.new ≡ S.limit store.old }
{
    if turns {
        return goes_on_turning(alloc, machine, store);
    }
    goes_on_behind(alloc, machine, store)
}

fn drops<'a, S: Store>(
    alloc: Global,
    machine: &mut Machine<'a>,
    store: &mut S,
    turns: bool,
) -> Result<(), Stop<'a>>
    ensures steps { StoreAdvances (λ world. dropped_state turns (view_machine machine.old world) (view_site machine.old.site)) result (view_machine machine.new)
        (S.memory store.old) (S.memory store.new) (S.limit store.old) (S.limit store.new) }
    ensures limit { S.limit store.new ≡ S.limit store.old }
{
    match goes_on(alloc, machine, store, turns) {
        Ok(()) => Ok(()),
        Err(_) => Err(Stop::Lacks(Lack::Memory)),
    }
}

/// The value of a full expression is used.
///
/// # Errors
///
/// `Ended` where the program ends, `Undefined` where the use is, and `Lacks` for want of memory.
pub(crate) fn uses<'a, S: Store>(
    alloc: Global,
    machine: &mut Machine<'a>,
    store: &mut S,
    setting: &Setting<'a>,
    purpose: Purpose<'a>,
    value: Finished,
) -> Result<(), Stop<'a>>
    ensures steps { StoreAdvances (λ world. use_step (view_setting setting.now) (view_machine machine.old world) (used (view_finished value)) (view_purpose (view_site machine.old.site) purpose.entry)) result (view_machine machine.new)
        (S.memory store.old) (S.memory store.new) (S.limit store.old) (S.limit store.new) }
    ensures limit { S.limit store.new ≡ S.limit store.old }
{
    match purpose {
        Purpose::Puts(one) => puts(alloc, machine, store, setting, one, value),
        Purpose::Drops => drops(alloc, machine, store, false),
        Purpose::Turns => drops(alloc, machine, store, true),
        Purpose::Gives(place) => gives(alloc, machine, store, place, value),
        Purpose::Chooses(place) => chooses(alloc, machine, store, place, &value),
    }
}
