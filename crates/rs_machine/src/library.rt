//! Functions of the library whose meaning is known (ISO C99, 7.20.3, 7.20.4 and 7.21).

ghost use Rattle.std.specs.Prelude.{◌≡◌, ◌<◌, true, false, map, option_map, is_none, ℤ, Ok, [], ◌∷◌};
ghost use Rattle.cr_world.specs.Held.{Held, without_block};
ghost use Rattle.cr_world.specs.Known as known;
ghost use Rattle.cr_base.specs.Scalar.{residue};
ghost use Rattle.mem_bytes.specs.Access.{after_copy};
ghost use Rattle.mem_bytes.specs.Memory.{live_block};
ghost use Rattle.rs_machine.specs.Effects.{BlocksEffects, Effects, IsNatural, leaves, over_cause, held_of, library_view, value_in};

use crate::accesses::cause_of;
use crate::machine::Machine;
use cr_base::{Int, MOST_BYTES};
use mem_bytes::{Ptr, Store, Value};
use rs_mean::Cause;
use rs_value::{Trouble, TypedValue};

/// A function of the library whose meaning is known.
#[derive(Clone, Copy)]
pub enum Library {
    Malloc,
    Calloc,
    Free,
    Memcpy,
    Memmove,
    Memset,
    Exit,
    Abort,
}

/// What a call of such a function did.
#[derive(Clone, Copy)]
pub enum Done {
    Gives(Value),
    Nothing,
    /// The program ends with this status.
    Ends(Int),
    /// A block of so many bytes is asked for, which are 0 or unset.
    Wants { is_zero: bool, size: u64 },
}

/// The function of the library with a symbol, if it is one whose meaning is known.
#[tactic(auto, unfolding(cr_world::specs::Known::known_table))]
pub fn library_named(symbol: &[u8]) -> Option<Library>
    ensures { option_map library_view result ≡ known.known_named symbol.now }
{
    if symbol == "malloc".as_bytes() {
        return Some(Library::Malloc);
    }
    if symbol == "calloc".as_bytes() {
        return Some(Library::Calloc);
    }
    if symbol == "free".as_bytes() {
        return Some(Library::Free);
    }
    if symbol == "memcpy".as_bytes() {
        return Some(Library::Memcpy);
    }
    if symbol == "memmove".as_bytes() {
        return Some(Library::Memmove);
    }
    if symbol == "memset".as_bytes() {
        return Some(Library::Memset);
    }
    if symbol == "exit".as_bytes() {
        return Some(Library::Exit);
    }
    if symbol == "abort".as_bytes() {
        return Some(Library::Abort);
    }
    None
}

// A number of bytes; no well typed crate has another one.
pub(crate) fn natural(number: Int) -> Result<u64, Trouble>
    ensures { IsNatural result number }
{
    if number < 0 {
        return Err(Trouble::Wrong(Cause::WrongCall));
    }
    if LARGEST < number {
        return Err(Trouble::Memory);
    }
    Ok(number as u64)
}

const LARGEST: Int = 0xffff_ffff_ffff_ffff;

// A block of so many bytes is asked for, if that isn't more than an object may have.
fn allocated(is_zero: bool, size: u128) -> Done
    ensures { (held : Held) → Effects (Ok result) (known.allocation is_zero size held) held held }
{
    if size <= u128::from(MOST_BYTES) {
        Done::Wants {
            is_zero,
            size: size as u64,
        }
    } else {
        Done::Gives(Value::Null)
    }
}

fn allocation_of(is_zero: bool, size: Value) -> Result<Done, Trouble>
    ensures { (held : Held) → Effects result (known.effect (known.allocates is_zero) (size ∷ []) held) held held }
{
    match size {
        Value::Whole(size) => match natural(size) {
            Ok(size) => Ok(allocated(is_zero, u128::from(size))),
            Err(trouble) => Err(trouble),
        },
        _ => Err(Trouble::Wrong(Cause::WrongCall)),
    }
}

fn allocation_of_all(is_zero: bool, count: Value, size: Value) -> Result<Done, Trouble>
    ensures { (held : Held) → Effects result (known.effect (known.allocates is_zero) (count ∷ size ∷ []) held) held held }
{
    let (Value::Whole(count), Value::Whole(size)) = (count, size) else {
        return Err(Trouble::Wrong(Cause::WrongCall));
    };
    let count = match natural(count) {
        Ok(count) => count,
        Err(trouble) => return Err(trouble),
    };
    match natural(size) {
        Ok(size) => Ok(allocated(is_zero, u128::from(count) * u128::from(size))),
        Err(trouble) => Err(trouble),
    }
}

fn allocation(is_zero: bool, args: &[TypedValue<'_>]) -> Result<Done, Trouble>
    ensures { (held : Held) → Effects result (known.effect (known.allocates is_zero) (map value_in args.now) held) held held }
{
    match args {
        [size] => allocation_of(is_zero, size.value),
        [count, size] => allocation_of_all(is_zero, count.value, size.value),
        _ => Err(Trouble::Wrong(Cause::WrongCall)),
    }
}

/// A block ends, if it lives.
#[tactic(auto, using(crate::proofs::Effected::dead_stays))]
pub fn end_block<S: Store>(store: &mut S, block: u64)
    ensures blocks { S.memory store.new ≡ without_block block (S.memory store.old) }
    ensures limit { S.limit store.new ≡ S.limit store.old }
{
    if is_dead(store, block) {
        return;
    }
    let _dead = store.kill(block);
}

fn freed<S: Store>(machine: &mut Machine, store: &mut S, at: Ptr) -> Result<Done, Trouble>
    ensures effect { Effects result (known.freed at (held_of machine.old (S.memory store.old))) (held_of machine.old (S.memory store.old)) (held_of machine.new (S.memory store.new)) }
    ensures kept { machine.new ≡ record machine.old { heap = machine.new.heap } }
    ensures limit { S.limit store.new ≡ S.limit store.old }
{
    if at.offset != 0 {
        return Err(Trouble::Wrong(Cause::BadFree));
    }
    if !machine.release(at.block) {
        return Err(Trouble::Wrong(Cause::BadFree));
    }
    end_block(store, at.block);
    Ok(Done::Nothing)
}

fn freeing<S: Store>(
    machine: &mut Machine,
    store: &mut S,
    args: &[TypedValue<'_>],
) -> Result<Done, Trouble>
    ensures effect { Effects result (known.effect known.frees (map value_in args.now) (held_of machine.old (S.memory store.old)))
        (held_of machine.old (S.memory store.old)) (held_of machine.new (S.memory store.new)) }
    ensures kept { machine.new ≡ record machine.old { heap = machine.new.heap } }
    ensures limit { S.limit store.new ≡ S.limit store.old }
{
    let [one] = args else {
        return Err(Trouble::Wrong(Cause::WrongCall));
    };
    match one.value {
        Value::Object(at) => freed(machine, store, at),
        Value::Null => Ok(Done::Nothing),
        Value::Whole(_) => Err(Trouble::Wrong(Cause::WrongCall)),
        Value::Code(_) => Err(Trouble::Wrong(Cause::WrongCall)),
    }
}

// Whether a block isn't live.
fn is_dead<S: Store>(store: &S, block: u64) -> bool
    ensures { result ≡ is_none (live_block (S.memory store.now) block) }
{
    match store.state(block) {
        Some(state) => !state.live,
        None => true,
    }
}

// An access through null beside one to a place.
#[tactic(auto, using(crate::proofs::Effected::dead_beside, crate::proofs::Effected::live_beside))]
fn beside_null<S: Store>(store: &S, at: Ptr) -> Result<Done, Trouble>
    ensures { BlocksEffects result (λ held. known.null_beside (live_block held.blocks at.block)) (S.memory store.now) (S.memory store.now) }
{
    if is_dead(store, at.block) {
        return Err(Trouble::Wrong(Cause::Dead));
    }
    Err(Trouble::Wrong(Cause::Outside))
}

// Whether so many bytes from two places on have one in common.
fn overlap(first: Ptr, second: Ptr, count: u64) -> bool
    ensures { result ≡ known.bytes_overlap first second count }
{
    first.block == second.block
        && u128::from(first.offset) < u128::from(second.offset) + u128::from(count)
        && u128::from(second.offset) < u128::from(first.offset) + u128::from(count)
}

// Whether so many bytes from an offset of a block on leave it, as those of a dead one do.
fn leaves<S: Store>(store: &S, at: Ptr, count: u64) -> bool
    ensures { result ≡ leaves (live_block (S.memory store.now) at.block) at.offset count }
{
    match store.state(at.block) {
        Some(state) => !state.live
            || u128::from(state.size) < u128::from(at.offset) + u128::from(count),
        None => true,
    }
}

fn copied_apart<S: Store>(store: &mut S, to: Ptr, from: Ptr, count: u64) -> Result<Done, Trouble>
    ensures effect { BlocksEffects result (λ held. known.accessed_as (Value.Object to) held (after_copy held.blocks from to count)) (S.memory store.old) (S.memory store.new) }
    ensures limit { S.limit store.new ≡ S.limit store.old }
{
    match store.copy(from, to, count) {
        Ok(()) => Ok(Done::Gives(Value::Object(to))),
        Err(fault) => Err(Trouble::Wrong(cause_of(fault))),
    }
}

// What is wrong with a copy between bytes that overlap: what is wrong with an access goes first.
fn over_cause<S: Store>(store: &S, to: Ptr, from: Ptr, count: u64) -> Cause
    ensures { result ≡ over_cause (live_block (S.memory store.now) to.block) (leaves (live_block (S.memory store.now) from.block) from.offset count)
        (leaves (live_block (S.memory store.now) to.block) to.offset count) }
{
    if is_dead(store, to.block) {
        return Cause::Dead;
    }
    if leaves(store, from, count) {
        return Cause::Outside;
    }
    if leaves(store, to, count) {
        return Cause::Outside;
    }
    Cause::Overlap
}

fn copied_over<S: Store>(store: &S, to: Ptr, from: Ptr, count: u64) -> Result<Done, Trouble>
    requires overlap { known.bytes_overlap to from count ≡ true }
    requires some { 0 < count }
    ensures { BlocksEffects result (λ held. known.copied false (Value.Object to) (Value.Object from) count held) (S.memory store.now) (S.memory store.now) }
{
    Err(Trouble::Wrong(over_cause(store, to, from, count)))
}

fn copied_objects<S: Store>(
    store: &mut S,
    may_overlap: bool,
    to: Ptr,
    from: Ptr,
    count: u64,
) -> Result<Done, Trouble>
    requires { 0 < count }
    ensures effect { BlocksEffects result (λ held. known.copied may_overlap (Value.Object to) (Value.Object from) count held) (S.memory store.old) (S.memory store.new) }
    ensures limit { S.limit store.new ≡ S.limit store.old }
{
    if may_overlap {
        return copied_apart(store, to, from, count);
    }
    if overlap(to, from, count) {
        return copied_over(store, to, from, count);
    }
    copied_apart(store, to, from, count)
}

/// A copy of so many bytes.
pub(crate) fn copied<S: Store>(
    store: &mut S,
    may_overlap: bool,
    to: Value,
    from: Value,
    count: u64,
) -> Result<Done, Trouble>
    ensures effect { BlocksEffects result (λ held. known.copying may_overlap to from count held) (S.memory store.old) (S.memory store.new) }
    ensures limit { S.limit store.new ≡ S.limit store.old }
{
    if count == 0 {
        return Ok(Done::Gives(to));
    }
    match (to, from) {
        (Value::Object(to), Value::Object(from)) => copied_objects(
            store,
            may_overlap,
            to,
            from,
            count,
        ),
        (Value::Object(to), Value::Null) => beside_null(store, to),
        (Value::Null, Value::Object(from)) => beside_null(store, from),
        (Value::Null, Value::Null) => Err(Trouble::Wrong(Cause::Outside)),
        _ => Err(Trouble::Wrong(Cause::WrongCall)),
    }
}

fn copying<S: Store>(
    store: &mut S,
    may_overlap: bool,
    args: &[TypedValue<'_>],
) -> Result<Done, Trouble>
    ensures effect { BlocksEffects result (known.effect (known.copies may_overlap) (map value_in args.now)) (S.memory store.old) (S.memory store.new) }
    ensures limit { S.limit store.new ≡ S.limit store.old }
{
    let [to, from, count] = args else {
        return Err(Trouble::Wrong(Cause::WrongCall));
    };
    let Value::Whole(count) = count.value else {
        return Err(Trouble::Wrong(Cause::WrongCall));
    };
    match natural(count) {
        Ok(count) => copied(store, may_overlap, to.value, from.value, count),
        Err(trouble) => Err(trouble),
    }
}

fn filled<S: Store>(store: &mut S, to: Value, byte: u8, count: u64) -> Result<Done, Trouble>
    ensures effect { (number : ℤ) → residue number 256 ≡ byte →
        BlocksEffects result (known.filling to number count) (S.memory store.old) (S.memory store.new) }
    ensures limit { S.limit store.new ≡ S.limit store.old }
{
    match to {
        Value::Object(at) => match store.fill(at, byte, count) {
            Ok(()) => Ok(Done::Gives(Value::Object(at))),
            Err(fault) => Err(Trouble::Wrong(cause_of(fault))),
        },
        Value::Null => Err(Trouble::Wrong(Cause::Outside)),
        Value::Whole(_) => Err(Trouble::Wrong(Cause::WrongCall)),
        Value::Code(_) => Err(Trouble::Wrong(Cause::WrongCall)),
    }
}

fn byte_of(number: &Int) -> u8
    ensures { residue number.now 256 ≡ result }
{
    number.rem_euclid(256) as u8
}

fn filled_by<S: Store>(store: &mut S, to: Value, byte: &Int, count: Value) -> Result<Done, Trouble>
    ensures effect { BlocksEffects result (known.effect known.fills (to ∷ Value.Whole byte.now ∷ count ∷ [])) (S.memory store.old) (S.memory store.new) }
    ensures limit { S.limit store.new ≡ S.limit store.old }
{
    let Value::Whole(count) = count else {
        return Err(Trouble::Wrong(Cause::WrongCall));
    };
    let count = match natural(count) {
        Ok(count) => count,
        Err(trouble) => return Err(trouble),
    };
    filled(store, to, byte_of(byte), count)
}

fn filling<S: Store>(store: &mut S, args: &[TypedValue<'_>]) -> Result<Done, Trouble>
    ensures effect { BlocksEffects result (known.effect known.fills (map value_in args.now)) (S.memory store.old) (S.memory store.new) }
    ensures limit { S.limit store.new ≡ S.limit store.old }
{
    let [to, byte, count] = args else {
        return Err(Trouble::Wrong(Cause::WrongCall));
    };
    match &byte.value {
        Value::Whole(number) => filled_by(store, to.value, number, count.value),
        Value::Null | Value::Object(_) | Value::Code(_) => Err(Trouble::Wrong(Cause::WrongCall)),
    }
}

fn exiting(args: &[TypedValue<'_>]) -> Result<Done, Trouble>
    ensures { (held : Held) → Effects result (known.effect known.exits (map value_in args.now) held) held held }
{
    let [status] = args else {
        return Err(Trouble::Wrong(Cause::WrongCall));
    };
    match status.value {
        Value::Whole(status) => Ok(Done::Ends(status)),
        _ => Err(Trouble::Wrong(Cause::WrongCall)),
    }
}

fn aborting(args: &[TypedValue<'_>]) -> Result<Done, Trouble>
    ensures { (held : Held) → Effects result (known.effect known.aborts (map value_in args.now) held) held held }
{
    match args {
        [] => Ok(Done::Ends(ABORT_STATUS)),
        _ => Err(Trouble::Wrong(Cause::WrongCall)),
    }
}

// The status of a program that is aborted.
const ABORT_STATUS: Int = 134;

/// What a call of a function of the library does.
pub(crate) fn effect_of<S: Store>(
    machine: &mut Machine,
    store: &mut S,
    which: Library,
    args: &[TypedValue<'_>],
) -> Result<Done, Trouble>
    ensures effect { Effects result (known.effect (library_view which).does (map value_in args.now) (held_of machine.old (S.memory store.old)))
        (held_of machine.old (S.memory store.old)) (held_of machine.new (S.memory store.new)) }
    ensures kept { machine.new ≡ record machine.old { heap = machine.new.heap } }
    ensures limit { S.limit store.new ≡ S.limit store.old }
{
    match which {
        Library::Malloc => allocation(false, args),
        Library::Calloc => allocation(true, args),
        Library::Free => freeing(machine, store, args),
        Library::Memcpy => copying(store, false, args),
        Library::Memmove => copying(store, true, args),
        Library::Memset => filling(store, args),
        Library::Exit => exiting(args),
        Library::Abort => aborting(args),
    }
}
