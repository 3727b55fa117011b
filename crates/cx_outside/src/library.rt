//! Functions of the library whose meaning is known (ISO C99, 7.20.3, 7.20.4 and 7.21).

ghost use Rattle.std.specs.Prelude.{◌≡◌, ◌<◌, true, false, option_map, is_none, ℤ, pos, Ok, [], ◌∷◌, IfOk, IfSome};
ghost use Rattle.cr_world.specs.Held.{Held};
ghost use Rattle.cr_world.specs.Known as known;
ghost use Rattle.cr_base.specs.Scalar.{residue};
ghost use Rattle.mem_bytes.specs.Access.{after_copy};
ghost use Rattle.mem_bytes.specs.Memory.{live_block};
ghost use Rattle.cx_outside.specs.Effects.{BlocksEffects, Effects, leaves, over_rule, held_of, library_view};

use crate::kept::Kept;
use cr_base::{Int, MOST_BYTES, Memory, URule};
use cx_access::{Trouble, rule_of};
use cx_moves::kill;
use mem_bytes::{Ptr, Store, Value};

/// A function of the library whose meaning is known.
#[derive(Clone, Copy)]
pub enum Library {
    Malloc,
    Calloc,
    Free,
    Memcpy,
    Memmove,
    Memset,
    Exit,
    Abort,
}

/// What a call of such a function did.
#[derive(Clone, Copy)]
pub enum Done {
    Gives(Value),
    Nothing,
    /// The program ends with this status.
    Ends(Int),
    /// A block of so many bytes is asked for, which are 0 or unset.
    Wants { is_zero: bool, size: u64 },
}

/// The function of the library with a symbol, if it is one whose meaning is known.
#[tactic(auto, unfolding(cr_world::specs::Known::known_table))]
pub fn library_named(symbol: &[u8]) -> Option<Library>
    ensures { option_map library_view result ≡ known.known_named symbol.now }
{
    if symbol == "malloc".as_bytes() {
        return Some(Library::Malloc);
    }
    if symbol == "calloc".as_bytes() {
        return Some(Library::Calloc);
    }
    if symbol == "free".as_bytes() {
        return Some(Library::Free);
    }
    if symbol == "memcpy".as_bytes() {
        return Some(Library::Memcpy);
    }
    if symbol == "memmove".as_bytes() {
        return Some(Library::Memmove);
    }
    if symbol == "memset".as_bytes() {
        return Some(Library::Memset);
    }
    if symbol == "exit".as_bytes() {
        return Some(Library::Exit);
    }
    if symbol == "abort".as_bytes() {
        return Some(Library::Abort);
    }
    None
}

// A number of bytes; no typed program has another one.
fn natural(number: Int) -> Result<u64, Memory>
    ensures { IfOk result (λ count. number ≡ pos count) }
{
    if number < 0 {
        return Err(Memory);
    }
    if LARGEST < number {
        return Err(Memory);
    }
    Ok(number as u64)
}

const LARGEST: Int = 0xffff_ffff_ffff_ffff;

// A block of so many bytes is asked for, if that isn't more than an object may have.
fn allocated(is_zero: bool, size: u128) -> Done
    ensures { (held : Held) → Effects (Ok result) (known.allocation is_zero size held) held held }
{
    if size <= u128::from(MOST_BYTES) {
        Done::Wants {
            is_zero,
            size: size as u64,
        }
    } else {
        Done::Gives(Value::Null)
    }
}

fn allocation_of(is_zero: bool, size: Value) -> Result<Done, Trouble>
    ensures { (held : Held) → Effects result (known.effect (known.allocates is_zero) (size ∷ []) held) held held }
{
    match size {
        Value::Whole(size) => match natural(size) {
            Ok(size) => Ok(allocated(is_zero, u128::from(size))),
            Err(_) => Err(Trouble::Memory),
        },
        _ => Err(Trouble::Memory),
    }
}

fn allocation_of_all(is_zero: bool, count: Value, size: Value) -> Result<Done, Trouble>
    ensures { (held : Held) → Effects result (known.effect (known.allocates is_zero) (count ∷ size ∷ []) held) held held }
{
    let (Value::Whole(count), Value::Whole(size)) = (count, size) else {
        return Err(Trouble::Memory);
    };
    let count = match natural(count) {
        Ok(count) => count,
        Err(_) => return Err(Trouble::Memory),
    };
    match natural(size) {
        Ok(size) => Ok(allocated(is_zero, u128::from(count) * u128::from(size))),
        Err(_) => Err(Trouble::Memory),
    }
}

fn allocation(is_zero: bool, args: &[Value]) -> Result<Done, Trouble>
    ensures { (held : Held) → Effects result (known.effect (known.allocates is_zero) (args.now) held) held held }
{
    match args {
        [size] => allocation_of(is_zero, *size),
        [count, size] => allocation_of_all(is_zero, *count, *size),
        _ => Err(Trouble::Memory),
    }
}

fn freed<S: Store>(kept: &mut Kept, store: &mut S, at: Ptr) -> Result<Done, Trouble>
    ensures effect { Effects result (known.freed at (held_of kept.old (S.memory store.old))) (held_of kept.old (S.memory store.old)) (held_of kept.new (S.memory store.new)) }
    ensures kept { kept.new ≡ record kept.old { heap = kept.new.heap } }
    ensures limit { S.limit store.new ≡ S.limit store.old }
{
    if at.offset != 0 {
        return Err(Trouble::Undefined(URule::U15));
    }
    if !kept.release(at.block) {
        return Err(Trouble::Undefined(URule::U15));
    }
    kill(store, at.block);
    Ok(Done::Nothing)
}

fn freeing<S: Store>(kept: &mut Kept, store: &mut S, args: &[Value]) -> Result<Done, Trouble>
    ensures effect { Effects result (known.effect known.frees (args.now) (held_of kept.old (S.memory store.old)))
        (held_of kept.old (S.memory store.old)) (held_of kept.new (S.memory store.new)) }
    ensures kept { kept.new ≡ record kept.old { heap = kept.new.heap } }
    ensures limit { S.limit store.new ≡ S.limit store.old }
{
    let [one] = args else {
        return Err(Trouble::Memory);
    };
    match *one {
        Value::Object(at) => freed(kept, store, at),
        Value::Null => Ok(Done::Nothing),
        Value::Whole(_) => Err(Trouble::Memory),
        Value::Code(_) => Err(Trouble::Memory),
    }
}

// Whether a block isn't live.
fn is_dead<S: Store>(store: &S, block: u64) -> bool
    ensures { result ≡ is_none (live_block (S.memory store.now) block) }
{
    match store.state(block) {
        Some(state) => !state.live,
        None => true,
    }
}

// An access through null beside one to a place.
#[tactic(auto, using(crate::proofs::Effected::dead_beside, crate::proofs::Effected::live_beside))]
fn beside_null<S: Store>(store: &S, at: Ptr) -> Result<Done, Trouble>
    ensures { BlocksEffects result (λ held. known.null_beside (live_block held.blocks at.block)) (S.memory store.now) (S.memory store.now) }
{
    if is_dead(store, at.block) {
        return Err(Trouble::Undefined(URule::U5));
    }
    Err(Trouble::Undefined(URule::U6))
}

// Whether so many bytes from two places on have one in common.
fn overlap(first: Ptr, second: Ptr, count: u64) -> bool
    ensures { result ≡ known.bytes_overlap first second count }
{
    first.block == second.block
        && u128::from(first.offset) < u128::from(second.offset) + u128::from(count)
        && u128::from(second.offset) < u128::from(first.offset) + u128::from(count)
}

// Whether so many bytes from an offset of a block on leave it, as those of a dead one do.
fn leaves<S: Store>(store: &S, at: Ptr, count: u64) -> bool
    ensures { result ≡ leaves (live_block (S.memory store.now) at.block) at.offset count }
{
    match store.state(at.block) {
        Some(state) => !state.live
            || u128::from(state.size) < u128::from(at.offset) + u128::from(count),
        None => true,
    }
}

fn copied_apart<S: Store>(store: &mut S, to: Ptr, from: Ptr, count: u64) -> Result<Done, Trouble>
    ensures effect { BlocksEffects result (λ held. known.accessed_as (Value.Object to) held (after_copy held.blocks from to count)) (S.memory store.old) (S.memory store.new) }
    ensures limit { S.limit store.new ≡ S.limit store.old }
{
    match store.copy(from, to, count) {
        Ok(()) => Ok(Done::Gives(Value::Object(to))),
        Err(fault) => Err(Trouble::Undefined(rule_of(fault))),
    }
}

// What is wrong with a copy between bytes that overlap: what is wrong with an access goes first.
fn over_rule<S: Store>(store: &S, to: Ptr, from: Ptr, count: u64) -> URule
    ensures { result ≡ over_rule (live_block (S.memory store.now) to.block) (leaves (live_block (S.memory store.now) from.block) from.offset count)
        (leaves (live_block (S.memory store.now) to.block) to.offset count) }
{
    if is_dead(store, to.block) {
        return URule::U5;
    }
    if leaves(store, from, count) {
        return URule::U6;
    }
    if leaves(store, to, count) {
        return URule::U6;
    }
    URule::U16
}

fn copied_over<S: Store>(store: &S, to: Ptr, from: Ptr, count: u64) -> Result<Done, Trouble>
    requires overlap { known.bytes_overlap to from count ≡ true }
    requires some { 0 < count }
    ensures { BlocksEffects result (λ held. known.copied false (Value.Object to) (Value.Object from) count held) (S.memory store.now) (S.memory store.now) }
{
    Err(Trouble::Undefined(over_rule(store, to, from, count)))
}

fn copied_objects<S: Store>(
    store: &mut S,
    may_overlap: bool,
    to: Ptr,
    from: Ptr,
    count: u64,
) -> Result<Done, Trouble>
    requires { 0 < count }
    ensures effect { BlocksEffects result (λ held. known.copied may_overlap (Value.Object to) (Value.Object from) count held) (S.memory store.old) (S.memory store.new) }
    ensures limit { S.limit store.new ≡ S.limit store.old }
{
    if may_overlap {
        return copied_apart(store, to, from, count);
    }
    if overlap(to, from, count) {
        return copied_over(store, to, from, count);
    }
    copied_apart(store, to, from, count)
}

/// A copy of so many bytes.
pub(crate) fn copied<S: Store>(
    store: &mut S,
    may_overlap: bool,
    to: Value,
    from: Value,
    count: u64,
) -> Result<Done, Trouble>
    ensures effect { BlocksEffects result (λ held. known.copying may_overlap to from count held) (S.memory store.old) (S.memory store.new) }
    ensures limit { S.limit store.new ≡ S.limit store.old }
{
    if count == 0 {
        return Ok(Done::Gives(to));
    }
    match (to, from) {
        (Value::Object(to), Value::Object(from)) => copied_objects(
            store,
            may_overlap,
            to,
            from,
            count,
        ),
        (Value::Object(to), Value::Null) => beside_null(store, to),
        (Value::Null, Value::Object(from)) => beside_null(store, from),
        (Value::Null, Value::Null) => Err(Trouble::Undefined(URule::U6)),
        _ => Err(Trouble::Memory),
    }
}

fn copied_by<S: Store>(
    store: &mut S,
    may_overlap: bool,
    to: Value,
    from: Value,
    count: Value,
) -> Result<Done, Trouble>
    ensures effect { BlocksEffects result (known.effect (known.copies may_overlap) (to ∷ from ∷ count ∷ [])) (S.memory store.old) (S.memory store.new) }
    ensures limit { S.limit store.new ≡ S.limit store.old }
{
    let Value::Whole(count) = count else {
        return Err(Trouble::Memory);
    };
    match natural(count) {
        Ok(count) => copied(store, may_overlap, to, from, count),
        Err(_) => Err(Trouble::Memory),
    }
}

fn copying<S: Store>(store: &mut S, may_overlap: bool, args: &[Value]) -> Result<Done, Trouble>
    ensures effect { BlocksEffects result (known.effect (known.copies may_overlap) args.now) (S.memory store.old) (S.memory store.new) }
    ensures limit { S.limit store.new ≡ S.limit store.old }
{
    match args {
        [to, from, count] => copied_by(store, may_overlap, *to, *from, *count),
        _ => Err(Trouble::Memory),
    }
}

fn filled<S: Store>(store: &mut S, to: Value, byte: u8, count: u64) -> Result<Done, Trouble>
    ensures effect { (number : ℤ) → residue number 256 ≡ byte →
        BlocksEffects result (known.filling to number count) (S.memory store.old) (S.memory store.new) }
    ensures limit { S.limit store.new ≡ S.limit store.old }
{
    match to {
        Value::Object(at) => match store.fill(at, byte, count) {
            Ok(()) => Ok(Done::Gives(Value::Object(at))),
            Err(fault) => Err(Trouble::Undefined(rule_of(fault))),
        },
        Value::Null => Err(Trouble::Undefined(URule::U6)),
        Value::Whole(_) => Err(Trouble::Memory),
        Value::Code(_) => Err(Trouble::Memory),
    }
}

fn byte_of(number: &Int) -> u8
    ensures { residue number.now 256 ≡ result }
{
    number.rem_euclid(256) as u8
}

fn filled_by<S: Store>(store: &mut S, to: Value, byte: &Int, count: Value) -> Result<Done, Trouble>
    ensures effect { BlocksEffects result (known.effect known.fills (to ∷ Value.Whole byte.now ∷ count ∷ [])) (S.memory store.old) (S.memory store.new) }
    ensures limit { S.limit store.new ≡ S.limit store.old }
{
    let Value::Whole(count) = count else {
        return Err(Trouble::Memory);
    };
    let count = match natural(count) {
        Ok(count) => count,
        Err(_) => return Err(Trouble::Memory),
    };
    filled(store, to, byte_of(byte), count)
}

fn filled_with<S: Store>(
    store: &mut S,
    to: Value,
    byte: Value,
    count: Value,
) -> Result<Done, Trouble>
    ensures effect { BlocksEffects result (known.effect known.fills (to ∷ byte ∷ count ∷ [])) (S.memory store.old) (S.memory store.new) }
    ensures limit { S.limit store.new ≡ S.limit store.old }
{
    match &byte {
        Value::Whole(number) => filled_by(store, to, number, count),
        Value::Null | Value::Object(_) | Value::Code(_) => Err(Trouble::Memory),
    }
}

// Three arguments.
#[derive(Clone, Copy)]
struct Three {
    first: Value,
    second: Value,
    third: Value,
}

fn three_of(args: &[Value]) -> Option<Three>
    ensures { IfSome result (λ one. args.now ≡ one.first ∷ one.second ∷ one.third ∷ []) }
{
    match args {
        [first, second, third] => Some(Three {
            first: *first,
            second: *second,
            third: *third,
        }),
        _ => None,
    }
}

fn filling<S: Store>(store: &mut S, args: &[Value]) -> Result<Done, Trouble>
    ensures effect { BlocksEffects result (known.effect known.fills args.now) (S.memory store.old) (S.memory store.new) }
    ensures limit { S.limit store.new ≡ S.limit store.old }
{
    match three_of(args) {
        Some(one) => filled_with(store, one.first, one.second, one.third),
        None => Err(Trouble::Memory),
    }
}

fn exiting(args: &[Value]) -> Result<Done, Trouble>
    ensures { (held : Held) → Effects result (known.effect known.exits (args.now) held) held held }
{
    let [status] = args else {
        return Err(Trouble::Memory);
    };
    match *status {
        Value::Whole(status) => Ok(Done::Ends(status)),
        _ => Err(Trouble::Memory),
    }
}

fn aborting(args: &[Value]) -> Result<Done, Trouble>
    ensures { (held : Held) → Effects result (known.effect known.aborts (args.now) held) held held }
{
    match args {
        [] => Ok(Done::Ends(ABORT_STATUS)),
        _ => Err(Trouble::Memory),
    }
}

// The status of a program that is aborted.
const ABORT_STATUS: Int = 134;

/// What a call of a function of the library does.
pub fn effect_of<S: Store>(
    kept: &mut Kept,
    store: &mut S,
    which: Library,
    args: &[Value],
) -> Result<Done, Trouble>
    ensures effect { Effects result (known.effect (library_view which).does (args.now) (held_of kept.old (S.memory store.old)))
        (held_of kept.old (S.memory store.old)) (held_of kept.new (S.memory store.new)) }
    ensures kept { kept.new ≡ record kept.old { heap = kept.new.heap } }
    ensures limit { S.limit store.new ≡ S.limit store.old }
{
    match which {
        Library::Malloc => allocation(false, args),
        Library::Calloc => allocation(true, args),
        Library::Free => freeing(kept, store, args),
        Library::Memcpy => copying(store, false, args),
        Library::Memmove => copying(store, true, args),
        Library::Memset => filling(store, args),
        Library::Exit => exiting(args),
        Library::Abort => aborting(args),
    }
}
