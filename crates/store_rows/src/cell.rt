//! Places, values and cells of memory as words, and as what is written of them. A place is `BLOCK+OFFSET`; a
//! value is a number, `null`, a place for a pointer to an object, or `fN` for one to the function N; a cell is
//! a byte of which all bits are set, `unset`, `BITS/SET` where only the bits of SET are set, or
//! `POINTER.INDEX` for the byte of a stored pointer.

ghost use Rattle.std.specs.Prelude.{◌≡◌, IfSome};
ghost use Rattle.cr_base.specs.Scalar.{IsInteger};
ghost use Rattle.mem_bytes.specs.Calls.{IsCell, IsPointer};
ghost use Rattle.mem_bytes.specs.Coding.{IsScalar, IsValueOf};

use cr_base::{Scalar, fits};
use mem_bytes::{Cell, Ptr, Value};
use row_words::{Answer, Asked};

const UNSET: Cell = Cell::Bits { value: 0, set: 0 };

/// The next word as a place.
pub(crate) fn place(asked: &mut Asked) -> Ptr {
    let found = place_of(asked.word());
    asked.found(
        found,
        Ptr {
            block: 0,
            offset: 0,
        },
    )
}

fn place_of(word: &str) -> Option<Ptr> {
    let (block, offset) = word.split_once('+')?;
    Some(Ptr {
        block: block.parse().ok()?,
        offset: offset.parse().ok()?,
    })
}

/// The next word as a value of this type.
pub(crate) fn value(asked: &mut Asked, scalar: Scalar) -> Value
    requires { IsScalar scalar }
    ensures { IsValueOf scalar result }
{
    match scalar {
        Scalar::Object => object(asked),
        Scalar::Code => code(asked),
        Scalar::Truth | Scalar::Whole { .. } => number(asked, scalar),
    }
}

fn number(asked: &mut Asked, scalar: Scalar) -> Value
    requires { IsInteger scalar }
    ensures { IsValueOf scalar result }
{
    let number = asked.number();
    if fits(scalar, number) {
        Value::Whole(number)
    } else {
        asked.refuse();
        Value::Whole(0)
    }
}

fn object(asked: &mut Asked) -> Value
    ensures { IsValueOf Scalar.Object result }
{
    let word = asked.word();
    match place_of(word) {
        Some(at) => Value::Object(at),
        None => null(asked, word),
    }
}

fn code(asked: &mut Asked) -> Value
    ensures { IsValueOf Scalar.Code result }
{
    let word = asked.word();
    match function_of(word) {
        Some(function) => Value::Code(function),
        None => null(asked, word),
    }
}

// The number of a function.
fn function_of(word: &str) -> Option<u32> {
    word.strip_prefix('f')?.parse().ok()
}

fn null(asked: &mut Asked, word: &str) -> Value
    ensures { result ≡ Value.Null }
{
    if word != "null" {
        asked.refuse();
    }
    Value::Null
}

/// The next word as a cell.
pub(crate) fn cell(asked: &mut Asked) -> Cell
    ensures { IsCell result }
{
    let found = cell_of(asked.word());
    asked.found(found, UNSET)
}

fn cell_of(word: &str) -> Option<Cell>
    ensures { IfSome result IsCell }
{
    if word == "unset" {
        return Some(UNSET);
    }
    if let Some((pointer, index)) = word.split_once('.') {
        return pointer_byte(pointer, index);
    }
    let (value, set) = word.split_once('/').unwrap_or((word, "255"));
    Some(Cell::Bits {
        value: value.parse().ok()?,
        set: set.parse().ok()?,
    })
}

fn pointer_byte(pointer: &str, index: &str) -> Option<Cell>
    ensures { IfSome result IsCell }
{
    let of = pointer_of(pointer)?;
    let index = index.parse().ok()?;
    if index < 8 {
        Some(Cell::PtrByte { of, index })
    } else {
        None
    }
}

fn pointer_of(word: &str) -> Option<Value>
    ensures { IfSome result IsPointer }
{
    match function_of(word) {
        Some(function) => Some(Value::Code(function)),
        None => Some(Value::Object(place_of(word)?)),
    }
}

/// Writes a value.
pub(crate) fn write_value(value: Value, out: &mut Answer) {
    match value {
        Value::Whole(number) => out.value(number),
        Value::Null => out.text("null"),
        Value::Object(at) => {
            out.value(at.block);
            out.text("+");
            out.value(at.offset);
        }
        Value::Code(function) => {
            out.text("f");
            out.value(function);
        }
    }
}

/// Writes a cell.
pub(crate) fn write_cell(cell: Cell, out: &mut Answer) {
    match cell {
        Cell::Bits { set: 0, .. } => out.text("unset"),
        Cell::Bits { value, set: 255 } => out.value(value),
        Cell::Bits { value, set } => {
            out.value(value);
            out.text("/");
            out.value(set);
        }
        Cell::PtrByte { of, index } => {
            write_value(of, out);
            out.text(".");
            out.value(index);
        }
    }
}
