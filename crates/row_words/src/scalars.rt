//! The types of C as words: `bool` is `_Bool`, `int8` to `uint64` are the other integer types by their widths,
//! `object` is a pointer to an object, and `code` one to a function.

ghost use Rattle.std.specs.Prelude.{IfSome};
ghost use Rattle.cr_base.specs.Scalar.{IsInteger, IsWhole};
ghost use Rattle.mem_bytes.specs.Coding.{IsScalar};

use crate::answer::Answer;
use crate::asked::Asked;
use cr_base::Scalar;

const BYTE: Scalar = Scalar::Whole {
    width: 8,
    signed: false,
};

/// The next word as a scalar type.
pub fn scalar(asked: &mut Asked) -> Scalar
    ensures { IsScalar result }
{
    let found = scalar_of(asked.word());
    asked.found(found, Scalar::Truth)
}

/// The next word as an integer type.
pub fn integer(asked: &mut Asked) -> Scalar
    ensures { IsInteger result }
{
    let found = integer_of(asked.word());
    asked.found(found, Scalar::Truth)
}

/// The next word as an integer type other than `_Bool`.
pub fn whole(asked: &mut Asked) -> Scalar
    ensures { IsWhole result }
{
    let found = whole_of(asked.word());
    asked.found(found, BYTE)
}

/// The scalar type of a word.
pub fn scalar_of(word: &str) -> Option<Scalar>
    ensures { IfSome result IsScalar }
{
    match word {
        "object" => Some(Scalar::Object),
        "code" => Some(Scalar::Code),
        _ => integer_of(word),
    }
}

fn integer_of(word: &str) -> Option<Scalar>
    ensures { IfSome result IsInteger }
{
    match word {
        "bool" => Some(Scalar::Truth),
        _ => whole_of(word),
    }
}

fn whole_of(word: &str) -> Option<Scalar>
    ensures { IfSome result IsWhole }
{
    match word.strip_prefix('u') {
        Some(word) => whole_with(word, false),
        None => whole_with(word, true),
    }
}

fn whole_with(word: &str, signed: bool) -> Option<Scalar>
    ensures { IfSome result IsWhole }
{
    let width = word.strip_prefix("int")?.parse().ok()?;
    if matches!(width, 8 | 16 | 32 | 64) {
        Some(Scalar::Whole { width, signed })
    } else {
        None
    }
}

/// Writes a type as its word.
pub fn write_scalar(scalar: Scalar, out: &mut Answer) {
    match scalar {
        Scalar::Truth => out.text("bool"),
        Scalar::Whole { width, signed } => {
            out.text(if signed { "int" } else { "uint" });
            out.value(width);
        }
        Scalar::Object => out.text("object"),
        Scalar::Code => out.text("code"),
    }
}
