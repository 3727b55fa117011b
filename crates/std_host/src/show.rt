ghost use Rattle.std.specs.Prelude.{◌≡◌, ◌++◌, OnOk, IfOk, Some, if◌then◌else◌};
ghost use Rattle.std_host.specs.Conversions.{bits_of, number_text, shown};
ghost use Rattle.std_host.specs.Printing.{Shows};

use crate::conversion::{Conversion, Length, Style};
use crate::low_byte::low_byte;
use cr_base::{Int, Memory, Scalar, wrap};
use ext_calls::Arg;
use itoa::Buffer;
use std::alloc::Global;

// Adds what a conversion prints of an argument to a text, and answers true; or adds nothing and answers false, where the argument
// isn't of its kind. Refused only for want of memory.
pub(crate) fn show(
    alloc: Global,
    conversion: Conversion,
    arg: &Arg,
    text: &mut Vec<u8>,
) -> Result<bool, Memory>
    ensures { IfOk result (λ fits.
        Shows (shown conversion arg.now) fits text.old.items text.new.items) }
{
    match conversion {
        Conversion::Number { style, length } => show_number(alloc, style, length, arg, text),
        Conversion::Byte => show_byte(arg, text),
        Conversion::Text => show_text(arg, text),
    }
}

fn show_number(
    alloc: Global,
    style: Style,
    length: Length,
    arg: &Arg,
    text: &mut Vec<u8>,
) -> Result<bool, Memory>
    ensures { IfOk result (λ fits.
        Shows (shown (Conversion.Number style length) arg.now) fits text.old.items text.new.items) }
{
    let Arg::Whole { scalar, value } = arg else {
        return Ok(false);
    };
    if !length.is_of(*scalar) {
        return Ok(false);
    }
    push_number(alloc, style, length, *value, text)?;
    Ok(true)
}

fn show_byte(arg: &Arg, text: &mut Vec<u8>) -> Result<bool, Memory>
    ensures { IfOk result (λ fits.
        Shows (shown Conversion.Byte arg.now) fits text.old.items text.new.items) }
{
    let Arg::Whole { scalar, value } = arg else {
        return Ok(false);
    };
    if !Length::Plain.is_of(*scalar) {
        return Ok(false);
    }
    text.push(low_byte(*value))?;
    Ok(true)
}

fn show_text(arg: &Arg, text: &mut Vec<u8>) -> Result<bool, Memory>
    ensures { IfOk result (λ fits.
        Shows (shown Conversion.Text arg.now) fits text.old.items text.new.items) }
{
    match arg {
        Arg::Whole { .. } => Ok(false),
        Arg::Text(more) => {
            text.extend_from_slice(more.bytes())?;
            Ok(true)
        }
    }
}

// Adds a number in one of the three styles.
fn push_number(
    alloc: Global,
    style: Style,
    length: Length,
    value: Int,
    text: &mut Vec<u8>,
) -> Result<(), Memory>
    ensures { OnOk result
        (text.new.items ≡ text.old.items ++ number_text style (bits_of length) value) }
{
    match style {
        Style::Signed => push_signed(length, value, text),
        Style::Unsigned => push_unsigned(length, value, text),
        Style::Hexadecimal => push_hexadecimal(alloc, length, value, text),
    }
}

fn push_signed(length: Length, value: Int, text: &mut Vec<u8>) -> Result<(), Memory>
    ensures { OnOk result (text.new.items
        ≡ text.old.items ++ number_text Style.Signed (bits_of length) value) }
{
    let scalar = Scalar::Whole {
        width: length.bits(),
        signed: true,
    };
    let mut buffer = Buffer::new();
    text.extend_from_slice(buffer.format(wrap(scalar, value)).as_bytes())?;
    Ok(())
}

fn push_unsigned(length: Length, value: Int, text: &mut Vec<u8>) -> Result<(), Memory>
    ensures { OnOk result (text.new.items
        ≡ text.old.items ++ number_text Style.Unsigned (bits_of length) value) }
{
    let mut buffer = Buffer::new();
    text.extend_from_slice(buffer.format(length.residue(value)).as_bytes())?;
    Ok(())
}

fn push_hexadecimal(
    alloc: Global,
    length: Length,
    value: Int,
    text: &mut Vec<u8>,
) -> Result<(), Memory>
    ensures { OnOk result (text.new.items
        ≡ text.old.items ++ number_text Style.Hexadecimal (bits_of length) value) }
{
    let number = length.residue(value);
    let digits = format!(in alloc; "{number:x}")?;
    text.extend_from_slice(digits.as_bytes())?;
    Ok(())
}
