ghost use Rattle.std.specs.Prelude.{◌≡◌, [], ◌∷◌, ◌++◌, IfOk, IsErr};
ghost use Rattle.std_host.specs.Effects.{effect_of, function_named, putchar_effect, puts_effect, getchar_effect, printf_effect, NeedsMemory};

use crate::function::Function;
use crate::low_byte::low_byte;
use crate::printing::formatted;
use cr_base::{Items, Memory, Name};
use ext_calls::{Arg, Call};
use std::alloc::Global;

/// What a call does that the standard host takes.
#[derive(Drop)]
pub enum Effect {
    /// One byte is written, and is the answer.
    WritesByte(u8),
    /// These bytes are written, and their count is the answer.
    WritesText(Items<u8>),
    /// One byte is read, and is the answer; -1 at the end of the input.
    Reads,
}

/// What a call does, or None where its name isn't one of the four or its arguments don't fit. Refused only for want of memory, and
/// only where a text is made: for `puts` and `printf`.
pub fn effect_of(alloc: Global, call: &Call) -> Result<Option<Effect>, Memory>
    ensures value { IfOk result (λ effect. effect ≡ effect_of call.now) }
    ensures sparing { IsErr result → NeedsMemory (function_named call.now.name) }
{
    let args = call.args.as_slice();
    match Function::named(call.name.bytes()) {
        None => Ok(None),
        Some(Function::Putchar) => Ok(putchar_effect(args)),
        Some(Function::Puts) => puts_effect(alloc, args),
        Some(Function::Getchar) => Ok(getchar_effect(args)),
        Some(Function::Printf) => printf_effect(alloc, args),
    }
}

fn putchar_effect(args: &[Arg]) -> Option<Effect>
    ensures { result ≡ putchar_effect args.now }
{
    match args {
        [Arg::Whole { value, .. }] => Some(Effect::WritesByte(low_byte(*value))),
        _ => None,
    }
}

fn puts_effect(alloc: Global, args: &[Arg]) -> Result<Option<Effect>, Memory>
    ensures { IfOk result (λ effect. effect ≡ puts_effect args.now) }
{
    match args {
        [Arg::Text(text)] => Ok(Some(Effect::WritesText(line_of(alloc, text)?))),
        _ => Ok(None),
    }
}

fn getchar_effect(args: &[Arg]) -> Option<Effect>
    ensures { result ≡ getchar_effect args.now }
{
    if args.is_empty() {
        Some(Effect::Reads)
    } else {
        None
    }
}

fn printf_effect(alloc: Global, args: &[Arg]) -> Result<Option<Effect>, Memory>
    ensures { IfOk result (λ effect. effect ≡ printf_effect args.now) }
{
    match args {
        [Arg::Text(format), args @ ..] => {
            let text = formatted(alloc, format.bytes(), args)?;
            Ok(text.map(Effect::WritesText))
        }
        _ => Ok(None),
    }
}

// A text and a newline.
fn line_of(alloc: Global, text: &Name) -> Result<Items<u8>, Memory>
    ensures { IfOk result (λ line. line ≡ text.now ++ 10 ∷ []) }
{
    let mut line = Items::from_slice(alloc, text.bytes())?;
    line.push(b'\n')?;
    Ok(line)
}
