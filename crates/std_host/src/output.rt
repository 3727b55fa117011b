ghost use Rattle.std.specs.Prelude.{◌≡◌, IfOk};
ghost use Rattle.std_host.specs.Output.{out_of, output_of};
ghost use Rattle.std_host.specs.Printing.{Shows};

use crate::effect::{Effect, effect_of};
use cr_base::{Items, Memory};
use ext_calls::Call;
use std::alloc::Global;

/// The bytes that `putchar`, `puts`, `getchar` and `printf` write for these calls, one behind the other, or None where a call isn't one of
/// the four or its arguments don't fit. Refused only for want of memory.
pub fn out_of(alloc: Global, calls: &[Call]) -> Result<Option<Items<u8>>, Memory>
    ensures { IfOk result (λ written. written ≡ out_of calls.now) }
{
    let mut written = Items::new(alloc);
    for call in calls {
        if !add_output(alloc, call, &mut written)? {
            return Ok(None);
        }
    }
    Ok(Some(written))
}

// Adds what a call writes to a text, and answers true; or adds nothing and answers false, where the host doesn't take the call.
fn add_output(alloc: Global, call: &Call, text: &mut Items<u8>) -> Result<bool, Memory>
    ensures { IfOk result (λ is_taken. Shows (output_of call.now) is_taken text.old text.new) }
{
    match effect_of(alloc, call)? {
        None => Ok(false),
        Some(Effect::WritesByte(byte)) => {
            text.push(byte)?;
            Ok(true)
        }
        Some(Effect::WritesText(more)) => {
            text.append(more)?;
            Ok(true)
        }
        Some(Effect::Reads) => Ok(true),
    }
}
