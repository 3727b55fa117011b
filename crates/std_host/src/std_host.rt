ghost use Rattle.std.specs.Prelude.{◌≡◌, ◌≢◌, ◌≤◌, pos, IfOk, OnOk, OnErr, false, None};
ghost use Rattle.cr_base.specs.Count.{Rose};
ghost use Rattle.std_host.specs.Effects.{effect_of, is_taken, function_named, NeedsMemory, count_of};
ghost use Rattle.ext_calls.specs.Host.{IsDeclined};
ghost use Rattle.std_host.specs.StdHost.{state_of, IsAnswered, HasWritten, HasRead};

use crate::effect::{Effect, effect_of};
use ext_calls::{Call, Host, HostFault};
use shelf::{Failed, Sink, Source, SureSink, SureSource, write_all};
use std::alloc::Global;
use std::marker::Model;

/// The host of a program that uses the standard streams: it reads a source and writes a sink.
///
/// It takes exactly the calls of these four functions whose arguments fit:
///
/// | name | effect | answer |
/// |---|---|---|
/// | `putchar` | writes the argument modulo 256 as one byte | that byte, 0 to 255 |
/// | `puts` | writes the text and a newline | the count of bytes written |
/// | `getchar` | reads one byte | 0 to 255, or -1 at the end |
/// | `printf` | writes the format with its conversions replaced | the count of bytes written |
///
/// `putchar` fits one number, `puts` one text, and `getchar` no argument. `printf` takes a text, and then an argument for each
/// conversion: one of 32 bits for `%d`, `%i`, `%u`, `%x` and `%c`, one of 64 for `%ld`, `%lu` and `%lx`, of either sign, and a text for
/// `%s`; `%%` takes none. Another conversion, and an argument that is missing, of another kind or left over, don't fit.
///
/// The text of `puts` and `printf` is made whole before it is written. Nothing is kept back: what a call has written is in the sink
/// when it is answered. It tells neither the calls made nor the answers to come. Contracts see the source and the sink.
#[derive(Drop)]
pub struct StdHost<R, S> {
    alloc: Global,
    input: R,
    output: S,
}

impl<R, S> Model for StdHost<R, S> {
    ghost use Rattle.ext_calls.specs.Host.{IsDeclined};
    ghost use Rattle.std_host.specs.StdHost.{StdHostView};

    ghost Value = { StdHostView R S };

    ghost view = { λ host. record { input = host.input; output = host.output } };
}

impl<R: Source, S: Sink> StdHost<R, S> {
    /// A host over this source and this sink. The texts that it writes are made with this allocator.
    pub fn new(alloc: Global, input: R, output: S) -> StdHost<R, S>
        ensures { result ≡ record { input = input; output = output } }
    {
        StdHost {
            alloc,
            input,
            output,
        }
    }

    /// The source, to look at.
    pub fn input(&self) -> &R
        ensures { result.now ≡ self.now.input }
    {
        &self.input
    }

    /// The sink, to look at.
    pub fn output(&self) -> &S
        ensures { result.now ≡ self.now.output }
    {
        &self.output
    }
}

impl<R: Source, S: Sink> Host for StdHost<R, S> {
    ghost state = { state_of R.state S.state };

    fn answer(&mut self, call: &Call) -> Result<i64, HostFault>
        ensures answered { IsAnswered R.state S.state (effect_of call.now) self.old self.new result }
        ensures failed { result ≡ Err HostFault.Failed → Rose (state_of R.state S.state self.old).faults (state_of R.state S.state self.new).faults }
        ensures declined { is_taken call.now ≡ false → IsDeclined result }
        ensures sparing { result ≡ Err HostFault.Memory → NeedsMemory (function_named call.now.name) }
        ensures later { (state_of R.state S.state self.old).faults ≤ (state_of R.state S.state self.new).faults }
        ensures still { OnOk result ((state_of R.state S.state self.new).faults ≡ (state_of R.state S.state self.old).faults) }
    {
        match effect_of(self.alloc, call)? {
            None => Err(HostFault::Refused),
            Some(Effect::WritesByte(byte)) => self.write(&[byte], i64::from(byte)),
            Some(Effect::WritesText(text)) => self.write_text(text.as_slice()),
            Some(Effect::Reads) => self.read(),
        }
    }
}

impl<R: Source, S: Sink> StdHost<R, S> {
    // Writes these bytes, and gives this answer.
    fn write(&mut self, bytes: &[u8], answer: i64) -> Result<i64, HostFault>
        ensures written { HasWritten bytes.now answer (S.state self.old.output) (S.state self.new.output) result }
        ensures input { self.new.input ≡ self.old.input }
        ensures later { (S.state self.old.output).faults ≤ (S.state self.new.output).faults }
        ensures still { OnOk result ((S.state self.new.output).faults ≡ (S.state self.old.output).faults) }
        ensures sparing { result ≢ Err HostFault.Memory }
    {
        match write_all(&mut self.output, bytes) {
            Ok(()) => Ok(answer),
            Err(Failed) => Err(HostFault::Failed),
        }
    }

    // Writes a text, and answers the count of its bytes.
    fn write_text(&mut self, text: &[u8]) -> Result<i64, HostFault>
        ensures written { HasWritten text.now (count_of text.now) (S.state self.old.output) (S.state self.new.output) result }
        ensures input { self.new.input ≡ self.old.input }
        ensures later { (S.state self.old.output).faults ≤ (S.state self.new.output).faults }
        ensures still { OnOk result ((S.state self.new.output).faults ≡ (S.state self.old.output).faults) }
    {
        self.write(text, text.len() as i64)
    }

    // Reads one byte, and answers it, or -1 at the end.
    fn read(&mut self) -> Result<i64, HostFault>
        ensures read { HasRead (R.state self.old.input) (R.state self.new.input) result }
        ensures output { self.new.output ≡ self.old.output }
        ensures later { (R.state self.old.input).faults ≤ (R.state self.new.input).faults }
        ensures still { OnOk result ((R.state self.new.input).faults ≡ (R.state self.old.input).faults) }
    {
        match self.input.read() {
            Ok(Some(byte)) => Ok(i64::from(byte)),
            Ok(None) => Ok(-1),
            Err(Failed) => Err(HostFault::Failed),
        }
    }
}

/// The answer of a host over a source and a sink that never fail: only memory may be wanting, or the call isn't taken.
pub fn answer_surely(
    host: &mut StdHost<SureSource, SureSink>,
    call: &Call,
) -> Result<i64, HostFault>
    ensures never_failed { result ≢ Err HostFault.Failed }
    ensures answered { IsAnswered ⟦<SureSource as Source>⟧.state ⟦<SureSink as Sink>⟧.state
        (effect_of call.now) host.old host.new result }
{
    host.answer(call)
}
