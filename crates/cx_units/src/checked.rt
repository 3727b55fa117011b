//! The typed units of bytes, or the first rule that they break.

ghost use Rattle.std.specs.Prelude.{◌≡◌, ℕ, ◌<◌, List, map, length, All, IfOk, IfErr};
ghost use Rattle.cr_base.specs.declared.refusal.Stop.TheVariants as stop;
ghost use Rattle.cr_base.specs.declared.rule.Rule.TheVariants.{M1};
ghost use Rattle.cx_core.specs.Views.{view_unit};
ghost use Rattle.cx_units.specs.Broken.{AreTyped, AreUnbroken, IsTypedAs};
ghost use Rattle.cx_units.specs.Sources.{AreOf, AreSpelled, IsGot, IsOf, StopsUnit, StopsUnits, stopped_in};

use crate::source::Source;
use cr_base::{Items, Memory, Refusal, Rule, Stop};
use cx_core::CoreUnit;
use cx_decl::check_unit;
use cx_lex::{Token, lex};
use cx_link::broken_links;
use cx_parse::parse;
use std::alloc::Global;

/// The most bytes of a unit.
pub const MOST_BYTES: usize = 1_048_576;

// That a unit is too large, which is told with line 1.
fn too_large(unit: u32) -> Stop
    ensures { result ≡ stop.Refused (record { rule = M1; unit = unit; line = 1 }) }
{
    Stop::Refused(Refusal {
        rule: Rule::M1,
        unit,
        line: 1,
    })
}

// The same refusal, of the unit with this number.
fn in_unit(stop: Stop, unit: u32) -> Stop
    ensures { result ≡ stopped_in unit stop }
{
    match stop {
        Stop::Refused(Refusal { rule, line, .. }) => Stop::Refused(Refusal { rule, unit, line }),
        Stop::Memory => Stop::Memory,
    }
}

// The typed unit of tokens.
fn typed(alloc: Global, tokens: &[Token], unit: u32) -> Result<CoreUnit, Stop>
    ensures typed { IfOk result (λ core. (bytes : List ℕ) → AreSpelled tokens.now bytes → IsTypedAs unit bytes (view_unit core)) }
    ensures refused { IfErr result (λ why. StopsUnit unit (AreSpelled tokens.now) why) }
{
    let tree = parse(alloc, tokens, unit)?;
    match check_unit(alloc, &tree, unit) {
        Ok(core) => Ok(core),
        Err(why) => Err(in_unit(why, unit)),
    }
}

// The typed unit of bytes.
fn typed_bytes(alloc: Global, bytes: &[u8], unit: u32) -> Result<CoreUnit, Stop>
    ensures typed { IfOk result (λ core. IsTypedAs unit bytes.now (view_unit core)) }
    ensures got { IfOk result (λ core. All (λ byte. byte < 256) bytes.now) }
    ensures refused { IfErr result (λ why. StopsUnit unit (λ given. bytes.now ≡ given) why) }
{
    if bytes.len() > MOST_BYTES {
        return Err(too_large(unit));
    }
    let tokens = lex(alloc, bytes, unit)?;
    typed(alloc, tokens.as_slice(), unit)
}

fn typed_source(alloc: Global, source: &Source, unit: u32) -> Result<CoreUnit, Stop>
    ensures typed { IfOk result (λ core. (bytes : List ℕ) → IsOf source.now bytes → IsTypedAs unit bytes (view_unit core)) }
    ensures got { IfOk result (λ core. IsGot source.now) }
    ensures refused { IfErr result (λ why. StopsUnit unit (IsOf source.now) why) }
{
    match source {
        Source::Bytes(bytes) => typed_bytes(alloc, bytes.as_slice(), unit),
        Source::TooLarge => Err(too_large(unit)),
    }
}

// The number of a unit; a list of units that is longer has no place in memory.
fn number_of(place: usize) -> Result<u32, Memory>
    ensures { IfOk result (λ number. number ≡ place) }
{
    match u32::try_from(place) {
        Ok(number) => Ok(number),
        Err(_) => Err(Memory),
    }
}

// The typed units of all, each by itself.
fn all_typed(alloc: Global, sources: &[Source]) -> Result<Items<CoreUnit>, Stop>
    ensures typed { IfOk result (λ cores. (units : List (List ℕ)) → AreOf sources.now units → AreTyped 0 units (map view_unit cores)) }
    ensures count { IfOk result (λ cores. length cores ≡ length sources.now) }
    ensures got { IfOk result (λ cores. All IsGot sources.now) }
    ensures refused { IfErr result (λ why. StopsUnits sources.now why) }
{
    let mut cores = Items::new(alloc);
    for place in 0..sources.len() {
        let core = typed_source(alloc, &sources[place], number_of(place)?)?;
        cores.push(core)?;
    }
    Ok(cores)
}

/// The typed units of bytes, which break no rule; or the first rule that they break, in the unit with its number (ISO C99, 5.1.1.1 to
/// 6.9). Refused besides only for want of memory.
pub fn check_units(alloc: Global, sources: &[Source]) -> Result<Items<CoreUnit>, Stop>
    requires some { 0 < length sources.now }
    ensures unbroken { IfOk result (λ cores. (units : List (List ℕ)) → AreOf sources.now units → AreUnbroken units (map view_unit cores)) }
    ensures got { IfOk result (λ cores. All IsGot sources.now) }
    ensures refused { IfErr result (λ why. StopsUnits sources.now why) }
{
    let cores = all_typed(alloc, sources)?;
    match broken_links(alloc, cores.as_slice())? {
        Some(refusal) => Err(Stop::Refused(refusal)),
        None => Ok(cores),
    }
}
