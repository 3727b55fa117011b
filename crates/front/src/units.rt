//! The program of the units of a job, or the first rule that they break.

ghost use Rattle.std.specs.Prelude.{◌≡◌, ◌<◌, ◌≤◌, length, IfOk, IfErr, None};
ghost use Rattle.straight_core.specs.Trees.{CProgram};
ghost use Rattle.straight_core.specs.Views.{view_program};
ghost use Rattle.straight_rust_tree.specs.Text.{file_of};
ghost use Rattle.front.specs.Refusals.{IsBuiltAs, not_built};
ghost use Rattle.front.specs.Sources.{IsBuiltOf, StopsJob};
ghost use Rattle.front.specs.Steps.{HasProgram, BuildsAs, StopsAs};
ghost use Rattle.cx_lex.specs.Tokens.{token_fault};
ghost use Rattle.cx_units.specs.Broken.{most_bytes};
ghost use Rattle.cr_base.specs.declared.refusal.Stop.TheVariants as stop;

use crate::kept::keeps_names;
use cr_base::{Items, Refusal, Rule, Stop};
use cx_lex::{Token, lex};
use cx_units::{Source, check_units};
use std::alloc::Global;
use straight_core::Program;
use straight_decl::program_of;
use straight_items::{is_plain, stem_of};
use straight_parse::parse;

// The refusal of what isn't built yet.
fn not_built() -> Stop
    ensures { result ≡ stop.Refused not_built }
{
    Stop::Refused(Refusal {
        rule: Rule::N1,
        unit: 0,
        line: 1,
    })
}

// The program of a unit's tokens.
fn typed(alloc: Global, tokens: &[Token]) -> Result<Program, Stop>
    ensures found { IfOk result (λ program. HasProgram tokens.now (view_program program)) }
    ensures stopped { IfErr result (StopsAs (HasProgram tokens.now)) }
    ensures only { (other : CProgram) → HasProgram tokens.now other → IfOk result (λ program. view_program program ≡ other) }
{
    let tree = parse(alloc, tokens, 0)?;
    program_of(alloc, &tree, 0)
}

// The program of the tokens of a file, where it is translated today.
fn built(alloc: Global, file: &str, tokens: &[Token]) -> Result<Program, Stop>
    ensures found { IfOk result (λ program. BuildsAs file.now tokens.now (view_program program)) }
    ensures stopped { IfErr result (StopsAs (BuildsAs file.now tokens.now)) }
{
    let program = typed(alloc, tokens)?;
    if !is_plain(stem_of(file)) {
        return Err(not_built());
    }
    if !keeps_names(&program) {
        return Err(not_built());
    }
    Ok(program)
}

// The program of a unit that breaks no rule, where it is translated today.
fn program_of_unit(alloc: Global, file: &str, bytes: &[u8]) -> Result<Program, Stop>
    requires small { length bytes.now ≤ most_bytes }
    requires spelled { token_fault bytes.now ≡ None }
    ensures found { IfOk result (λ program. IsBuiltAs (file_of file.now bytes.now) (view_program program)) }
    ensures stopped { IfErr result (StopsAs (IsBuiltAs (file_of file.now bytes.now))) }
{
    let tokens = lex(alloc, bytes, 0)?;
    built(alloc, file, tokens.as_slice())
}

// The program of the units of which this was got, the first of them under a name, or the first rule that they break.
fn program_of_units(alloc: Global, first: &str, sources: &[Source]) -> Result<Program, Stop>
    requires { 0 < length sources.now }
    ensures built { IfOk result (λ program. IsBuiltOf first.now sources.now (view_program program)) }
    ensures stopped { IfErr result (StopsJob first.now sources.now) }
{
    check_units(alloc, sources)?;
    if sources.len() > 1 {
        return Err(not_built());
    }
    match &sources[0] {
        Source::Bytes(bytes) => program_of_unit(alloc, first, bytes.as_slice()),
        Source::TooLarge => Err(not_built()),
    }
}

/// The program of the units of which this was got, the first of them under a name, or the first rule that they break. What was got is
/// used up.
pub(crate) fn program_of_sources(
    alloc: Global,
    first: &str,
    sources: Items<Source>,
) -> Result<Program, Stop>
    requires { 0 < length sources }
    ensures built { IfOk result (λ program. IsBuiltOf first.now sources (view_program program)) }
    ensures stopped { IfErr result (StopsJob first.now sources) }
{
    program_of_units(alloc, first, sources.as_slice())
}
