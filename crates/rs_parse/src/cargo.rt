//! `Cargo.toml`.

ghost use Rattle.std.specs.Prelude.{◌≡◌, ◌≤◌, ◌+◌, [], length, drop, map, option_map, IfOk, IsTrue};
ghost use Rattle.std.specs.List.{list_all};
ghost use Rattle.std.specs.Option.{is_none};
ghost use Rattle.rs_parse.specs.Cargo as cargo;
ghost use Rattle.rs_text.specs.Reads.{lines_in, spells, spells_as, spells_cargo, spells_lines};

use cr_base::Memory;
use rs_lex::{LexFault, lex, same_tokens};
use rs_tree::{Line, cargo_lines};
use std::alloc::Global;

// How many bytes stand before the first newline.
fn line_size(text: &[u8]) -> usize
    ensures value { result ≡ cargo.line_size text.now }
    ensures within { result ≤ length text.now }
{
    text.iter().take_while(|byte| **byte != b'\n').count()
}

// What stands behind a line of this size and its newline.
fn behind(text: &[u8], size: usize) -> &[u8]
    requires { size ≤ length text.now }
    ensures { result.now ≡ drop (size + 1) text.now }
{
    if size < text.len() {
        &text[size + 1..]
    } else {
        &[]
    }
}

// Whether a text and a printed line have the same tokens.
fn is_line(alloc: Global, text: &[u8], line: &Line) -> Result<bool, Memory>
    requires { IsTrue (cargo.is_still_line line.now) }
    ensures { IfOk result (λ is. is ≡ spells_as text.now line.now.text) }
{
    let tokens = match lex(alloc, text) {
        Err(LexFault::Memory) => return Err(Memory),
        Err(LexFault::NotTokens { .. }) => return Ok(false),
        Ok(tokens) => tokens,
    };
    match lex(alloc, line.text.bytes()) {
        Err(LexFault::Memory) => Err(Memory),
        Err(LexFault::NotTokens { .. }) => Ok(false),
        Ok(printed) => Ok(same_tokens(tokens.as_slice(), printed.as_slice())),
    }
}

// Whether a text has no tokens, and spells that.
fn is_empty(alloc: Global, text: &[u8]) -> Result<bool, Memory>
    ensures { IfOk result (λ is. is ≡ spells text.now []) }
{
    match lex(alloc, text) {
        Err(LexFault::Memory) => Err(Memory),
        Err(LexFault::NotTokens { .. }) => Ok(false),
        Ok(tokens) => Ok(tokens.is_empty()),
    }
}

// The printed lines that are left behind a line of a text, if it is the next one or has no tokens.
fn left_behind<'l>(
    alloc: Global,
    text: &[u8],
    lines: &'l [Line],
) -> Result<Option<&'l [Line]>, Memory>
    requires { IsTrue (list_all cargo.is_still_line lines.now) }
    ensures { IfOk result (λ left. option_map (λ lines. lines.now) left ≡ cargo.left_behind text.now lines.now) }
{
    if is_empty(alloc, text)? {
        return Ok(Some(lines));
    }
    let [line, others @ ..] = lines else {
        return Ok(None);
    };
    if is_line(alloc, text, line)? {
        return Ok(Some(others));
    }
    Ok(None)
}

// The line of a text that is another than the next printed one, or the last line where printed ones are
// missing, or None where the lines of the text, empty ones aside, are the printed ones.
fn other_line(alloc: Global, text: &[u8], lines: &[Line]) -> Result<Option<u32>, Memory>
    requires { IsTrue (list_all cargo.is_still_line lines.now) }
    ensures { IfOk result (λ line. is_none line ≡ spells_lines (lines_in text.now) (map (λ line. line.text) lines.now)) }
{
    let mut left = lines;
    let mut rest = text;
    let mut line: u32 = 1;
    while !rest.is_empty() {
        let size = line_size(rest);
        let Some(next) = left_behind(alloc, &rest[..size], left)? else {
            return Ok(Some(line));
        };
        left = next;
        rest = behind(rest, size);
        line = line.saturating_add(1);
    }
    Ok(if left.is_empty() { None } else { Some(line) })
}

/// The line of the first token that isn't one of `Cargo.toml`, or None where the text is that of it.
#[tactic(auto, using(crate::proofs::CargoLaws::cargo_still))]
pub(crate) fn other_cargo_line(alloc: Global, text: &[u8]) -> Result<Option<u32>, Memory>
    ensures { IfOk result (λ line. is_none line ≡ spells_cargo text.now) }
{
    let lines = cargo_lines(alloc)?;
    let line = other_line(alloc, text, lines.as_slice())?;
    Ok(line)
}
