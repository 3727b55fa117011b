//! Reading of a module's text.

ghost use Rattle.std.specs.Prelude.{◌≡◌, IfOk, IsTrue};
ghost use Rattle.std.specs.Option.{is_none};
ghost use Rattle.rs_lex.specs.Views.{tokens_view};
ghost use Rattle.rs_parse.specs.Module.{IsRead, tokens_of, are_theirs};
ghost use Rattle.rs_text.specs.Valid.{valid_items};
ghost use Rattle.rs_tree.specs.Views.{module_view};

use crate::fault::ReadFault;
use cr_base::{Items, Memory, Name};
use rs_item::items_of;
use rs_lex::{LexFault, Token, TokenKind, first_other_line, lex, same_tokens};
use rs_print::bytes_of;
use rs_tree::{Item, Module, module_lines};
use rs_valid::{are_valid_items, valid_front};
use std::alloc::Global;

/// The items of the module whose text it is. `NotRust` says that it is the text of no module.
#[tactic(auto, using(crate::proofs::ModuleRead::found, crate::proofs::ModuleRead::refused, crate::proofs::ModuleRead::no_tokens))]
pub fn read_items(alloc: Global, text: &[u8]) -> Result<Items<Item>, ReadFault>
    ensures { IsRead text.now result }
{
    let tokens = match lex(alloc, text) {
        Err(LexFault::Memory) => return Err(ReadFault::Memory),
        Err(LexFault::NotTokens { line }) => return Err(ReadFault::NotRust { file: 0, line }),
        Ok(tokens) => tokens,
    };
    let items = items_of(alloc, tokens.as_slice())?;
    let module = Module {
        name: Name::of(Vec::new(alloc)),
        items,
    };
    match other_line(alloc, tokens.as_slice(), &module)? {
        None => Ok(module.items),
        Some(line) => Err(ReadFault::NotRust { file: 0, line }),
    }
}

// The tokens behind the first of an item that begins with them: behind a semicolon for a static object, and
// otherwise behind the brace that closes the first one.
fn behind_item<'t>(tokens: &'t [Token], item: &Item) -> &'t [Token] {
    let last = match item {
        Item::Static(_) => b";".as_slice(),
        _ => b"}".as_slice(),
    };
    let mut depth: u32 = 0;
    for index in 0..tokens.len() {
        if let TokenKind::Mark(mark) = &tokens[index].kind {
            depth = depth_behind(depth, mark.bytes());
            if depth == 0 && mark.bytes() == last {
                return &tokens[index + 1..];
            }
        }
    }
    &[]
}

// How many brackets are open behind a mark.
fn depth_behind(depth: u32, mark: &[u8]) -> u32 {
    match mark {
        b"{" | b"[" | b"(" => depth.saturating_add(1),
        b"}" | b"]" | b")" => depth.saturating_sub(1),
        _ => depth,
    }
}

// The line of the first item that isn't valid in its place, of items of these tokens, or the last line where
// all are.
fn invalid_line(tokens: &[Token], items: &[Item]) -> u32 {
    let mut rest = tokens;
    for index in 0..valid_front(items) {
        if index < items.len() {
            rest = behind_item(rest, &items[index]);
        }
    }
    match (rest.first(), tokens.last()) {
        (Some(token), _) | (None, Some(token)) => token.line,
        (None, None) => 1,
    }
}

// The line of the first token that isn't one of items that aren't those of a module, or the line of the first
// item that isn't valid in its place where all tokens are theirs.
fn wrong_line(alloc: Global, tokens: &[Token], module: &Module) -> Result<u32, Memory> {
    let lines = module_lines(alloc, module)?;
    let text = bytes_of(alloc, lines.as_slice())?;
    match lex(alloc, text.as_slice()) {
        Err(LexFault::Memory) => Err(Memory),
        Ok(printed) if !same_tokens(tokens, printed.as_slice()) => {
            Ok(first_other_line(tokens, printed.as_slice()))
        }
        _ => Ok(invalid_line(tokens, module.items.as_slice())),
    }
}

// The line of the first token that isn't the module's, or None where the module is valid and all
// tokens are its.
fn other_line(alloc: Global, tokens: &[Token], module: &Module) -> Result<Option<u32>, Memory>
    ensures { IfOk result (λ line. is_none line ≡ are_theirs (tokens_view tokens.now) (module_view «module».now).items) }
{
    if !are_valid_items(module.items.as_slice()) {
        let line = wrong_line(alloc, tokens, module)?;
        return Ok(Some(line));
    }
    let printed = printed_tokens(alloc, module)?;
    if same_tokens(tokens, printed.as_slice()) {
        return Ok(None);
    }
    Ok(Some(first_other_line(tokens, printed.as_slice())))
}

// The tokens of a module's own text.
#[tactic(auto, using(crate::proofs::ModuleRead::printed_closed))]
fn printed_tokens(alloc: Global, module: &Module) -> Result<Items<Token>, Memory>
    requires { IsTrue (valid_items (module_view «module».now).items) }
    ensures { IfOk result (λ tokens. tokens_view tokens ≡ tokens_of (module_view «module».now).items) }
{
    let lines = module_lines(alloc, module)?;
    let text = bytes_of(alloc, lines.as_slice())?;
    match lex(alloc, text.as_slice()) {
        Err(LexFault::Memory) => Err(Memory),
        Err(LexFault::NotTokens { .. }) => unreachable!(),
        Ok(tokens) => Ok(tokens),
    }
}
