//! `main.rs`: the modules that it names and which of them is the entry.

ghost use Rattle.std.specs.Prelude.{◌≡◌, ◌<◌, ◌≤◌, ℕ, List, Some, slice_get, length, IfOk, IsTrue};
ghost use Rattle.std.specs.Option.{is_none};
ghost use Rattle.rs_lex.specs.Closed.{closed_in};
ghost use Rattle.rs_lex.specs.Views.{tokens_view};
ghost use Rattle.rs_parse.specs.Crates.{IfNotRust, NamesModules};
ghost use Rattle.rs_parse.specs.Outline.{IsOutlined, IsOutlineIn, are_mains, declared, declared_in, entry_in};
ghost use Rattle.rs_text.specs.Lines.{main_lines, module_names, text_of_lines};
ghost use Rattle.rs_text.specs.Names.{is_among};
ghost use Rattle.rs_text.specs.Valid.{valid_names};
ghost use Rattle.rs_tree.specs.Views.{crate_view};
ghost use Rattle.rs_valid.specs.Lists.{names_of};

use crate::fault::ReadFault;
use cr_base::{Items, Memory, Name};
use rs_expr::Cursor;
use rs_lex::{LexFault, Token, first_other_line, lex, same_tokens};
use rs_print::bytes_of;
use rs_tree::{Crate, Module, main_lines};
use rs_valid::have_valid_names;
use std::alloc::Global;

// Reads the modules that tokens declare in front, at most 64, without their items.
fn declared_modules(alloc: Global, cursor: &mut Cursor<'_>) -> Result<Items<Module>, Memory>
    ensures names { IfOk result (λ modules. names_of modules ≡ declared 64 cursor.old) }
    ensures within { IfOk result (λ modules. length modules ≤ 64) }
{
    let mut modules = Items::new(alloc);
    for _turn in 0..64_usize {
        if cursor.text() != b"mod".as_slice() {
            return Ok(modules);
        }
        cursor.skip(1);
        let name = cursor.name(alloc)?;
        cursor.skip(1);
        modules.push(Module {
            name,
            items: Items::new(alloc),
        })?;
    }
    Ok(modules)
}

fn modules_in(alloc: Global, tokens: &[Token]) -> Result<Items<Module>, Memory>
    ensures names { IfOk result (λ modules. names_of modules ≡ declared_in (tokens_view tokens.now)) }
    ensures within { IfOk result (λ modules. length modules ≤ 64) }
{
    let mut cursor = Cursor::new(tokens);
    cursor.skip(10);
    let modules = declared_modules(alloc, &mut cursor)?;
    Ok(modules)
}

// The number of the first module of this name, or 0 where there is none.
fn number_of(modules: &[Module], name: &[u8]) -> usize
    ensures found { IsTrue (is_among (names_of modules.now) name.now) → slice_get (names_of modules.now) result ≡ Some name.now }
    ensures within { 0 < length modules.now → result < length modules.now }
    ensures most { result ≤ length modules.now }
{
    for index in 0..modules.len() {
        if modules[index].name.bytes() == name {
            return index;
        }
    }
    0
}

// The number of the module that tokens of `main.rs` have as the entry, or 0 where there is none.
fn entry_of(tokens: &[Token], modules: &[Module]) -> usize
    requires { length modules.now ≤ 64 }
    ensures found { IsTrue (is_among (names_of modules.now) (entry_in (length modules.now) (tokens_view tokens.now)))
        → slice_get (names_of modules.now) result ≡ Some (entry_in (length modules.now) (tokens_view tokens.now)) }
    ensures within { 0 < length modules.now → result < length modules.now }
    ensures most { result ≤ length modules.now }
{
    let mut cursor = Cursor::new(tokens);
    cursor.skip(25 + 11 * modules.len());
    number_of(modules, cursor.text())
}

// The tokens of a crate's own `main.rs`.
fn printed_tokens(alloc: Global, outline: &Crate) -> Result<Items<Token>, Memory>
    requires names { IsTrue (valid_names (module_names (crate_view outline.now))) }
    requires entry { outline.now.entry < length outline.now.modules }
    ensures { IfOk result (λ tokens. closed_in (text_of_lines (main_lines (crate_view outline.now))) ≡ Some (tokens_view tokens)) }
{
    let lines = main_lines(alloc, outline)?;
    let text = bytes_of(alloc, lines.as_slice())?;
    match lex(alloc, text.as_slice()) {
        Err(LexFault::Memory) => Err(Memory),
        Err(LexFault::NotTokens { .. }) => unreachable!(),
        Ok(tokens) => Ok(tokens),
    }
}

// The line of the first module whose name is none, or stands before it, in tokens of `main.rs`.
fn wrong_name_line(tokens: &[Token], modules: &[Module]) -> u32
    requires { length modules.now ≤ 64 }
{
    for index in 0..modules.len() {
        if !have_valid_names(&modules[..index + 1]) {
            return match tokens.get(11 + 3 * index) {
                None => 1,
                Some(token) => token.line,
            };
        }
    }
    1
}

// The line of the first token that isn't one of a crate's own `main.rs`, or None where all are.
fn other_line(alloc: Global, tokens: &[Token], outline: &Crate) -> Result<Option<u32>, Memory>
    requires count { length outline.now.modules ≤ 64 }
    requires entry { 0 < length outline.now.modules → outline.now.entry < length outline.now.modules }
    ensures { IfOk result (λ line. is_none line ≡ are_mains (tokens_view tokens.now) (crate_view outline.now)) }
{
    if !have_valid_names(outline.modules.as_slice()) {
        return Ok(Some(wrong_name_line(tokens, outline.modules.as_slice())));
    }
    let printed = printed_tokens(alloc, outline)?;
    if same_tokens(tokens, printed.as_slice()) {
        return Ok(None);
    }
    Ok(Some(first_other_line(tokens, printed.as_slice())))
}

// The modules and the entry of tokens of `main.rs`, or of others.
fn outline_in(alloc: Global, tokens: &[Token]) -> Result<Crate, Memory>
    ensures { IfOk result (λ outline. IsOutlineIn (tokens_view tokens.now) (crate_view outline)) }
{
    let modules = modules_in(alloc, tokens)?;
    let entry = entry_of(tokens, modules.as_slice()) as u32;
    Ok(Crate { modules, entry })
}

/// The modules that `main.rs` names, without their items, and the entry. `NotRust` says that the text isn't
/// of the form of `main.rs`.
pub(crate) fn outline_of(alloc: Global, text: &[u8]) -> Result<Crate, ReadFault>
    ensures { IsOutlined text.now result }
{
    let tokens = match lex(alloc, text) {
        Err(LexFault::Memory) => return Err(ReadFault::Memory),
        Err(LexFault::NotTokens { line }) => return Err(ReadFault::NotRust { file: 0, line }),
        Ok(tokens) => tokens,
    };
    let outline = outline_in(alloc, tokens.as_slice())?;
    match other_line(alloc, tokens.as_slice(), &outline)? {
        None => Ok(outline),
        Some(line) => Err(ReadFault::NotRust { file: 0, line }),
    }
}

fn copied_names(alloc: Global, modules: &[Module]) -> Result<Items<Name>, Memory>
    ensures { IfOk result (λ names. names ≡ names_of modules.now) }
{
    let mut names = Items::new(alloc);
    for module in modules {
        names.push(module.name.copy()?)?;
    }
    Ok(names)
}

/// The names of the modules that `main.rs` declares, in its order. `NotRust`, with the file 0, says that the
/// text isn't of the form of `main.rs`.
pub fn mod_names(alloc: Global, main: &[u8]) -> Result<Items<Name>, ReadFault>
    ensures found { IfOk result (NamesModules main.now) }
    ensures refused { IfNotRust result (λ file. (names : List (List ℕ)) → NamesModules main.now names → ⊥) }
    ensures file { IfNotRust result (λ file. file ≡ 0) }
{
    let outline = outline_of(alloc, main)?;
    let names = copied_names(alloc, outline.modules.as_slice())?;
    Ok(names)
}
