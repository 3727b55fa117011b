//! The tokens of a tree.

mod declarations;
mod declarators;
mod exprs;
mod own;
mod stmts;

ghost use Rattle.std.specs.Prelude.{◌≡◌, ◌++◌, IfOk, OnOk, map};
ghost use Rattle.straight_tree.specs.Tokens as tokens;
ghost use Rattle.straight_tree.specs.Views.{external_view, unit_view};

use crate::unit::{External, Unit};
use cr_base::{Items, Memory};
use cx_lex::Token;
use declarations::put_decl;
use declarators::{put_declarator, put_specs};
use std::alloc::Global;
use stmts::put_stmt;

fn put_external(out: &mut Items<Token>, external: &External) -> Result<(), Memory>
    ensures { OnOk result (out.new ≡ out.old ++ tokens.external_tokens (external_view external.now)) }
{
    match external {
        External::Function {
            specs,
            declarator,
            body,
            ..
        } => {
            put_specs(out, specs)?;
            put_declarator(out, declarator)?;
            put_stmt(out, body)
        }
        External::Decl(decl) => put_decl(out, decl),
    }
}

fn put_externals(out: &mut Items<Token>, parts: &[External]) -> Result<(), Memory>
    ensures { OnOk result (out.new ≡ out.old ++ tokens.joined (tokens.externals_tokens (map external_view parts.now))) }
{
    for part in parts {
        put_external(out, part)?;
    }
    Ok(())
}

/// The tokens of a unit's tree in text order, each with its line (ISO C99, 6.5 to 6.9). Refused only
/// for want of memory.
pub fn tokens_of(alloc: Global, unit: &Unit) -> Result<Items<Token>, Memory>
    ensures { IfOk result (λ list. list ≡ tokens.unit_tokens (unit_view unit.now)) }
{
    let mut out = Items::new(alloc);
    put_externals(&mut out, unit.parts.as_slice())?;
    Ok(out)
}
