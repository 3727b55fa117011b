//! The tokens of a tree.
#![tactic(auto, using(crate::proofs::PrintingLemmas::printing))]

mod declarations;
mod declarators;
mod exprs;
mod initialisers;
mod printer;
mod specifiers;
mod stmts;

ghost use Rattle.std.specs.Prelude.{◌≡◌, IfOk, map};
ghost use Rattle.cx_print.specs.Printing.{Appends};
ghost use Rattle.cx_tree.specs.Tokens as tokens;
ghost use Rattle.cx_tree.specs.Views.{definition_view, external_view, unit_view};

use cr_base::{Items, Memory};
use cx_lex::Token;
use cx_tree::{Definition, External, Unit};
use declarations::put_decl;
use declarators::put_declarator;
use printer::Printer;
use specifiers::put_specs;
use std::alloc::Global;
use stmts::put_stmt;

fn put_definition(out: &mut Printer, definition: &Definition)
    ensures { Appends out.old out.new (tokens.definition_tokens (definition_view definition.now)) }
{
    put_specs(out, &definition.specs);
    put_declarator(out, definition.declarator.get());
    put_stmt(out, definition.body.get());
}

fn put_external(out: &mut Printer, external: &External)
    ensures { Appends out.old out.new (tokens.external_tokens (external_view external.now)) }
{
    match external {
        External::Function(definition) => put_definition(out, definition.get()),
        External::Declaration(decl) => put_decl(out, decl.get()),
    }
}

#[tactic(auto, using(crate::proofs::PrintingLemmas::printing_loop))]
fn put_externals(out: &mut Printer, parts: &[External])
    ensures { Appends out.old out.new (tokens.externals_tokens (map external_view parts.now)) }
{
    for part in parts {
        put_external(out, part);
    }
}

/// The tokens of a unit's tree in text order, each with its line (ISO C99, 6.5 to 6.9). Refused only
/// for want of memory.
pub fn tokens_of(alloc: Global, unit: &Unit) -> Result<Items<Token>, Memory>
    ensures { IfOk result (λ list. list ≡ tokens.unit_tokens (unit_view unit.now)) }
{
    let mut out = Printer::new(alloc);
    put_externals(&mut out, unit.parts.as_slice());
    out.finish()
}
