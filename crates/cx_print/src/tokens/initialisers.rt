//! The tokens of initialisers (ISO C99, 6.7.8).
#![tactic(auto, using(crate::proofs::PrintingLemmas::printing))]

ghost use Rattle.std.specs.Prelude.{map};
ghost use Rattle.cx_print.specs.Printing.{Appends};
ghost use Rattle.cx_tree.specs.Tokens as tokens;
ghost use Rattle.cx_tree.specs.Views.{designator_view, designators, entry_view, initialiser_list_view, initialiser_view};

use crate::tokens::exprs::{put_between, put_expr};
use crate::tokens::printer::{Printer, later};
use cr_base::{Boxed, Items};
use cx_lex::Punct;
use cx_tree::{Designator, Entry, Initialiser, InitialiserList};

#[cycle(tree_tokens)]
pub fn put_initialiser(out: &mut Printer, init: &Initialiser)
    ensures { Appends out.old out.new (tokens.initialiser_tokens (initialiser_view init.now)) }
{
    match init {
        Initialiser::Single(expr) => put_expr(out, expr.get()),
        Initialiser::Braced(list) => put_boxed_list(out, list),
    }
}

#[cycle(tree_tokens)]
pub fn put_boxed_list(out: &mut Printer, list: &Boxed<InitialiserList>)
    ensures { Appends out.old out.new (tokens.initialiser_list_tokens (initialiser_list_view list.now)) }
{
    put_list(out, list.get());
}

#[cycle(tree_tokens)]
#[tactic(auto, using(crate::proofs::PrintingLemmas::printing_loop))]
fn put_list(out: &mut Printer, list: &InitialiserList)
    ensures { Appends out.old out.new (tokens.initialiser_list_tokens (initialiser_list_view list.now)) }
{
    let last_comma = list.last_comma;
    out.mark(&list.lines, 0, Punct::LeftBrace);
    let mut ahead = later(list.lines.as_slice());
    let Some((first, others)) = list.entries.as_slice().split_first() else {
        return out.brace(ahead, last_comma);
    };
    put_entry(out, first);
    for entry in others {
        out.next(ahead, Punct::Comma);
        put_entry(out, entry);
        ahead = later(ahead);
    }
    out.brace(ahead, last_comma);
}

#[cycle(tree_tokens)]
fn put_entry(out: &mut Printer, entry: &Entry)
    ensures { Appends out.old out.new (tokens.entry_tokens (entry_view entry.now)) }
{
    put_designation(out, &entry.lines, &entry.designators);
    put_initialiser(out, entry.init.get());
}

// Appends designators and `=`, or nothing.
#[cycle(tree_tokens)]
#[tactic(auto, using(crate::proofs::PrintingLemmas::printing_loop))]
fn put_designation(out: &mut Printer, lines: &Items<u32>, list: &Items<Designator>)
    ensures { Appends out.old out.new (tokens.designation_tokens (designators (map designator_view list.now)) lines.now) }
{
    let Some((first, others)) = list.as_slice().split_first() else {
        return;
    };
    put_designator(out, first);
    for designator in others {
        put_designator(out, designator);
    }
    out.mark(lines, 0, Punct::Equal);
}

#[cycle(tree_tokens)]
fn put_designator(out: &mut Printer, designator: &Designator)
    ensures { Appends out.old out.new (tokens.designator_tokens (designator_view designator.now)) }
{
    match designator {
        Designator::Element { at, lines } => {
            put_between(out, lines, Punct::LeftBracket, at, Punct::RightBracket);
        }
        Designator::Member { name, lines } => {
            out.mark(lines, 0, Punct::Dot);
            out.word(lines, 1, name);
        }
    }
}
