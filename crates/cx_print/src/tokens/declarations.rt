//! The tokens of declarations (ISO C99, 6.7).
#![tactic(auto, using(crate::proofs::PrintingLemmas::printing))]

ghost use Rattle.std.specs.Prelude.{map, option_map};
ghost use Rattle.cx_lex.specs.declared.token.Punct.TheVariants.{Semicolon};
ghost use Rattle.cx_print.specs.Printing.{Appends};
ghost use Rattle.cx_tree.specs.Tokens as tokens;
ghost use Rattle.cx_tree.specs.Views.{decl_view, init_declarator_view, initialiser_view};

use crate::tokens::declarators::put_declarator;
use crate::tokens::initialisers::put_initialiser;
use crate::tokens::printer::{Printer, later};
use crate::tokens::specifiers::put_specs;
use cr_base::{Boxed, Items};
use cx_lex::Punct;
use cx_tree::{Decl, InitDeclarator, Initialiser};

pub fn put_decl(out: &mut Printer, decl: &Decl)
    ensures { Appends out.old out.new (tokens.decl_tokens (decl_view decl.now)) }
{
    put_specs(out, &decl.specs);
    put_init_declarators(out, &decl.lines, &decl.list);
}

// Appends declarators with their initialisers, and the semicolon.
#[tactic(auto, using(crate::proofs::PrintingLemmas::printing_loop))]
fn put_init_declarators(out: &mut Printer, lines: &Items<u32>, list: &Items<InitDeclarator>)
    ensures { Appends out.old out.new (tokens.listed (tokens.ended Semicolon) (tokens.init_declarators_tokens (map init_declarator_view list.now)) lines.now) }
{
    let mut ahead = lines.as_slice();
    let Some((first, others)) = list.as_slice().split_first() else {
        return out.next(ahead, Punct::Semicolon);
    };
    put_init_declarator(out, first);
    for declarator in others {
        out.next(ahead, Punct::Comma);
        put_init_declarator(out, declarator);
        ahead = later(ahead);
    }
    out.next(ahead, Punct::Semicolon);
}

fn put_init_declarator(out: &mut Printer, declarator: &InitDeclarator)
    ensures { Appends out.old out.new (tokens.init_declarator_tokens (init_declarator_view declarator.now)) }
{
    put_declarator(out, declarator.declarator.get());
    put_init(out, &declarator.lines, &declarator.init);
}

// Appends `=` and an initialiser, or nothing.
fn put_init(out: &mut Printer, lines: &Items<u32>, init: &Option<Boxed<Initialiser>>)
    ensures { Appends out.old out.new (tokens.init_tokens lines.now (option_map initialiser_view init.now)) }
{
    if let Some(init) = init {
        out.mark(lines, 0, Punct::Equal);
        put_initialiser(out, init.get());
    }
}
