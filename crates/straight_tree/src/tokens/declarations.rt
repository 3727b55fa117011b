ghost use Rattle.std.specs.Prelude.{◌≡◌, ◌++◌, ◌∷◌, [], OnOk, map, option_map};
ghost use Rattle.cx_lex.specs.declared.token.Punct.TheVariants.{Semicolon};
ghost use Rattle.straight_tree.specs.Tokens as tokens;
ghost use Rattle.straight_tree.specs.Views.{decl_view, init_declarator_view, initialiser_view};

use crate::declaration::{Decl, InitDeclarator, Initialiser};
use crate::tokens::declarators::{put_declarator, put_specs};
use crate::tokens::exprs::put_expr;
use crate::tokens::own::{later, put_mark};
use cr_base::{Items, Memory};
use cx_lex::{Punct, Token};

fn put_init(out: &mut Items<Token>, lines: &[u32], init: &Option<Initialiser>) -> Result<(), Memory>
    ensures { OnOk result (out.new ≡ out.old ++ tokens.init_tokens lines.now (option_map initialiser_view init.now)) }
{
    match init {
        None => Ok(()),
        Some(Initialiser::Expr(expr)) => {
            put_mark(out, lines, 0, Punct::Equal)?;
            put_expr(out, expr)
        }
    }
}

fn put_init_declarator(out: &mut Items<Token>, declarator: &InitDeclarator) -> Result<(), Memory>
    ensures { OnOk result (out.new ≡ out.old ++ tokens.init_declarator_tokens (init_declarator_view declarator.now)) }
{
    put_declarator(out, &declarator.declarator)?;
    put_init(out, declarator.lines.as_slice(), &declarator.init)
}

// Appends declarators with their initialisers, and the semicolon.
fn put_init_declarators(
    out: &mut Items<Token>,
    list: &[InitDeclarator],
    lines: &[u32],
) -> Result<(), Memory>
    ensures { OnOk result (out.new ≡ out.old ++ tokens.listed Semicolon (tokens.init_declarators_tokens (map init_declarator_view list.now)) lines.now) }
{
    let Some((first, others)) = list.split_first() else {
        return put_mark(out, lines, 0, Punct::Semicolon);
    };
    put_init_declarator(out, first)?;
    let mut ahead = lines;
    for declarator in others {
        put_mark(out, ahead, 0, Punct::Comma)?;
        put_init_declarator(out, declarator)?;
        ahead = later(ahead);
    }
    put_mark(out, ahead, 0, Punct::Semicolon)
}

pub fn put_decl(out: &mut Items<Token>, decl: &Decl) -> Result<(), Memory>
    ensures { OnOk result (out.new ≡ out.old ++ tokens.decl_tokens (decl_view decl.now)) }
{
    put_specs(out, &decl.specs)?;
    put_init_declarators(out, decl.list.as_slice(), decl.lines.as_slice())
}
