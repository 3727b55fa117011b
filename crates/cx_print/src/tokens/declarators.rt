//! The tokens of declarators (ISO C99, 6.7.5).
#![tactic(auto, using(crate::proofs::PrintingLemmas::printing))]

ghost use Rattle.std.specs.Prelude.{◌≡◌, ◌++◌, ◌∷◌, [], map, drop, length};
ghost use Rattle.cx_lex.specs.declared.token.Keyword.TheVariants.{Static};
ghost use Rattle.cx_lex.specs.declared.token.Punct.TheVariants.{LeftParenthesis, RightBracket, Star};
ghost use Rattle.cx_lex.specs.declared.token.TokenKind.TheVariants as kind;
ghost use Rattle.cx_print.specs.Printing.{Appends};
ghost use Rattle.cx_tree.specs.Tokens as tokens;
ghost use Rattle.cx_tree.specs.Views.{brackets_view, declarator_view, param_view, params};

use crate::tokens::exprs::put_boxed;
use crate::tokens::printer::{Printer, later};
use crate::tokens::specifiers::put_specs;
use cr_base::{Boxed, Items, Name};
use cx_lex::{Keyword, Punct, TokenKind};
use cx_tree::{Brackets, Declarator, Param};

#[cycle(tree_tokens)]
#[tactic(auto, using(crate::proofs::PrintingLemmas::printing_declarators))]
pub fn put_declarator(out: &mut Printer, declarator: &Declarator)
    ensures { Appends out.old out.new (tokens.declarator_tokens (declarator_view declarator.now)) }
{
    match declarator {
        Declarator::Missing => {}
        Declarator::Identifier { name, lines } => out.word(lines, 0, name),
        Declarator::Group { inner, lines } => {
            out.mark(lines, 0, Punct::LeftParenthesis);
            put_declarator(out, inner.get());
            out.mark(lines, 1, Punct::RightParenthesis);
        }
        Declarator::Pointer {
            qualifiers,
            of,
            lines,
        } => put_pointer(out, lines, qualifiers, of),
        Declarator::Array {
            of,
            brackets,
            lines,
        } => {
            put_declarator(out, of.get());
            put_brackets(out, lines, brackets);
        }
        Declarator::Function {
            of,
            params,
            variadic,
            lines,
        } => {
            put_declarator(out, of.get());
            put_params(out, lines, params, *variadic);
        }
        Declarator::Identifiers { of, names, lines } => put_identifiers(out, lines, of, names),
    }
}

#[cycle(tree_tokens)]
fn put_pointer(
    out: &mut Printer,
    lines: &Items<u32>,
    qualifiers: &Items<Keyword>,
    of: &Boxed<Declarator>,
)
    ensures { Appends out.old out.new (tokens.mark lines.now 0 Star ∷ (tokens.owns (tokens.keys qualifiers.now) (drop 1 lines.now) ++ tokens.declarator_tokens (declarator_view of.now))) }
{
    put_star(out, lines, qualifiers);
    put_declarator(out, of.get());
}

// Appends `*` and qualifiers.
fn put_star(out: &mut Printer, lines: &Items<u32>, qualifiers: &Items<Keyword>)
    ensures { Appends out.old out.new (tokens.mark lines.now 0 Star ∷ tokens.owns (tokens.keys qualifiers.now) (drop 1 lines.now)) }
{
    out.mark(lines, 0, Punct::Star);
    out.keys(later(lines.as_slice()), qualifiers);
}

#[cycle(tree_tokens)]
fn put_identifiers(
    out: &mut Printer,
    lines: &Items<u32>,
    of: &Boxed<Declarator>,
    names: &Items<Name>,
)
    ensures { Appends out.old out.new (tokens.declarator_tokens (declarator_view of.now) ++ (tokens.mark lines.now 0 LeftParenthesis ∷ tokens.names_tokens names.now (drop 1 lines.now))) }
{
    put_declarator(out, of.get());
    out.mark(lines, 0, Punct::LeftParenthesis);
    out.names(later(lines.as_slice()), names);
}

#[cycle(tree_tokens)]
fn put_brackets(out: &mut Printer, lines: &Items<u32>, brackets: &Brackets)
    ensures { Appends out.old out.new (tokens.owns (tokens.brackets_front (brackets_view brackets.now)) lines.now ++ (tokens.length_tokens (brackets_view brackets.now) ++ tokens.mark (tokens.behind_front (brackets_view brackets.now) lines.now) 0 RightBracket ∷ [])) }
{
    let rest = put_front(out, lines, brackets);
    match brackets {
        Brackets::Unsized { .. } | Brackets::Star { .. } => {}
        Brackets::Length { length, .. }
        | Brackets::StaticFirst { length, .. }
        | Brackets::StaticLast { length, .. } => put_boxed(out, length),
    }
    out.next(rest, Punct::RightBracket);
}

// Appends what stands in front of the length, or in the place of one, and gives the lines behind it.
#[tactic(auto, using(crate::proofs::PrintingLemmas::printing_brackets, crate::proofs::PartLemmas::behind_one))]
fn put_front<'a>(out: &mut Printer, lines: &'a Items<u32>, brackets: &Brackets) -> &'a [u32]
    ensures put { Appends out.old out.new (tokens.owns (tokens.brackets_front (brackets_view brackets.now)) lines.now) }
    ensures rest { result.now ≡ tokens.behind_front (brackets_view brackets.now) lines.now }
{
    out.mark(lines, 0, Punct::LeftBracket);
    let behind = later(lines.as_slice());
    match brackets {
        Brackets::Unsized { qualifiers } => out.keys(behind, qualifiers),
        Brackets::Length { qualifiers, .. } => out.keys(behind, qualifiers),
        Brackets::StaticFirst { qualifiers, .. } => put_static(out, behind, qualifiers),
        Brackets::StaticLast { qualifiers, .. } => {
            put_last(out, behind, qualifiers, TokenKind::Key(Keyword::Static))
        }
        Brackets::Star { qualifiers } => {
            put_last(out, behind, qualifiers, TokenKind::Mark(Punct::Star))
        }
    }
}

// Appends `static` and qualifiers, and gives the lines behind them.
#[tactic(auto, using(crate::proofs::PrintingLemmas::printing, crate::proofs::PartLemmas::behind_one))]
fn put_static<'a>(out: &mut Printer, lines: &'a [u32], qualifiers: &Items<Keyword>) -> &'a [u32]
    ensures put { Appends out.old out.new (tokens.owns (kind.Key Static ∷ tokens.keys qualifiers.now) lines.now) }
    ensures rest { result.now ≡ drop (length (kind.Key Static ∷ tokens.keys qualifiers.now)) lines.now }
{
    out.front(lines, TokenKind::Key(Keyword::Static));
    out.keys(later(lines), qualifiers)
}

// Appends qualifiers and one more token, and gives the lines behind them.
#[tactic(auto, using(crate::proofs::PrintingLemmas::printing, crate::proofs::PartLemmas::owns_last, crate::proofs::PartLemmas::behind_last))]
fn put_last<'a>(
    out: &mut Printer,
    lines: &'a [u32],
    qualifiers: &Items<Keyword>,
    last: TokenKind,
) -> &'a [u32]
    ensures put { Appends out.old out.new (tokens.owns (tokens.keys qualifiers.now ++ last ∷ []) lines.now) }
    ensures rest { result.now ≡ drop (length (tokens.keys qualifiers.now ++ last ∷ [])) lines.now }
{
    let rest = out.keys(lines, qualifiers);
    out.front(rest, last);
    later(rest)
}

// Appends parameters in parentheses.
#[cycle(tree_tokens)]
#[tactic(auto, using(crate::proofs::PrintingLemmas::printing_loop))]
fn put_params(out: &mut Printer, lines: &Items<u32>, list: &Items<Param>, variadic: bool)
    ensures { Appends out.old out.new (tokens.mark lines.now 0 LeftParenthesis ∷ tokens.listed (tokens.parenthesis variadic) (tokens.params_tokens (params (map param_view list.now))) (drop 1 lines.now)) }
{
    out.mark(lines, 0, Punct::LeftParenthesis);
    let mut ahead = later(lines.as_slice());
    let Some((first, others)) = list.as_slice().split_first() else {
        return out.parenthesis(ahead, variadic);
    };
    put_param(out, first);
    for param in others {
        out.next(ahead, Punct::Comma);
        put_param(out, param);
        ahead = later(ahead);
    }
    out.parenthesis(ahead, variadic);
}

#[cycle(tree_tokens)]
fn put_param(out: &mut Printer, param: &Param)
    ensures { Appends out.old out.new (tokens.param_tokens (param_view param.now)) }
{
    put_specs(out, &param.specs);
    put_declarator(out, param.declarator.get());
}
