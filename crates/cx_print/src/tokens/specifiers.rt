//! The tokens of specifiers and type names (ISO C99, 6.7.2, 6.7.6).
#![tactic(auto, using(crate::proofs::PrintingLemmas::printing))]

ghost use Rattle.std.specs.Prelude.{◌≡◌, ◌++◌, ◌∷◌, [], map, drop};
ghost use Rattle.cx_lex.specs.declared.token.Punct.TheVariants.{LeftBrace, RightBrace, Semicolon};
ghost use Rattle.cx_print.specs.Printing.{Appends};
ghost use Rattle.cx_tree.specs.Tokens as tokens;
ghost use Rattle.cx_tree.specs.Views.{enumerator_view, enumerators, member_decl_view, member_decls, member_declarator_view, member_declarators, spec_view, specs, type_name_view};

use crate::tokens::declarators::put_declarator;
use crate::tokens::exprs::put_prefixed;
use crate::tokens::printer::{Printer, later};
use cr_base::Items;
use cx_lex::{Keyword, Punct};
use cx_tree::{Enumerator, MemberDecl, MemberDeclarator, Spec, TypeName};

#[cycle(tree_tokens)]
pub fn put_type_name(out: &mut Printer, name: &TypeName)
    ensures { Appends out.old out.new (tokens.type_name_tokens (type_name_view name.now)) }
{
    put_specs(out, &name.specs);
    put_declarator(out, name.declarator.get());
}

#[cycle(tree_tokens)]
#[tactic(auto, using(crate::proofs::PrintingLemmas::printing_loop))]
pub fn put_specs(out: &mut Printer, list: &Items<Spec>)
    ensures { Appends out.old out.new (tokens.specs_tokens (specs (map spec_view list.now))) }
{
    for spec in list.as_slice() {
        put_spec(out, spec);
    }
}

#[cycle(tree_tokens)]
fn put_spec(out: &mut Printer, spec: &Spec)
    ensures { Appends out.old out.new (tokens.spec_tokens (spec_view spec.now)) }
{
    match spec {
        Spec::Key { word, lines } => out.key(lines, 0, *word),
        Spec::Typedef { name, lines } => out.word(lines, 0, name),
        Spec::Record {
            is_union,
            tag,
            members,
            lines,
        } => {
            out.key(lines, 0, record_keyword(*is_union));
            let rest = out.tag(later(lines.as_slice()), tag);
            if let Some(members) = members {
                put_members(out, rest, members);
            }
        }
        Spec::Enum {
            tag,
            list,
            last_comma,
            lines,
        } => {
            out.key(lines, 0, Keyword::Enum);
            let rest = out.tag(later(lines.as_slice()), tag);
            if let Some(list) = list {
                put_enumerators(out, rest, list, *last_comma);
            }
        }
    }
}

fn record_keyword(is_union: bool) -> Keyword
    ensures { result ≡ tokens.record_keyword is_union }
{
    if is_union {
        Keyword::Union
    } else {
        Keyword::Struct
    }
}

// Appends members in braces.
#[cycle(tree_tokens)]
#[tactic(auto, using(crate::proofs::PrintingLemmas::printing_loop))]
fn put_members(out: &mut Printer, lines: &[u32], members: &Items<MemberDecl>)
    ensures { Appends out.old out.new (tokens.mark lines.now 0 LeftBrace ∷ (tokens.member_decls_tokens (member_decls (map member_decl_view members.now)) ++ tokens.mark lines.now 1 RightBrace ∷ [])) }
{
    out.next(lines, Punct::LeftBrace);
    for decl in members.as_slice() {
        put_specs(out, &decl.specs);
        put_member_declarators(out, &decl.lines, &decl.list);
    }
    out.next(later(lines), Punct::RightBrace);
}

// Appends declarators of members, and the semicolon.
#[cycle(tree_tokens)]
#[tactic(auto, using(crate::proofs::PrintingLemmas::printing_loop))]
fn put_member_declarators(out: &mut Printer, lines: &Items<u32>, list: &Items<MemberDeclarator>)
    ensures { Appends out.old out.new (tokens.listed (tokens.ended Semicolon) (tokens.member_declarators_tokens (member_declarators (map member_declarator_view list.now))) lines.now) }
{
    let mut ahead = lines.as_slice();
    let Some((first, others)) = list.as_slice().split_first() else {
        return out.next(ahead, Punct::Semicolon);
    };
    put_member_declarator(out, first);
    for declarator in others {
        out.next(ahead, Punct::Comma);
        put_member_declarator(out, declarator);
        ahead = later(ahead);
    }
    out.next(ahead, Punct::Semicolon);
}

#[cycle(tree_tokens)]
fn put_member_declarator(out: &mut Printer, declarator: &MemberDeclarator)
    ensures { Appends out.old out.new (tokens.member_declarator_tokens (member_declarator_view declarator.now)) }
{
    put_declarator(out, declarator.declarator.get());
    put_prefixed(out, &declarator.lines, 0, Punct::Colon, &declarator.width);
}

// Appends enumerators in braces.
#[cycle(tree_tokens)]
#[tactic(auto, using(crate::proofs::PrintingLemmas::printing_loop))]
fn put_enumerators(out: &mut Printer, lines: &[u32], list: &Items<Enumerator>, last_comma: bool)
    ensures { Appends out.old out.new (tokens.mark lines.now 0 LeftBrace ∷ tokens.listed (tokens.brace last_comma) (tokens.enumerators_tokens (enumerators (map enumerator_view list.now))) (drop 1 lines.now)) }
{
    out.next(lines, Punct::LeftBrace);
    let mut ahead = later(lines);
    let Some((first, others)) = list.as_slice().split_first() else {
        return out.brace(ahead, last_comma);
    };
    put_enumerator(out, first);
    for enumerator in others {
        out.next(ahead, Punct::Comma);
        put_enumerator(out, enumerator);
        ahead = later(ahead);
    }
    out.brace(ahead, last_comma);
}

#[cycle(tree_tokens)]
fn put_enumerator(out: &mut Printer, enumerator: &Enumerator)
    ensures { Appends out.old out.new (tokens.enumerator_tokens (enumerator_view enumerator.now)) }
{
    out.word(&enumerator.lines, 0, &enumerator.name);
    put_prefixed(out, &enumerator.lines, 1, Punct::Equal, &enumerator.value);
}
