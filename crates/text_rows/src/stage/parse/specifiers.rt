//! Specifiers and qualifiers (ISO C99, 6.7.1 to 6.7.4), as `(static int)`: a keyword, a typedef name, or one of
//! `(struct TAG { MEMBERS })`, `(union TAG { MEMBERS })` and `(enum TAG { ENUMERATORS })`, without braces where
//! there are none, and with `_` where there is no tag. Members are `(member SPECIFIERS D ..)`, where D may be
//! `(bits D E)`; an enumerator is `A` or `(= A E)`, and a comma behind the last one is `,`. A type name (6.7.6) is
//! `(type SPECIFIERS D)`.

use crate::stage::parse::declarators::{write_declarator, write_inner};
use crate::stage::parse::exprs::write_behind;
use crate::stage::parse::marks::key_text;
use cr_base::{Items, Name};
use cx_tree::{Enumerator, MemberDecl, MemberDeclarator, Spec, TypeName};
use row_words::Answer;

#[cycle(forms)]
pub(crate) fn write_type_name(name: &TypeName, out: &mut Answer) {
    out.text("(type ");
    write_specs(name.specs.as_slice(), out);
    write_inner(&name.declarator, out);
    out.text(")");
}

#[cycle(forms)]
pub(crate) fn write_specs(specs: &[Spec], out: &mut Answer) {
    out.text("(");
    let mut index: usize = 0;
    for spec in specs {
        write_gap(index, out);
        write_spec(spec, out);
        index = index.saturating_add(1);
    }
    out.text(")");
}

// Writes a blank before every element but the first.
fn write_gap(index: usize, out: &mut Answer) {
    if index > 0 {
        out.text(" ");
    }
}

#[cycle(forms)]
fn write_spec(spec: &Spec, out: &mut Answer) {
    match spec {
        Spec::Key { word, .. } => out.text(key_text(*word)),
        Spec::Typedef { name, .. } => out.bytes(name.bytes()),
        Spec::Record {
            is_union,
            tag,
            members,
            ..
        } => {
            out.text(if *is_union { "(union " } else { "(struct " });
            write_tag(tag, out);
            write_members(members, out);
            out.text(")");
        }
        Spec::Enum {
            tag,
            list,
            last_comma,
            ..
        } => {
            out.text("(enum ");
            write_tag(tag, out);
            write_enumerators(list, *last_comma, out);
            out.text(")");
        }
    }
}

fn write_tag(tag: &Option<Name>, out: &mut Answer) {
    match tag {
        Some(tag) => out.bytes(tag.bytes()),
        None => out.text("_"),
    }
}

#[cycle(forms)]
fn write_members(members: &Option<Items<MemberDecl>>, out: &mut Answer) {
    let Some(members) = members else {
        return;
    };
    out.text(" {");
    for decl in members.as_slice() {
        write_member_decl(decl, out);
    }
    out.text(" }");
}

#[cycle(forms)]
fn write_member_decl(decl: &MemberDecl, out: &mut Answer) {
    out.text(" (member ");
    write_specs(decl.specs.as_slice(), out);
    for declarator in decl.list.as_slice() {
        write_member_declarator(declarator, out);
    }
    out.text(")");
}

#[cycle(forms)]
fn write_member_declarator(member: &MemberDeclarator, out: &mut Answer) {
    out.text(" ");
    match &member.width {
        None => write_declarator(member.declarator.get(), out),
        Some(width) => {
            out.text("(bits");
            write_inner(&member.declarator, out);
            write_behind(width, out);
            out.text(")");
        }
    }
}

#[cycle(forms)]
fn write_enumerators(list: &Option<Items<Enumerator>>, last_comma: bool, out: &mut Answer) {
    let Some(list) = list else {
        return;
    };
    out.text(" {");
    for enumerator in list.as_slice() {
        write_enumerator(enumerator, out);
    }
    out.text(if last_comma { " , }" } else { " }" });
}

#[cycle(forms)]
fn write_enumerator(enumerator: &Enumerator, out: &mut Answer) {
    out.text(" ");
    match &enumerator.value {
        None => out.bytes(enumerator.name.bytes()),
        Some(value) => {
            out.text("(= ");
            out.bytes(enumerator.name.bytes());
            write_behind(value, out);
            out.text(")");
        }
    }
}
