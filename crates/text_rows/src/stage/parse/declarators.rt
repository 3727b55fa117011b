//! Declarators (ISO C99, 6.7.5): `x`, `_` where there is no name, `(group D)`, `(pointer QUALIFIER .. D)`,
//! `(array D BRACKETS)`, `(function D PARAMETER .. ...)`, `(names D x ..)`. What stands in the brackets of an array
//! stands behind its declarator, and a parameter is `(param SPECIFIERS D)`.

use crate::stage::parse::exprs::write_behind;
use crate::stage::parse::marks::key_text;
use crate::stage::parse::specifiers::write_specs;
use cr_base::{Boxed, Name};
use cx_lex::Keyword;
use cx_tree::{Brackets, Declarator, Param};
use row_words::Answer;

#[cycle(forms)]
pub(crate) fn write_declarator(declarator: &Declarator, out: &mut Answer) {
    match declarator {
        Declarator::Missing => out.text("_"),
        Declarator::Identifier { name, .. } => out.bytes(name.bytes()),
        Declarator::Group { inner, .. } => write_group(inner, out),
        Declarator::Pointer { qualifiers, of, .. } => {
            out.text("(pointer");
            write_keys(qualifiers.as_slice(), out);
            write_inner(of, out);
            out.text(")");
        }
        Declarator::Array { of, brackets, .. } => {
            out.text("(array");
            write_inner(of, out);
            write_brackets(brackets, out);
            out.text(")");
        }
        Declarator::Function {
            of,
            params,
            variadic,
            ..
        } => {
            out.text("(function");
            write_inner(of, out);
            write_params(params.as_slice(), out);
            out.text(if *variadic { " ...)" } else { ")" });
        }
        Declarator::Identifiers { of, names, .. } => {
            out.text("(names");
            write_inner(of, out);
            write_names(names.as_slice(), out);
            out.text(")");
        }
    }
}

#[cycle(forms)]
fn write_group(inner: &Boxed<Declarator>, out: &mut Answer) {
    out.text("(group");
    write_inner(inner, out);
    out.text(")");
}

/// Writes a blank and a declarator.
#[cycle(forms)]
pub(crate) fn write_inner(inner: &Boxed<Declarator>, out: &mut Answer) {
    out.text(" ");
    write_declarator(inner.get(), out);
}

#[cycle(forms)]
fn write_brackets(brackets: &Brackets, out: &mut Answer) {
    match brackets {
        Brackets::Unsized { qualifiers } => write_keys(qualifiers.as_slice(), out),
        Brackets::Length { qualifiers, length } => {
            write_keys(qualifiers.as_slice(), out);
            write_behind(length, out);
        }
        Brackets::StaticFirst { qualifiers, length } => {
            out.text(" static");
            write_keys(qualifiers.as_slice(), out);
            write_behind(length, out);
        }
        Brackets::StaticLast { qualifiers, length } => {
            write_keys(qualifiers.as_slice(), out);
            out.text(" static");
            write_behind(length, out);
        }
        Brackets::Star { qualifiers } => {
            write_keys(qualifiers.as_slice(), out);
            out.text(" *");
        }
    }
}

#[cycle(forms)]
fn write_params(params: &[Param], out: &mut Answer) {
    for param in params {
        out.text(" ");
        write_param(param, out);
    }
}

#[cycle(forms)]
fn write_param(param: &Param, out: &mut Answer) {
    out.text("(param ");
    write_specs(param.specs.as_slice(), out);
    write_inner(&param.declarator, out);
    out.text(")");
}

fn write_keys(keys: &[Keyword], out: &mut Answer) {
    for key in keys {
        out.text(" ");
        out.text(key_text(*key));
    }
}

fn write_names(names: &[Name], out: &mut Answer) {
    for name in names {
        out.text(" ");
        out.bytes(name.bytes());
    }
}
