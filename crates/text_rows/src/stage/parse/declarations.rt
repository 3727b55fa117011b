//! Declarations (ISO C99, 6.7): `(decl SPECIFIERS D ..)`, where D may be `(init D INITIALISER)`; and definitions of
//! functions (6.9.1): `(define SPECIFIERS D BODY)`.

use crate::stage::parse::declarators::{write_declarator, write_inner};
use crate::stage::parse::initialisers::write_initialiser;
use crate::stage::parse::specifiers::write_specs;
use crate::stage::parse::stmts::write_stmt;
use cx_tree::{Decl, Definition, External, InitDeclarator};
use row_words::Answer;

pub(crate) fn write_externals(parts: &[External], out: &mut Answer) {
    for (place, part) in parts.iter().enumerate() {
        if place > 0 {
            out.text(" ");
        }
        write_external(part, out);
    }
}

fn write_external(part: &External, out: &mut Answer) {
    match part {
        External::Function(definition) => write_definition(definition.get(), out),
        External::Declaration(decl) => write_decl(decl.get(), out),
    }
}

fn write_definition(definition: &Definition, out: &mut Answer) {
    out.text("(define ");
    write_specs(definition.specs.as_slice(), out);
    write_inner(&definition.declarator, out);
    out.text(" ");
    write_stmt(definition.body.get(), out);
    out.text(")");
}

pub(crate) fn write_decl(decl: &Decl, out: &mut Answer) {
    out.text("(decl ");
    write_specs(decl.specs.as_slice(), out);
    for declarator in decl.list.as_slice() {
        out.text(" ");
        write_init_declarator(declarator, out);
    }
    out.text(")");
}

fn write_init_declarator(declarator: &InitDeclarator, out: &mut Answer) {
    match &declarator.init {
        None => write_declarator(declarator.declarator.get(), out),
        Some(init) => {
            out.text("(init");
            write_inner(&declarator.declarator, out);
            out.text(" ");
            write_initialiser(init.get(), out);
            out.text(")");
        }
    }
}
