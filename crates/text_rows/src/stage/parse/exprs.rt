//! Expressions (ISO C99, 6.5): `x`, `3`, `3U`, `(letter 97)`, `(text "a" "b")`, `(paren E)`, `(index E E)`,
//! `(call E E ..)`, `(dot E x)`, `(arrow E x)`, `(post++ E)`, `(post-- E)`, `(literal TYPE LIST)`, `(pre++ E)`,
//! `(pre-- E)`, `(* E)`, `(sizeof E)`, `(sizeof TYPE)`, `(cast TYPE E)`, `(* E E)`, `(? E E E)`, `(= E E)`, `(, E E)`.

use crate::stage::parse::initialisers::write_list;
use crate::stage::parse::marks::mark_text;
use crate::stage::parse::specifiers::write_type_name;
use cr_base::{Boxed, Name};
use cx_lex::Ty0;
use cx_tree::{Expr, TypeName};
use row_words::Answer;

#[cycle(forms)]
pub(crate) fn write_expr(expr: &Expr, out: &mut Answer) {
    match expr {
        Expr::Name { name, .. } => out.bytes(name.bytes()),
        Expr::Number { value, ty, .. } => write_number(*value, *ty, out),
        Expr::Letter { value, .. } => write_letter(*value, out),
        Expr::Text { parts, .. } => write_texts(parts.as_slice(), out),
        _ => {
            out.text("(");
            write_node(expr, out);
            out.text(")");
        }
    }
}

// Writes an expression with one operand.
#[cycle(forms)]
fn write_node(expr: &Expr, out: &mut Answer) {
    match expr {
        Expr::Paren { inner, .. } => write_one("paren", inner, out),
        Expr::Dot { of, member, .. } => {
            write_one("dot", of, out);
            write_word(member, out);
        }
        Expr::Arrow { of, member, .. } => {
            write_one("arrow", of, out);
            write_word(member, out);
        }
        Expr::PostUp { of, .. } => write_one("post++", of, out),
        Expr::PostDown { of, .. } => write_one("post--", of, out),
        Expr::PreUp { on, .. } => write_one("pre++", on, out),
        Expr::PreDown { on, .. } => write_one("pre--", on, out),
        Expr::Unary { op, on, .. } => write_one(mark_text(*op), on, out),
        Expr::SizeofExpr { on, .. } => write_one("sizeof", on, out),
        Expr::SizeofType { of, .. } => write_typed("sizeof", of, out),
        _ => write_parts(expr, out),
    }
}

// Writes an expression that has several parts, without an operator between them.
#[cycle(forms)]
fn write_parts(expr: &Expr, out: &mut Answer) {
    match expr {
        Expr::Index { of, index, .. } => {
            write_one("index", of, out);
            write_behind(index, out);
        }
        Expr::Call { of, args, .. } => {
            write_one("call", of, out);
            write_args(args.as_slice(), out);
        }
        Expr::Literal { of, list, .. } => {
            write_typed("literal", of, out);
            out.text(" ");
            write_list(list.get(), out);
        }
        Expr::Cast { to, on, .. } => {
            write_typed("cast", to, out);
            write_behind(on, out);
        }
        _ => write_operation(expr, out),
    }
}

// Writes an expression with an operator between operands.
#[cycle(forms)]
fn write_operation(expr: &Expr, out: &mut Answer) {
    match expr {
        Expr::Binary {
            left,
            op,
            right,
            ..
        }
        | Expr::Assign {
            left,
            op,
            right,
            ..
        } => {
            write_one(mark_text(*op), left, out);
            write_behind(right, out);
        }
        Expr::Cond {
            condition,
            if_true,
            if_false,
            ..
        } => {
            write_one("?", condition, out);
            write_behind(if_true, out);
            write_behind(if_false, out);
        }
        Expr::Comma { left, right, .. } => {
            write_one(",", left, out);
            write_behind(right, out);
        }
        _ => {}
    }
}

/// Writes an expression, or `_` where there is none.
pub(crate) fn write_option(expr: &Option<Boxed<Expr>>, out: &mut Answer) {
    match expr {
        Some(expr) => write_expr(expr.get(), out),
        None => out.text("_"),
    }
}

/// Writes a blank and an expression.
#[cycle(forms)]
pub(crate) fn write_behind(expr: &Boxed<Expr>, out: &mut Answer) {
    out.text(" ");
    write_expr(expr.get(), out);
}

#[cycle(forms)]
fn write_one(node: &str, one: &Boxed<Expr>, out: &mut Answer) {
    out.text(node);
    write_behind(one, out);
}

#[cycle(forms)]
fn write_typed(node: &str, of: &Boxed<TypeName>, out: &mut Answer) {
    out.text(node);
    out.text(" ");
    write_type_name(of.get(), out);
}

#[cycle(forms)]
fn write_args(args: &[Expr], out: &mut Answer) {
    for arg in args {
        out.text(" ");
        write_expr(arg, out);
    }
}

fn write_word(name: &Name, out: &mut Answer) {
    out.text(" ");
    out.bytes(name.bytes());
}

// Writes a constant with the suffix that gives its type (6.4.4.1).
fn write_number(value: u64, ty: Ty0, out: &mut Answer) {
    out.value(value);
    out.text(match ty {
        Ty0::Int => "",
        Ty0::Unsigned => "U",
        Ty0::Long => "L",
        Ty0::UnsignedLong => "UL",
        Ty0::LongLong => "LL",
        Ty0::UnsignedLongLong => "ULL",
    });
}

fn write_letter(value: i32, out: &mut Answer) {
    out.text("(letter ");
    out.value(value);
    out.text(")");
}

fn write_texts(parts: &[Name], out: &mut Answer) {
    out.text("(text");
    for part in parts {
        out.text(" ");
        out.quoted(part.bytes());
    }
    out.text(")");
}
