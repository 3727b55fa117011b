//! The tokens of expressions (ISO C99, 6.5).
#![tactic(auto, using(crate::proofs::PrintingLemmas::printing))]

ghost use Rattle.std.specs.Prelude.{◌<◌, suc, ◌++◌, ◌∷◌, [], map, option_map, drop};
ghost use Rattle.cx_lex.specs.declared.token.Punct.TheVariants.{LeftParenthesis, RightParenthesis};
ghost use Rattle.cx_print.specs.Parts as parts;
ghost use Rattle.cx_print.specs.Printing.{Appends};
ghost use Rattle.cx_tree.specs.Tokens as tokens;
ghost use Rattle.cx_tree.specs.Views.{expr_view, exprs, option_expr, type_name_view};

use crate::tokens::initialisers::put_boxed_list;
use crate::tokens::printer::{Printer, later};
use crate::tokens::specifiers::put_type_name;
use cr_base::{Boxed, Items};
use cx_lex::{Keyword, Punct, TokenKind};
use cx_tree::{Expr, TypeName};

#[cycle(tree_tokens)]
#[tactic(auto, using(crate::proofs::PrintingLemmas::printing, crate::proofs::PartLemmas::expr_in_parts))]
pub fn put_expr(out: &mut Printer, expr: &Expr)
    ensures { Appends out.old out.new (tokens.expr_tokens (expr_view expr.now)) }
{
    put_left(out, expr);
    put_right(out, expr);
    put_rest(out, expr);
}

#[cycle(tree_tokens)]
pub fn put_boxed(out: &mut Printer, expr: &Boxed<Expr>)
    ensures { Appends out.old out.new (tokens.expr_tokens (expr_view expr.now)) }
{
    put_expr(out, expr.get());
}

// Appends the left operand or the type name in parentheses that an expression begins with, or nothing.
#[cycle(tree_tokens)]
fn put_left(out: &mut Printer, expr: &Expr)
    ensures { Appends out.old out.new (parts.left_tokens (expr_view expr.now)) }
{
    match expr {
        Expr::Index { of, .. }
        | Expr::Call { of, .. }
        | Expr::Dot { of, .. }
        | Expr::Arrow { of, .. }
        | Expr::PostUp { of, .. }
        | Expr::PostDown { of, .. }
        | Expr::Binary { left: of, .. }
        | Expr::Cond { condition: of, .. }
        | Expr::Assign { left: of, .. }
        | Expr::Comma { left: of, .. } => put_boxed(out, of),
        Expr::Literal { of, lines, .. } | Expr::Cast { to: of, lines, .. } => {
            put_type(out, lines, 0, of);
        }
        _ => {}
    }
}

// Appends what stands behind a left operand or a type name in parentheses, other than the third operand
// of `?:`, or nothing.
#[cycle(tree_tokens)]
fn put_right(out: &mut Printer, expr: &Expr)
    ensures { Appends out.old out.new (parts.right_tokens (expr_view expr.now)) }
{
    match expr {
        Expr::Index { index, lines, .. } => {
            put_between(out, lines, Punct::LeftBracket, index, Punct::RightBracket);
        }
        Expr::Call { args, lines, .. } => put_args(out, lines, args),
        Expr::Dot { member, lines, .. } => {
            out.mark(lines, 0, Punct::Dot);
            out.word(lines, 1, member);
        }
        Expr::Arrow { member, lines, .. } => {
            out.mark(lines, 0, Punct::Arrow);
            out.word(lines, 1, member);
        }
        Expr::PostUp { lines, .. } => out.mark(lines, 0, Punct::PlusPlus),
        Expr::PostDown { lines, .. } => out.mark(lines, 0, Punct::MinusMinus),
        Expr::Literal { list, .. } => put_boxed_list(out, list),
        Expr::Cast { on, .. } => put_boxed(out, on),
        Expr::Cond { if_true, lines, .. } => {
            put_operand(out, lines, 0, Punct::Question, if_true);
        }
        Expr::Binary {
            op,
            right,
            lines,
            ..
        }
        | Expr::Assign {
            op,
            right,
            lines,
            ..
        } => put_operand(out, lines, 0, *op, right),
        Expr::Comma { right, lines, .. } => put_operand(out, lines, 0, Punct::Comma, right),
        _ => {}
    }
}

// Appends what is left: the third operand of `?:`, or an expression that begins with another token of its
// own.
#[cycle(tree_tokens)]
fn put_rest(out: &mut Printer, expr: &Expr)
    ensures { Appends out.old out.new (parts.rest_tokens (expr_view expr.now)) }
{
    match expr {
        Expr::Name { name, lines } => out.word(lines, 0, name),
        Expr::Number { value, ty, lines } => {
            let kind = TokenKind::Number {
                value: *value,
                ty: *ty,
            };
            out.plain(lines, 0, kind);
        }
        Expr::Letter { value, lines } => out.plain(lines, 0, TokenKind::Letter(*value)),
        Expr::Text { parts, lines } => out.texts(lines, parts),
        Expr::Paren { inner, lines } => {
            put_between(
                out,
                lines,
                Punct::LeftParenthesis,
                inner,
                Punct::RightParenthesis,
            );
        }
        Expr::PreUp { on, lines } => put_operand(out, lines, 0, Punct::PlusPlus, on),
        Expr::PreDown { on, lines } => put_operand(out, lines, 0, Punct::MinusMinus, on),
        Expr::Unary { op, on, lines } => put_operand(out, lines, 0, *op, on),
        Expr::SizeofExpr { on, lines } => {
            out.key(lines, 0, Keyword::Sizeof);
            put_boxed(out, on);
        }
        Expr::SizeofType { of, lines } => {
            out.key(lines, 0, Keyword::Sizeof);
            put_type(out, lines, 1, of);
        }
        Expr::Cond {
            if_false,
            lines,
            ..
        } => put_operand(out, lines, 1, Punct::Colon, if_false),
        _ => {}
    }
}

// Appends a mark and the operand behind it.
#[cycle(tree_tokens)]
fn put_operand(out: &mut Printer, lines: &Items<u32>, index: usize, op: Punct, on: &Boxed<Expr>)
    ensures { Appends out.old out.new (tokens.mark lines.now index op ∷ tokens.expr_tokens (expr_view on.now)) }
{
    out.mark(lines, index, op);
    put_expr(out, on.get());
}

// Appends an expression between two marks.
#[cycle(tree_tokens)]
pub fn put_between(
    out: &mut Printer,
    lines: &Items<u32>,
    opening: Punct,
    inner: &Boxed<Expr>,
    closing: Punct,
)
    ensures { Appends out.old out.new (tokens.mark lines.now 0 opening ∷ (tokens.expr_tokens (expr_view inner.now) ++ tokens.mark lines.now 1 closing ∷ [])) }
{
    out.mark(lines, 0, opening);
    put_expr(out, inner.get());
    out.mark(lines, 1, closing);
}

// Appends a type name in parentheses, of which the opening one has this index.
#[cycle(tree_tokens)]
fn put_type(out: &mut Printer, lines: &Items<u32>, index: usize, name: &Boxed<TypeName>)
    requires { index < 2 }
    ensures { Appends out.old out.new (tokens.mark lines.now index LeftParenthesis ∷ (tokens.type_name_tokens (type_name_view name.now) ++ tokens.mark lines.now (suc index) RightParenthesis ∷ [])) }
{
    out.mark(lines, index, Punct::LeftParenthesis);
    put_type_name(out, name.get());
    out.mark(lines, index + 1, Punct::RightParenthesis);
}

// Appends arguments in parentheses.
#[cycle(tree_tokens)]
#[tactic(auto, using(crate::proofs::PrintingLemmas::printing_loop))]
fn put_args(out: &mut Printer, lines: &Items<u32>, args: &Items<Expr>)
    ensures { Appends out.old out.new (tokens.mark lines.now 0 LeftParenthesis ∷ tokens.listed (tokens.ended RightParenthesis) (tokens.exprs_tokens (exprs (map expr_view args.now))) (drop 1 lines.now)) }
{
    out.mark(lines, 0, Punct::LeftParenthesis);
    let mut ahead = later(lines.as_slice());
    let Some((first, others)) = args.as_slice().split_first() else {
        return out.next(ahead, Punct::RightParenthesis);
    };
    put_expr(out, first);
    for arg in others {
        out.next(ahead, Punct::Comma);
        put_expr(out, arg);
        ahead = later(ahead);
    }
    out.next(ahead, Punct::RightParenthesis);
}

pub fn put_option(out: &mut Printer, expr: &Option<Boxed<Expr>>)
    ensures { Appends out.old out.new (tokens.option_tokens (option_expr (option_map expr_view expr.now))) }
{
    if let Some(expr) = expr {
        put_expr(out, expr.get());
    }
}

// Appends a mark and the expression behind it, or nothing.
#[cycle(tree_tokens)]
pub fn put_prefixed(
    out: &mut Printer,
    lines: &Items<u32>,
    index: usize,
    punct: Punct,
    expr: &Option<Boxed<Expr>>,
)
    ensures { Appends out.old out.new (tokens.prefixed_tokens (tokens.mark lines.now index punct) (option_expr (option_map expr_view expr.now))) }
{
    if let Some(expr) = expr {
        out.mark(lines, index, punct);
        put_expr(out, expr.get());
    }
}
