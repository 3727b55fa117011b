ghost use Rattle.std.specs.Prelude.{◌≡◌, ◌++◌, ◌∷◌, [], OnOk, map, option_map, drop};
ghost use Rattle.cx_lex.specs.declared.token.Punct.TheVariants.{RightParenthesis};
ghost use Rattle.straight_tree.specs.Tokens as tokens;
ghost use Rattle.straight_tree.specs.Views.{expr_view, exprs};

use crate::expr::Expr;
use crate::tokens::own::{later, put_mark, put_own};
use cr_base::{Items, Memory};
use cx_lex::{Punct, Token, TokenKind};

#[cycle(expr_tokens)]
pub fn put_expr(out: &mut Items<Token>, expr: &Expr) -> Result<(), Memory>
    ensures { OnOk result (out.new ≡ out.old ++ tokens.expr_tokens (expr_view expr.now)) }
{
    match expr {
        Expr::Name { name, lines } => {
            put_own(out, lines.as_slice(), 0, TokenKind::Word(name.copy()?))
        }
        Expr::Number { value, ty, lines } => {
            let kind = TokenKind::Number {
                value: *value,
                ty: *ty,
            };
            put_own(out, lines.as_slice(), 0, kind)
        }
        Expr::Paren { inner, lines } => {
            put_mark(out, lines.as_slice(), 0, Punct::LeftParenthesis)?;
            put_expr(out, inner.get())?;
            put_mark(out, lines.as_slice(), 1, Punct::RightParenthesis)
        }
        Expr::Call { of, args, lines } => {
            put_expr(out, of.get())?;
            put_mark(out, lines.as_slice(), 0, Punct::LeftParenthesis)?;
            put_args(out, args.as_slice(), later(lines.as_slice()))
        }
        Expr::Unary { op, on, lines } => {
            put_mark(out, lines.as_slice(), 0, *op)?;
            put_expr(out, on.get())
        }
        Expr::Binary {
            left,
            op,
            right,
            lines,
        } => {
            put_expr(out, left.get())?;
            put_mark(out, lines.as_slice(), 0, *op)?;
            put_expr(out, right.get())
        }
        Expr::Assign {
            left,
            op,
            right,
            lines,
        } => {
            put_expr(out, left.get())?;
            put_mark(out, lines.as_slice(), 0, *op)?;
            put_expr(out, right.get())
        }
    }
}

// Appends arguments, and the closing parenthesis.
#[cycle(expr_tokens)]
fn put_args(out: &mut Items<Token>, args: &[Expr], lines: &[u32]) -> Result<(), Memory>
    ensures { OnOk result (out.new ≡ out.old ++ tokens.listed RightParenthesis (tokens.exprs_tokens (exprs (map expr_view args.now))) lines.now) }
{
    let Some((first, others)) = args.split_first() else {
        return put_mark(out, lines, 0, Punct::RightParenthesis);
    };
    put_expr(out, first)?;
    let mut ahead = lines;
    for arg in others {
        put_mark(out, ahead, 0, Punct::Comma)?;
        put_expr(out, arg)?;
        ahead = later(ahead);
    }
    put_mark(out, ahead, 0, Punct::RightParenthesis)
}

pub fn put_option(out: &mut Items<Token>, expr: &Option<Expr>) -> Result<(), Memory>
    ensures { OnOk result (out.new ≡ out.old ++ tokens.option_tokens (option_map expr_view expr.now)) }
{
    match expr {
        None => Ok(()),
        Some(expr) => put_expr(out, expr),
    }
}
