ghost use Rattle.std.specs.Prelude.{◌≡◌, ◌++◌, ◌∷◌, [], OnOk, map};
ghost use Rattle.straight_tree.specs.Tokens as tokens;
ghost use Rattle.straight_tree.specs.Views.{stmt_view, item_view, items};

use crate::stmt::{BlockItem, Stmt};
use crate::tokens::exprs::put_option;
use crate::tokens::own::{put_key, put_mark};
use cr_base::{Items, Memory};
use cx_lex::{Keyword, Punct, Token};

#[cycle(stmt_tokens)]
pub fn put_stmt(out: &mut Items<Token>, stmt: &Stmt) -> Result<(), Memory>
    ensures { OnOk result (out.new ≡ out.old ++ tokens.stmt_tokens (stmt_view stmt.now)) }
{
    match stmt {
        Stmt::Block { items, lines } => {
            put_mark(out, lines.as_slice(), 0, Punct::LeftBrace)?;
            put_items(out, items.as_slice())?;
            put_mark(out, lines.as_slice(), 1, Punct::RightBrace)
        }
        Stmt::Expr { expr, lines } => {
            put_option(out, expr)?;
            put_mark(out, lines.as_slice(), 0, Punct::Semicolon)
        }
        Stmt::Return { value, lines } => {
            put_key(out, lines.as_slice(), 0, Keyword::Return)?;
            put_option(out, value)?;
            put_mark(out, lines.as_slice(), 1, Punct::Semicolon)
        }
    }
}

#[cycle(stmt_tokens)]
fn put_item(out: &mut Items<Token>, item: &BlockItem) -> Result<(), Memory>
    ensures { OnOk result (out.new ≡ out.old ++ tokens.item_tokens (item_view item.now)) }
{
    match item {
        BlockItem::Stmt(stmt) => put_stmt(out, stmt),
    }
}

#[cycle(stmt_tokens)]
fn put_items(out: &mut Items<Token>, list: &[BlockItem]) -> Result<(), Memory>
    ensures { OnOk result (out.new ≡ out.old ++ tokens.joined (tokens.items_tokens (items (map item_view list.now)))) }
{
    for item in list {
        put_item(out, item)?;
    }
    Ok(())
}
