//! The texts of expressions and statements.

use cr_base::{Boxed, Items, Memory, Name};
use row_words::{Answer, Asked};
use rs_tree::{Attribute, Function, Item, Line, Module, RExpr, RStmt, module_lines};
use std::alloc::Global;

// The lines of a function without a name that has these statements.
fn lines_of(alloc: Global, body: Items<RStmt>) -> Result<Items<Line>, Memory> {
    let function = Function {
        attribute: Attribute::Mangled,
        name: Name::of(Vec::new(alloc)),
        params: Items::new(alloc),
        result: None,
        locals: Items::new(alloc),
        body,
    };
    let mut items = Items::new(alloc);
    items.push(Item::Function(function))?;
    let module = Module {
        name: Name::of(Vec::new(alloc)),
        items,
    };
    module_lines(alloc, &module)
}

/// Writes statements, which stand inside of a function.
pub(crate) fn write_statements(
    alloc: Global,
    body: Items<RStmt>,
    asked: &mut Asked,
    out: &mut Answer,
) {
    if let Some(lines) = asked.had(lines_of(alloc, body)) {
        for line in lines.as_slice() {
            if line.depth > 0 {
                out.separate();
                out.bytes(line.text.bytes());
            }
        }
    }
}

// `return e;`, as the only statement of a function.
fn returned(alloc: Global, e: Boxed<RExpr>) -> Result<Items<Line>, Memory> {
    let mut body = Items::new(alloc);
    body.push(RStmt::Return(Some(e)))?;
    lines_of(alloc, body)
}

// Writes what stands between `return ` and `;`.
fn write_returned(text: &[u8], asked: &mut Asked, out: &mut Answer) {
    let bare = text
        .strip_prefix(b"return ")
        .and_then(|rest| rest.strip_suffix(b";"));
    match bare {
        Some(bare) => out.bytes(bare),
        None => asked.refuse(),
    }
}

/// Writes an expression.
pub(crate) fn write_expr(alloc: Global, e: Boxed<RExpr>, asked: &mut Asked, out: &mut Answer) {
    if let Some(lines) = asked.had(returned(alloc, e)) {
        for line in lines.as_slice() {
            if line.depth > 0 {
                write_returned(line.text.bytes(), asked, out);
            }
        }
    }
}
