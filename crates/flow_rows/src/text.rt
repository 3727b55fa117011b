//! The texts of statements.

use cr_base::{Items, Memory, Name};
use row_words::{Answer, Asked};
use rs_tree::{Attribute, Function, Item, Line, Module, RStmt, module_lines};
use std::alloc::Global;

// The lines of a function without a name that has these statements.
fn lines_of(alloc: Global, body: Items<RStmt>) -> Result<Items<Line>, Memory> {
    let function = Function {
        attribute: Attribute::Mangled,
        name: Name::of(Vec::new(alloc)),
        params: Items::new(alloc),
        result: None,
        locals: Items::new(alloc),
        body,
    };
    let mut items = Items::new(alloc);
    items.push(Item::Function(function))?;
    let module = Module {
        name: Name::of(Vec::new(alloc)),
        items,
    };
    module_lines(alloc, &module)
}

/// Writes statements, which stand inside of a function.
pub(crate) fn write_statements(
    alloc: Global,
    body: Items<RStmt>,
    asked: &mut Asked,
    out: &mut Answer,
) {
    if let Some(lines) = asked.had(lines_of(alloc, body)) {
        for line in lines.as_slice() {
            if line.depth > 0 {
                out.separate();
                out.bytes(line.text.bytes());
            }
        }
    }
}
