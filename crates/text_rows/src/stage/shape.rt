//! `shape ENTRY | 1 2 | 2 | 0`: the shape of a control flow graph that is entered at the node of this number. Behind
//! it stand, for each node in order, the nodes that its edges go to; nothing stands there for a node without edges, so
//! that the graph of one such node is `shape 0 |`.
//!
//! The answer is `not a flow graph` where the entry or the end of an edge is no node, or a node isn't reached from the
//! entry. Otherwise it is the shape: a node by its number, `(blocks MEMBER ..)`, `(loop HEAD BODY)` or `(dispatch HEAD
//! .. in BODY)`.

use cr_base::{Boxed, Items, Memory};
use reloop::{Graph, Row, Shape, is_flow, shape};
use row_words::{Answer, Asked, RowFault};
use std::alloc::Global;

pub(crate) fn answer(alloc: Global, asked: &mut Asked, out: &mut Answer) {
    let graph = graph(alloc, asked);
    match is_flow(alloc, &graph) {
        Ok(true) => write_made(shape(alloc, &graph), asked, out),
        Ok(false) => out.text("not a flow graph"),
        Err(_) => asked.fail(RowFault::Memory),
    }
}

fn graph(alloc: Global, asked: &mut Asked) -> Graph {
    let entry = asked.number();
    let rows = asked.found(asked.rest().strip_prefix('|'), "");
    Graph {
        next: next(alloc, asked, rows),
        entry,
    }
}

// The rows that these texts give, which `|` separates.
fn next<'a>(alloc: Global, asked: &mut Asked<'a>, rows: &'a str) -> Items<Row> {
    let mut next = Items::new(alloc);
    for row in rows.split('|') {
        asked.begin(row);
        let to = Items::of(asked.numbers(alloc));
        asked.had(next.push(Row { to }));
    }
    next
}

fn write_made(made: Result<Shape, Memory>, asked: &mut Asked, out: &mut Answer) {
    if let Some(shape) = asked.had(made) {
        write_shape(&shape, out);
    }
}

#[cycle(shape_forms)]
fn write_shape(shape: &Shape, out: &mut Answer) {
    match shape {
        Shape::Simple(node) => out.value(*node),
        Shape::Blocks(members) => write_blocks(members.as_slice(), out),
        Shape::Loop { head, body } => {
            out.text("(loop ");
            out.value(*head);
            write_body(body, out);
        }
        Shape::Dispatch { heads, body } => {
            out.text("(dispatch");
            write_heads(heads.as_slice(), out);
            out.text(" in");
            write_body(body, out);
        }
    }
}

#[cycle(shape_forms)]
fn write_blocks(members: &[Shape], out: &mut Answer) {
    out.text("(blocks");
    for member in members {
        out.text(" ");
        write_shape(member, out);
    }
    out.text(")");
}

#[cycle(shape_forms)]
fn write_body(body: &Boxed<Shape>, out: &mut Answer) {
    out.text(" ");
    write_shape(body.get(), out);
    out.text(")");
}

fn write_heads(heads: &[u32], out: &mut Answer) {
    for head in heads {
        out.text(" ");
        out.value(*head);
    }
}
