//! What a row asks.

use crate::nodes::node_asked;
use crate::text::write_statements;
use cr_base::{Items, Memory};
use emit::emit;
use flow::{Flow, targets_of};
use reloop::{Graph, Row, is_flow, shape};
use row_words::{Answer, Answers, Asked, RowFault, first_step, under_name};
use rs_tree::RStmt;
use std::alloc::Global;

#[derive(Clone, Copy)]
enum Stage {
    /// The lines of a body.
    Body,
}

const STAGES: [(&str, Stage); 1] = [("body", Stage::Body)];

/// All stages.
#[derive(Clone, Copy)]
pub struct Stages;

impl Answers for Stages {
    fn answer(&self, alloc: Global, stage: &str, asked: &mut Asked<'_>, out: &mut Answer) {
        match under_name(&STAGES, stage) {
            Some(Stage::Body) => body(alloc, asked, out),
            None => asked.fail(RowFault::NoStage),
        }
    }
}

// The flow of the nodes of a row.
fn flow_asked(alloc: Global, asked: &mut Asked) -> Flow {
    let mut nodes = Items::new(alloc);
    for _node in 0..asked.rest().len() {
        if asked.rest().is_empty() {
            break;
        }
        let step = first_step(asked);
        let others = asked.rest();
        asked.begin(step);
        if let Some(node) = node_asked(alloc, asked) {
            asked.had(nodes.push(node));
        }
        asked.end();
        asked.begin(others);
    }
    Flow { nodes, entry: 0 }
}

// The graph of a flow, whose targets need not be nodes.
fn graph_of(alloc: Global, flow: &Flow) -> Result<Graph, Memory> {
    let mut next = Items::new(alloc);
    for number in 0..flow.nodes.len() {
        let Ok(number) = u32::try_from(number) else {
            return Err(Memory);
        };
        let to = targets_of(alloc, flow, number)?;
        next.push(Row { to })?;
    }
    Ok(Graph {
        next,
        entry: flow.entry,
    })
}

// The body of a flow, or None where it is none: its targets aren't nodes, or not each node is reached.
fn body_of(alloc: Global, flow: &Flow) -> Result<Option<Items<RStmt>>, Memory> {
    let graph = graph_of(alloc, flow)?;
    if !is_flow(alloc, &graph)? {
        return Ok(None);
    }
    let shape = shape(alloc, &graph)?;
    Ok(Some(emit(alloc, flow, &shape)?))
}

fn body(alloc: Global, asked: &mut Asked, out: &mut Answer) {
    let flow = flow_asked(alloc, asked);
    match body_of(alloc, &flow) {
        Ok(Some(made)) => write_statements(alloc, made, asked, out),
        Ok(None) => out.text("not a flow graph"),
        Err(_) => asked.fail(RowFault::Memory),
    }
}
