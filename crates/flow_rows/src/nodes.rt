//! The nodes of a row.

use crate::branches::branch_asked;
use cr_base::{Boxed, Int, Items, Memory, Name};
use flow::FlowNode;
use row_words::{Asked, under_name};
use rs_makers::{binary, call, literal, local, read};
use rs_tree::{IntegerTy, Operator, RExpr, RPath, RStmt};
use std::alloc::Global;

/// What a statement does.
#[derive(Clone, Copy)]
enum Statement {
    /// It calls a function.
    Do,
    /// It stores a number in a local.
    Set,
    /// It adds a number to a local.
    Add,
    /// It takes a number away from a local.
    Sub,
}

const STATEMENTS: [(&str, Statement); 4] = [
    ("do", Statement::Do),
    ("set", Statement::Set),
    ("add", Statement::Add),
    ("sub", Statement::Sub),
];

/// The next word as a name.
pub(crate) fn name_asked(alloc: Global, asked: &mut Asked) -> Name {
    let word = asked.word();
    match asked.had(Vec::from_slice(alloc, word.as_bytes())) {
        Some(bytes) => Name::of(bytes),
        None => Name::of(Vec::new(alloc)),
    }
}

/// A local that is read.
pub(crate) fn value_of(alloc: Global, name: Name) -> Result<Boxed<RExpr>, Memory> {
    let place = local(alloc, name)?;
    read(alloc, place)
}

/// A number as an `i32`.
pub(crate) fn number_of(alloc: Global, number: i32) -> Result<Boxed<RExpr>, Memory> {
    literal(alloc, Int::from(number), IntegerTy::I32)
}

// `crate::m::NAME();`
fn called(alloc: Global, name: Name) -> Result<RStmt, Memory> {
    let home = Name::of(Vec::from_slice(alloc, b"m")?);
    let value = call(alloc, RPath { home, name }, Items::new(alloc))?;
    Ok(RStmt::Eval(value))
}

// `NAME = N;`
fn stored(alloc: Global, name: Name, number: i32) -> Result<RStmt, Memory> {
    let value = number_of(alloc, number)?;
    let place = local(alloc, name)?;
    Ok(RStmt::Assign(place, value))
}

// `NAME = NAME + N;`, or with another operator.
fn changed(alloc: Global, name: Name, operator: Operator, number: i32) -> Result<RStmt, Memory> {
    let left = value_of(alloc, name.copy()?)?;
    let right = number_of(alloc, number)?;
    let value = binary(alloc, left, operator, right)?;
    let place = local(alloc, name)?;
    Ok(RStmt::Assign(place, value))
}

fn statement_asked(alloc: Global, what: Statement, asked: &mut Asked) -> Option<RStmt> {
    let name = name_asked(alloc, asked);
    let made = match what {
        Statement::Do => called(alloc, name),
        Statement::Set => stored(alloc, name, asked.number()),
        Statement::Add => changed(alloc, name, Operator::Add, asked.number()),
        Statement::Sub => changed(alloc, name, Operator::Sub, asked.number()),
    };
    asked.had(made)
}

// The statements that a node begins with.
fn body_asked(alloc: Global, asked: &mut Asked) -> Items<RStmt> {
    let mut body = Items::new(alloc);
    for _word in 0..asked.rest().len() {
        let rest = asked.rest();
        let Some(what) = under_name(&STATEMENTS, asked.word()) else {
            asked.begin(rest);
            return body;
        };
        if let Some(s) = statement_asked(alloc, what, asked) {
            asked.had(body.push(s));
        }
    }
    body
}

/// A node.
pub(crate) fn node_asked(alloc: Global, asked: &mut Asked) -> Option<FlowNode> {
    let body = body_asked(alloc, asked);
    let last = branch_asked(alloc, asked)?;
    Some(FlowNode { body, last })
}
