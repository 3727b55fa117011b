//! Flows: nodes with branches.

use cr_base::{Boxed, Int, Items};
use rs_tree::{IntegerTy, RExpr, RStmt};

/// A value of a switch's operand, and the node to which control goes then.
#[derive(Clone, Copy)]
pub struct Case {
    pub value: Int,
    pub to: u32,
}

/// How control leaves a node: to nodes by their numbers, or out of the function.
#[derive(Drop)]
pub enum Branch {
    /// To one node.
    Go(u32),
    /// To the first node where a test holds, and to the second where it doesn't.
    If(Boxed<RExpr>, u32, u32),
    /// By the value of an operand of an integer type: to the node of the case that has it, or to another.
    Switch {
        on: Boxed<RExpr>,
        by: IntegerTy,
        cases: Items<Case>,
        other: u32,
    },
    /// Out of the function, with its result, if it has one.
    Return(Option<Boxed<RExpr>>),
}

/// A node: its statements run, then its branch.
#[derive(Drop)]
pub struct FlowNode {
    pub body: Items<RStmt>,
    pub last: Branch,
}

/// The flow of a function's body: its nodes, by their numbers from 0 on, and the node that is entered first.
#[derive(Drop)]
pub struct Flow {
    pub nodes: Items<FlowNode>,
    pub entry: u32,
}
