//! The branches of nodes.

use crate::nodes::{name_asked, number_of, value_of};
use cr_base::{Boxed, Int, Items, Memory, Name};
use flow::{Branch, Case};
use row_words::{Asked, under_name};
use rs_makers::{binary, not};
use rs_tree::{IntegerTy, Operator, RExpr};
use std::alloc::Global;

/// How a node is left.
#[derive(Clone, Copy)]
enum Kind {
    /// To one node.
    Go,
    /// By a test.
    If,
    /// By a test turned round.
    Unless,
    /// By the value of a local.
    Switch,
    /// Out of the function.
    Return,
    /// Out of the function, with a local.
    Give,
}

const KINDS: [(&str, Kind); 6] = [
    ("go", Kind::Go),
    ("if", Kind::If),
    ("unless", Kind::Unless),
    ("switch", Kind::Switch),
    ("return", Kind::Return),
    ("give", Kind::Give),
];

const OPERATORS: [(&str, Operator); 6] = [
    ("==", Operator::Equal),
    ("!=", Operator::NotEqual),
    ("<", Operator::Less),
    ("<=", Operator::LessEqual),
    (">", Operator::Greater),
    (">=", Operator::GreaterEqual),
];

// A local compared with a number.
fn compared(
    alloc: Global,
    name: Name,
    operator: Operator,
    number: i32,
) -> Result<Boxed<RExpr>, Memory> {
    let left = value_of(alloc, name)?;
    let right = number_of(alloc, number)?;
    binary(alloc, left, operator, right)
}

fn test_asked(alloc: Global, asked: &mut Asked) -> Option<Boxed<RExpr>> {
    let name = name_asked(alloc, asked);
    let operator = asked.named(&OPERATORS)?;
    let number = asked.number();
    asked.had(compared(alloc, name, operator, number))
}

fn turned(alloc: Global, test: Option<Boxed<RExpr>>, asked: &mut Asked) -> Option<Boxed<RExpr>> {
    let test = test?;
    asked.had(not(alloc, test))
}

fn if_asked(test: Option<Boxed<RExpr>>, asked: &mut Asked) -> Option<Branch> {
    let test = test?;
    let if_true = asked.number();
    let if_false = asked.number();
    Some(Branch::If(test, if_true, if_false))
}

// The cases that are left.
fn cases_asked(alloc: Global, asked: &mut Asked) -> Items<Case> {
    let mut cases = Items::new(alloc);
    for _case in 0..asked.rest().len() {
        if asked.rest().is_empty() {
            return cases;
        }
        let value: i32 = asked.number();
        let to = asked.number();
        asked.had(cases.push(Case {
            value: Int::from(value),
            to,
        }));
    }
    cases
}

fn switch_asked(alloc: Global, asked: &mut Asked) -> Option<Branch> {
    let name = name_asked(alloc, asked);
    let on = asked.had(value_of(alloc, name))?;
    let other = asked.number();
    let cases = cases_asked(alloc, asked);
    Some(Branch::Switch {
        on,
        by: IntegerTy::I32,
        cases,
        other,
    })
}

fn give_asked(alloc: Global, asked: &mut Asked) -> Option<Branch> {
    let name = name_asked(alloc, asked);
    let value = asked.had(value_of(alloc, name))?;
    Some(Branch::Return(Some(value)))
}

/// A branch.
pub(crate) fn branch_asked(alloc: Global, asked: &mut Asked) -> Option<Branch> {
    match under_name(&KINDS, asked.word()) {
        Some(Kind::Go) => Some(Branch::Go(asked.number())),
        Some(Kind::If) => {
            let test = test_asked(alloc, asked);
            if_asked(test, asked)
        }
        Some(Kind::Unless) => {
            let test = test_asked(alloc, asked);
            let test = turned(alloc, test, asked);
            if_asked(test, asked)
        }
        Some(Kind::Switch) => switch_asked(alloc, asked),
        Some(Kind::Return) => Some(Branch::Return(None)),
        Some(Kind::Give) => give_asked(alloc, asked),
        None => {
            asked.refuse();
            None
        }
    }
}
