//! Blocks, and selection and iteration statements, that have ended (ISO C99, 6.8.2, 6.8.4, 6.8.5).
#![tactic(auto, unfolding(cx_rules::specs::Readings::check_chain, cx_rules::specs::Readings::check_here, cx_rules::specs::Readings::check_gives, cx_rules::specs::Readings::check_becomes))]

ghost use Rattle.std.specs.Prelude.{◌≡◌, ◌++◌, map, option_map, IfOk};
ghost use Rattle.cx_context.specs.Checks.{Checks};
ghost use Rattle.cx_context.specs.Views.{scope_of};
ghost use Rattle.cx_core.specs.Trees.{block, do_while, for_loop, if_then, while};
ghost use Rattle.cx_core.specs.Views.{otherwise_of, view_expr, view_stmt};
ghost use Rattle.cx_operands.specs.Views.{view_operand};
ghost use Rattle.cx_rules.specs.Operands.{value_of};
ghost use Rattle.cx_rules.specs.UnitWalk.{option_value, stmts_of};
ghost use Rattle.cx_stmt_steps.specs.Steps as steps;
ghost use Rattle.cx_stmt_steps.specs.Views.{view_stated};

use crate::forms::{block_stmt, do_stmt, for_stmt, if_stmt, while_stmt};
use crate::marks::{Marks, whole_ended};
use crate::simple::controls_seen;
use crate::stated::Stated;
use cr_base::{Boxed, Items, Memory, Stop};
use cx_context::Context;
use cx_core::{CoreExpr, CoreStmt};
use cx_operands::Operand;
use cx_values::value_of;
use std::alloc::Global;

/// A selection or iteration statement behind the expression that controls it (ISO C99, 6.8.4, 6.8.5).
#[derive(Drop)]
pub struct Tested {
    pub marks: Marks,
    pub test: Operand,
    /// The objects of the compound literals in that expression.
    pub literals: Items<u32>,
}

/// A `for` statement behind its clauses (ISO C99, 6.8.5.3).
#[derive(Drop)]
pub struct ForBegun {
    pub marks: Marks,
    /// What its first clause says.
    pub first: Items<CoreStmt>,
    /// The objects of its first clause.
    pub objects: Items<u32>,
    pub test: Option<Operand>,
    pub next: Option<Boxed<CoreExpr>>,
    /// The objects of the compound literals in the other clauses.
    pub literals: Items<u32>,
}

/// A block has ended (ISO C99, 6.8.2).
#[tactic(auto, using(crate::proofs::Lists::same_stmts), unfolding(cx_rules::specs::Readings::check_chain, cx_rules::specs::Readings::check_here, cx_rules::specs::Readings::check_gives, cx_rules::specs::Readings::check_becomes))]
pub fn block_ended(
    context: &mut Context,
    marks: Marks,
    line: u32,
    stmts: Items<CoreStmt>,
    objects: Items<u32>,
) -> Result<Stated, Stop>
    ensures { Checks view_stated result (scope_of context.new) (steps.whole_ended marks.count marks.begins line (block (stmts_of (map view_stmt stmts))) objects (scope_of context.old)) }
{
    let at = context.at_line(line);
    let stmt = block_stmt(context.alloc(), at, objects, stmts)?;
    Ok(whole_ended(context, marks, stmt))
}

/// `if` has ended (ISO C99, 6.8.4.1).
pub fn if_ended(
    context: &mut Context,
    begun: Tested,
    line: u32,
    branch: Boxed<CoreStmt>,
    otherwise: Option<Boxed<CoreStmt>>,
) -> Result<Stated, Stop>
    ensures { Checks view_stated result (scope_of context.new) (steps.tested_ended begun.marks.count begun.marks.begins (view_operand begun.test) begun.literals line
        (if_then (value_of (view_operand begun.test)) (view_stmt branch) (otherwise_of (option_map view_stmt otherwise))) (scope_of context.old)) }
{
    controls_seen(context, line, &begun.test)?;
    let test = value_of(context.alloc(), begun.test)?;
    let at = context.at_line(line);
    let stmt = if_stmt(context.alloc(), at, begun.literals, test, branch, otherwise)?;
    Ok(whole_ended(context, begun.marks, stmt))
}

/// `while` has ended (ISO C99, 6.8.5.1).
pub fn while_ended(
    context: &mut Context,
    begun: Tested,
    line: u32,
    body: Boxed<CoreStmt>,
) -> Result<Stated, Stop>
    ensures { Checks view_stated result (scope_of context.new) (steps.tested_ended begun.marks.count begun.marks.begins (view_operand begun.test) begun.literals line
        (while (value_of (view_operand begun.test)) (view_stmt body)) (scope_of context.old)) }
{
    controls_seen(context, line, &begun.test)?;
    let test = value_of(context.alloc(), begun.test)?;
    let at = context.at_line(line);
    let stmt = while_stmt(context.alloc(), at, begun.literals, test, body)?;
    Ok(whole_ended(context, begun.marks, stmt))
}

/// `do` has ended (ISO C99, 6.8.5.2).
pub fn do_ended(
    context: &mut Context,
    begun: Tested,
    line: u32,
    body: Boxed<CoreStmt>,
) -> Result<Stated, Stop>
    ensures { Checks view_stated result (scope_of context.new) (steps.tested_ended begun.marks.count begun.marks.begins (view_operand begun.test) begun.literals line
        (do_while (view_stmt body) (value_of (view_operand begun.test))) (scope_of context.old)) }
{
    controls_seen(context, line, &begun.test)?;
    let test = value_of(context.alloc(), begun.test)?;
    let at = context.at_line(line);
    let stmt = do_stmt(context.alloc(), at, begun.literals, body, test)?;
    Ok(whole_ended(context, begun.marks, stmt))
}

/// `for` has ended (ISO C99, 6.8.5.3).
#[tactic(auto, using(crate::proofs::Lists::same_stmts), unfolding(cx_rules::specs::Readings::check_chain, cx_rules::specs::Readings::check_here, cx_rules::specs::Readings::check_gives, cx_rules::specs::Readings::check_becomes))]
pub fn for_ended(
    context: &mut Context,
    begun: ForBegun,
    line: u32,
    body: Boxed<CoreStmt>,
) -> Result<Stated, Stop>
    ensures { Checks view_stated result (scope_of context.new) (steps.for_ended begun.marks.count begun.marks.begins (option_map view_operand begun.test) (begun.objects ++ begun.literals) line
        (for_loop (stmts_of (map view_stmt begun.first)) (option_value (option_map view_operand begun.test)) (option_map view_expr begun.next) (view_stmt body)) (scope_of context.old)) }
{
    controls_option(context, line, &begun.test)?;
    let test = option_value(context.alloc(), begun.test)?;
    let objects = joined(begun.objects, begun.literals)?;
    let at = context.at_line(line);
    let stmt = for_stmt(
        context.alloc(),
        at,
        objects,
        begun.first,
        test,
        begun.next,
        body,
    )?;
    Ok(whole_ended(context, begun.marks, stmt))
}

fn joined(first: Items<u32>, second: Items<u32>) -> Result<Items<u32>, Memory>
    ensures { IfOk result (λ all. all ≡ first ++ second) }
{
    let mut all = first;
    all.append(second)?;
    Ok(all)
}

// The expression that controls a loop, where there is one.
fn controls_option(context: &Context, line: u32, test: &Option<Operand>) -> Result<(), Stop>
    ensures { Checks (λ (_ : Unit {0}). tt) result (scope_of context.now) (steps.controls_option line (option_map view_operand test.now) (scope_of context.now)) }
{
    match test {
        None => Ok(()),
        Some(one) => controls_seen(context, line, one),
    }
}

fn option_value(alloc: Global, value: Option<Operand>) -> Result<Option<Boxed<CoreExpr>>, Memory>
    ensures { IfOk result (λ made. option_map view_expr made ≡ option_value (option_map view_operand value)) }
{
    match value {
        None => Ok(None),
        Some(one) => Ok(Some(value_of(alloc, one)?)),
    }
}
