//! Nodes of expressions that change the scope: names, string literals, calls and `sizeof` (ISO C99, 6.5).

ghost use Rattle.std.specs.Prelude.{◌≡◌, map, false, IfOk, Some, length};
ghost use Rattle.cx_context.specs.Checks.{Checks};
ghost use Rattle.cx_context.specs.Views.{scope_of};
ghost use Rattle.cx_core.specs.Trees.{expr, object, type_of};
ghost use Rattle.cx_core.specs.Views.{view_expr, view_type};
ghost use Rattle.cx_kinds.specs.Known.{IsKnown, types_in};
ghost use Rattle.cx_operands.specs.Views.{view_operand};
ghost use Rattle.cx_rules.specs.Initial.{text_type};
ghost use Rattle.cx_rules.specs.Lines.{expr_line};
ghost use Rattle.cx_rules.specs.Meanings.{size_meaning};
ghost use Rattle.cx_rules.specs.Operands.{a_place};
ghost use Rattle.cx_rules.specs.Pieces.{calls_by_name};
ghost use Rattle.cx_expr_steps.specs.Steps as steps;
ghost use Rattle.cx_tree.specs.Views.{expr_view};

use crate::names::calls_by_name;
use cr_base::{Boxed, Items, Memory, Name, Place, Stop};
use cx_breaks::{call_rule, literal_rule, sizeof_expr_rule};
use cx_context::Context;
use cx_core::Ty;
use cx_forms::object_node;
use cx_kinds::Known;
use cx_nodes::{call_meaning, name_meaning, size_meaning, trailing_types};
use cx_operands::Operand;
use cx_operators::a_place;
use cx_scope::{joined_bytes, text_ty};
use cx_shapes::expr_line;
use cx_tree::Expr;
use cx_type_breaks::name_rule;
use std::alloc::Global;

/// A name (ISO C99, 6.5.1p2).
pub fn name_seen(context: &mut Context, name: &Name, line: u32) -> Result<Operand, Stop>
    ensures { Checks view_operand result (scope_of context.new) (steps.name_seen name.now line (scope_of context.old)) }
{
    let meant = context.ordinary(name);
    if let Some(rule) = name_rule(meant) {
        return Err(context.refused(rule, line));
    }
    let at = context.at_line(line);
    let made = name_meaning(context.alloc(), at, meant)?;
    context.add_use(line, name)?;
    Ok(made)
}

/// Adjacent string literals (ISO C99, 6.4.5).
pub fn text_seen(context: &mut Context, parts: &[Name], line: u32) -> Result<Operand, Stop>
    ensures { Checks view_operand result (scope_of context.new) (steps.text_seen parts.now line (scope_of context.old)) }
{
    let joined = joined_bytes(context.alloc(), parts)?;
    bytes_seen(context, joined.bytes(), line)
}

// A string literal of these bytes.
fn bytes_seen(context: &mut Context, bytes: &[u8], line: u32) -> Result<Operand, Stop>
    ensures { Checks view_operand result (scope_of context.new) (steps.bytes_seen bytes.now line (scope_of context.old)) }
{
    let ty = text_ty(context.alloc(), bytes.len() as u64)?;
    let known = context.known();
    let t = ty.get();
    if let Some(rule) = literal_rule(known, t) {
        return Err(context.refused(rule, line));
    }
    let at = context.at_line(line);
    let number = context.next_object();
    let made = text_meaning(context.alloc(), at, ty, number)?;
    context.add_text(line, bytes)?;
    Ok(made)
}

fn text_meaning(alloc: Global, at: Place, ty: Boxed<Ty>, number: u32) -> Result<Operand, Memory>
    ensures { IfOk result (λ made. view_operand made ≡ a_place false (expr (view_type ty) at (object number))) }
{
    let core = object_node(alloc, ty, at, number)?;
    Ok(a_place(false, core))
}

/// A call (ISO C99, 6.5.2.2).
pub fn call_seen(
    context: &mut Context,
    of: &Expr,
    mentioned: u64,
    callee: Operand,
    args: Items<Operand>,
) -> Result<Operand, Stop>
    ensures { Checks view_operand result (scope_of context.new) (steps.call_seen (expr_line (expr_view of.now)) (calls_by_name (expr_view of.now) (view_operand callee)) mentioned (view_operand callee) (map view_operand args) (scope_of context.old)) }
{
    let by_name = calls_by_name(of, &callee);
    called(context, expr_line(of), by_name, mentioned, callee, args)
}

fn called(
    context: &mut Context,
    line: u32,
    by_name: bool,
    mentioned: u64,
    callee: Operand,
    args: Items<Operand>,
) -> Result<Operand, Stop>
    ensures { Checks view_operand result (scope_of context.new) (steps.call_seen line by_name mentioned (view_operand callee) (map view_operand args) (scope_of context.old)) }
{
    let known = context.known();
    let list = args.as_slice();
    if let Some(rule) = call_rule(known, &callee, list) {
        return Err(context.refused(rule, line));
    }
    let at = context.at_line(line);
    let trailing = trailing_types(context.alloc(), known.types, &callee, list)?;
    let made = call_meaning(context.alloc(), known.types, at, by_name, callee, args)?;
    context.set_called(by_name, mentioned, trailing);
    Ok(made)
}

/// `sizeof` of an expression (ISO C99, 6.5.3.4), before which there were so many literals and mentions.
pub fn sizeof_seen(
    context: &mut Context,
    line: u32,
    literals: u64,
    mentions: u64,
    of: Operand,
) -> Result<Operand, Stop>
    ensures { Checks view_operand result (scope_of context.new) (steps.sized line literals mentions (view_operand of) (scope_of context.old)) }
{
    let known = context.known();
    if let Some(rule) = sizeof_expr_rule(known, &of) {
        return Err(context.refused(rule, line));
    }
    let at = context.at_line(line);
    let made = size_of_operand(context.alloc(), known, at, &of)?;
    context.cut_back(literals, mentions);
    Ok(made)
}

#[tactic(auto, using(crate::proofs::Opened::type_of_view))]
fn size_of_operand(alloc: Global, known: Known, at: Place, of: &Operand) -> Result<Operand, Memory>
    requires { IsKnown known }
    ensures { IfOk result (λ made. view_operand made ≡ size_meaning at (types_in known.entry) (type_of (view_expr of.now.core))) }
{
    size_meaning(alloc, known, at, &of.core.get().ty)
}
