//! Nodes with their depths.

ghost use Rattle.std.specs.Prelude.{◌≡◌, ◌<◌, ◌^◌, suc, max, IfOk, [], ◌∷◌, map};
ghost use Rattle.straight_parse.specs.Declarators.{measured_declarator};
ghost use Rattle.straight_parse.specs.Exprs.{measured};
ghost use Rattle.straight_tree.specs.Trees as tree;
ghost use Rattle.straight_tree.specs.Views.{declarator_view, expr_view, exprs, param_view};
ghost use Rattle.straight_tree.specs.Views.{params as param_trees};

use crate::listed::Listed;
use crate::measured::Measured;
use cr_base::{Boxed, Items, Memory};
use cx_lex::Punct;
use std::alloc::Global;
use straight_tree::{Declarator, Expr, Param};

/// An expression that was read, and its depth.
pub type Read = Measured<Boxed<Expr>>;

/// A declarator that was read, and its depth.
pub type ReadDeclarator = Measured<Boxed<Declarator>>;

/// One line. Refused only for want of memory.
pub fn one_line(alloc: Global, line: u32) -> Result<Items<u32>, Memory>
    ensures { IfOk result (λ lines. lines ≡ line ∷ []) }
{
    let mut lines = Items::new(alloc);
    lines.push(line)?;
    Ok(lines)
}

/// Two lines. Refused only for want of memory.
pub fn two_lines(alloc: Global, first: u32, last: u32) -> Result<Items<u32>, Memory>
    ensures { IfOk result (λ lines. lines ≡ first ∷ last ∷ []) }
{
    let mut lines = Items::new(alloc);
    lines.push(first)?;
    lines.push(last)?;
    Ok(lines)
}

/// An expression in parentheses.
pub fn paren_of(alloc: Global, first: u32, inner: Read, last: u32) -> Result<Read, Memory>
    requires { inner.depth < 2 ^ 31 }
    ensures { IfOk result (λ r. measured (expr_view r.tree) r.depth ≡ measured (tree.Paren (expr_view inner.tree) (first ∷ last ∷ [])) (suc inner.depth)) }
{
    let depth = inner.depth + 1;
    let inner = inner.tree;
    let lines = two_lines(alloc, first, last)?;
    let tree = Boxed::new(alloc, Expr::Paren { inner, lines })?;
    Ok(Measured { tree, depth })
}

/// A unary operator with its operand.
pub fn unary_of(alloc: Global, op: Punct, line: u32, on: Read) -> Result<Read, Memory>
    requires { on.depth < 2 ^ 31 }
    ensures { IfOk result (λ r. measured (expr_view r.tree) r.depth ≡ measured (tree.Unary op (expr_view on.tree) (line ∷ [])) (suc on.depth)) }
{
    let depth = on.depth + 1;
    let on = on.tree;
    let lines = one_line(alloc, line)?;
    let tree = Boxed::new(alloc, Expr::Unary { op, on, lines })?;
    Ok(Measured { tree, depth })
}

/// A binary operator with its operands.
pub fn binary_of(
    alloc: Global,
    left: Read,
    op: Punct,
    line: u32,
    right: Read,
) -> Result<Read, Memory>
    requires left { left.depth < 2 ^ 31 }
    requires right { right.depth < 2 ^ 31 }
    ensures { IfOk result (λ r. measured (expr_view r.tree) r.depth
        ≡ measured (tree.Binary (expr_view left.tree) op (expr_view right.tree) (line ∷ [])) (suc (max left.depth right.depth))) }
{
    let depth = left.depth.max(right.depth) + 1;
    let lines = one_line(alloc, line)?;
    let node = Expr::Binary {
        left: left.tree,
        op,
        right: right.tree,
        lines,
    };
    let tree = Boxed::new(alloc, node)?;
    Ok(Measured { tree, depth })
}

/// An assignment.
pub fn assign_of(
    alloc: Global,
    left: Read,
    op: Punct,
    line: u32,
    right: Read,
) -> Result<Read, Memory>
    requires left { left.depth < 2 ^ 31 }
    requires right { right.depth < 2 ^ 31 }
    ensures { IfOk result (λ r. measured (expr_view r.tree) r.depth
        ≡ measured (tree.Assign (expr_view left.tree) op (expr_view right.tree) (line ∷ [])) (suc (max left.depth right.depth))) }
{
    let depth = left.depth.max(right.depth) + 1;
    let lines = one_line(alloc, line)?;
    let node = Expr::Assign {
        left: left.tree,
        op,
        right: right.tree,
        lines,
    };
    let tree = Boxed::new(alloc, node)?;
    Ok(Measured { tree, depth })
}

/// A call with its arguments.
pub fn call_of(alloc: Global, of: Read, args: Listed<Expr>) -> Result<Read, Memory>
    requires of { of.depth < 2 ^ 31 }
    requires args { args.depth < 2 ^ 31 }
    ensures { IfOk result (λ r. measured (expr_view r.tree) r.depth
        ≡ measured (tree.Call (expr_view of.tree) (exprs (map expr_view args.list)) args.lines) (suc (max of.depth args.depth))) }
{
    let depth = of.depth.max(args.depth) + 1;
    let Listed { list, lines, .. } = args;
    let node = Expr::Call {
        of: of.tree,
        args: list,
        lines,
    };
    let tree = Boxed::new(alloc, node)?;
    Ok(Measured { tree, depth })
}

/// A function of a declarator, with its parameters.
pub fn function_of(
    alloc: Global,
    of: ReadDeclarator,
    params: Listed<Param>,
) -> Result<ReadDeclarator, Memory>
    requires of { of.depth < 2 ^ 31 }
    requires params { params.depth < 2 ^ 31 }
    ensures { IfOk result (λ r. measured_declarator (declarator_view r.tree) r.depth
        ≡ measured_declarator (tree.Function (declarator_view of.tree) (param_trees (map param_view params.list)) params.lines) (suc (max of.depth params.depth))) }
{
    let depth = of.depth.max(params.depth) + 1;
    let Listed { list, lines, .. } = params;
    let node = Declarator::Function {
        of: of.tree,
        params: list,
        lines,
    };
    let tree = Boxed::new(alloc, node)?;
    Ok(Measured { tree, depth })
}
