//! Places of the parts of a statement (ISO C99, 6.8).

ghost use Rattle.std.specs.Prelude.{◌≡◌, ◌∷◌, drop, map, IfOk, option_map};
ghost use Rattle.build_flow_instrs.specs.Views.{place_view};
ghost use Rattle.build_flow_nodes.specs.Builder as builder;
ghost use Rattle.cx_core.specs.Views.{otherwise_of, stmts_of, view_expr, view_stmt};

use crate::labels::{body_number, part_number};
use build_flow_instrs::{FlowPlace, copy_place, part_path, test_at, third_at};
use cr_base::Memory;
use cx_core::{CoreExpr, CoreStmt};
use std::alloc::Global;

/// The place of a part of a statement.
pub(crate) fn part_place(alloc: Global, index: u32, path: &[u32]) -> Result<FlowPlace, Memory>
    ensures { IfOk result (λ made. place_view made ≡ builder.statement_at (index ∷ path.now)) }
{
    Ok(FlowPlace::Statement(part_path(alloc, index, path)?))
}

/// The place of an `else`, or of what follows.
pub(crate) fn else_place(
    alloc: Global,
    otherwise: Option<&CoreStmt>,
    path: &[u32],
    place: &FlowPlace,
) -> Result<FlowPlace, Memory>
    ensures { IfOk result (λ made. place_view made ≡ builder.else_place (otherwise_of (option_map (λ one. view_stmt one.now) otherwise.entry)) path.now (place_view place.now)) }
{
    match otherwise {
        Some(_) => part_place(alloc, 1, path),
        None => copy_place(alloc, place),
    }
}

/// The place of the statement with an index in a list, or of what follows the list.
pub(crate) fn next_place(
    alloc: Global,
    stmts: &[CoreStmt],
    index: usize,
    path: &[u32],
    place: &FlowPlace,
) -> Result<FlowPlace, Memory>
    ensures { IfOk result (λ made. place_view made ≡ builder.first_place (stmts_of (map view_stmt (drop index stmts.now))) index path.now (place_view place.now)) }
{
    if index < stmts.len() {
        let number = part_number(index)?;
        part_place(alloc, number, path)
    } else {
        copy_place(alloc, place)
    }
}

/// The head of a `for`: its condition, or its body where it has none.
pub(crate) fn head_place(
    alloc: Global,
    test: Option<&CoreExpr>,
    first: &[CoreStmt],
    path: &[u32],
) -> Result<FlowPlace, Memory>
    ensures { IfOk result (λ made. place_view made ≡ builder.head_of (option_map (λ one. view_expr one.now) test.entry) (stmts_of (map view_stmt first.now)) path.now) }
{
    match test {
        Some(_) => test_at(alloc, path),
        None => part_place(alloc, body_number(first)?, path),
    }
}

/// The end of a turn of a `for`.
pub(crate) fn turn_place(
    alloc: Global,
    next: Option<&CoreExpr>,
    head: &FlowPlace,
    path: &[u32],
) -> Result<FlowPlace, Memory>
    ensures { IfOk result (λ made. place_view made ≡ builder.turn_place (option_map (λ one. view_expr one.now) next.entry) (place_view head.now) path.now) }
{
    match next {
        Some(_) => third_at(alloc, path),
        None => copy_place(alloc, head),
    }
}
