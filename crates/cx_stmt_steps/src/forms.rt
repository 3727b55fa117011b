//! Typed statements, made (ISO C99, 6.8). Each answer is refused only for want of memory.

ghost use Rattle.std.specs.Prelude.{◌≡◌, [], None, Some, map, option_map, IfOk};
ghost use Rattle.cx_core.specs.Trees.{stmt, label, case, default, block, expression, if_then, switch, while, do_while, for_loop, goto, continue, break, returns};
ghost use Rattle.cx_core.specs.Views.{view_expr, view_stmt, stmts_of, otherwise_of};

use cr_base::{Boxed, Int, Items, Memory, Name, Place};
use cx_core::{CoreExpr, CoreStmt, StmtForm};
use std::alloc::Global;

/// A statement with a label (ISO C99, 6.8.1).
pub(crate) fn label_stmt(
    alloc: Global,
    place: Place,
    name: Name,
    inner: Boxed<CoreStmt>,
) -> Result<Boxed<CoreStmt>, Memory>
    ensures { IfOk result (λ made. view_stmt made ≡ stmt place [] (label name (view_stmt inner))) }
{
    Boxed::new(
        alloc,
        CoreStmt {
            place,
            objects: Items::new(alloc),
            form: StmtForm::Label(name, inner),
        },
    )
}

/// A statement behind `case` (ISO C99, 6.8.1).
pub(crate) fn case_stmt(
    alloc: Global,
    place: Place,
    value: Int,
    inner: Boxed<CoreStmt>,
) -> Result<Boxed<CoreStmt>, Memory>
    ensures { IfOk result (λ made. view_stmt made ≡ stmt place [] (case value (view_stmt inner))) }
{
    Boxed::new(
        alloc,
        CoreStmt {
            place,
            objects: Items::new(alloc),
            form: StmtForm::Case(value, inner),
        },
    )
}

/// A statement behind `default` (ISO C99, 6.8.1).
pub(crate) fn default_stmt(
    alloc: Global,
    place: Place,
    inner: Boxed<CoreStmt>,
) -> Result<Boxed<CoreStmt>, Memory>
    ensures { IfOk result (λ made. view_stmt made ≡ stmt place [] (default (view_stmt inner))) }
{
    Boxed::new(
        alloc,
        CoreStmt {
            place,
            objects: Items::new(alloc),
            form: StmtForm::Default(inner),
        },
    )
}

/// A block (ISO C99, 6.8.2).
pub fn block_stmt(
    alloc: Global,
    place: Place,
    objects: Items<u32>,
    stmts: Items<CoreStmt>,
) -> Result<Boxed<CoreStmt>, Memory>
    ensures { IfOk result (λ made. view_stmt made ≡ stmt place objects (block (stmts_of (map view_stmt stmts)))) }
{
    Boxed::new(
        alloc,
        CoreStmt {
            place,
            objects,
            form: StmtForm::Block(stmts),
        },
    )
}

/// The null statement (ISO C99, 6.8.3p3).
pub(crate) fn null_stmt(alloc: Global, place: Place) -> Result<Boxed<CoreStmt>, Memory>
    ensures { IfOk result (λ made. view_stmt made ≡ stmt place [] (expression None)) }
{
    Boxed::new(
        alloc,
        CoreStmt {
            place,
            objects: Items::new(alloc),
            form: StmtForm::Expr(None),
        },
    )
}

/// An expression statement (ISO C99, 6.8.3).
pub(crate) fn expression_stmt(
    alloc: Global,
    place: Place,
    value: Boxed<CoreExpr>,
) -> Result<Boxed<CoreStmt>, Memory>
    ensures { IfOk result (λ made. view_stmt made ≡ stmt place [] (expression (Some (view_expr value)))) }
{
    Boxed::new(
        alloc,
        CoreStmt {
            place,
            objects: Items::new(alloc),
            form: StmtForm::Expr(Some(value)),
        },
    )
}

/// `if` (ISO C99, 6.8.4.1).
pub(crate) fn if_stmt(
    alloc: Global,
    place: Place,
    objects: Items<u32>,
    test: Boxed<CoreExpr>,
    branch: Boxed<CoreStmt>,
    otherwise: Option<Boxed<CoreStmt>>,
) -> Result<Boxed<CoreStmt>, Memory>
    ensures { IfOk result (λ made. view_stmt made ≡ stmt place objects (if_then (view_expr test) (view_stmt branch) (otherwise_of (option_map view_stmt otherwise)))) }
{
    Boxed::new(
        alloc,
        CoreStmt {
            place,
            objects,
            form: StmtForm::If(test, branch, otherwise),
        },
    )
}

/// `switch` (ISO C99, 6.8.4.2).
pub(crate) fn switch_stmt(
    alloc: Global,
    place: Place,
    objects: Items<u32>,
    value: Boxed<CoreExpr>,
    body: Boxed<CoreStmt>,
) -> Result<Boxed<CoreStmt>, Memory>
    ensures { IfOk result (λ made. view_stmt made ≡ stmt place objects (switch (view_expr value) (view_stmt body))) }
{
    Boxed::new(
        alloc,
        CoreStmt {
            place,
            objects,
            form: StmtForm::Switch(value, body),
        },
    )
}

/// `while` (ISO C99, 6.8.5.1).
pub(crate) fn while_stmt(
    alloc: Global,
    place: Place,
    objects: Items<u32>,
    test: Boxed<CoreExpr>,
    body: Boxed<CoreStmt>,
) -> Result<Boxed<CoreStmt>, Memory>
    ensures { IfOk result (λ made. view_stmt made ≡ stmt place objects (while (view_expr test) (view_stmt body))) }
{
    Boxed::new(
        alloc,
        CoreStmt {
            place,
            objects,
            form: StmtForm::While(test, body),
        },
    )
}

/// `do` (ISO C99, 6.8.5.2).
pub(crate) fn do_stmt(
    alloc: Global,
    place: Place,
    objects: Items<u32>,
    body: Boxed<CoreStmt>,
    test: Boxed<CoreExpr>,
) -> Result<Boxed<CoreStmt>, Memory>
    ensures { IfOk result (λ made. view_stmt made ≡ stmt place objects (do_while (view_stmt body) (view_expr test))) }
{
    Boxed::new(
        alloc,
        CoreStmt {
            place,
            objects,
            form: StmtForm::Do(body, test),
        },
    )
}

/// `for` (ISO C99, 6.8.5.3).
pub(crate) fn for_stmt(
    alloc: Global,
    place: Place,
    objects: Items<u32>,
    first: Items<CoreStmt>,
    test: Option<Boxed<CoreExpr>>,
    next: Option<Boxed<CoreExpr>>,
    body: Boxed<CoreStmt>,
) -> Result<Boxed<CoreStmt>, Memory>
    ensures { IfOk result (λ made. view_stmt made ≡ stmt place objects (for_loop (stmts_of (map view_stmt first)) (option_map view_expr test) (option_map view_expr next) (view_stmt body))) }
{
    Boxed::new(
        alloc,
        CoreStmt {
            place,
            objects,
            form: StmtForm::For {
                first,
                test,
                next,
                body,
            },
        },
    )
}

/// `goto` (ISO C99, 6.8.6.1).
pub(crate) fn goto_stmt(alloc: Global, place: Place, name: Name) -> Result<Boxed<CoreStmt>, Memory>
    ensures { IfOk result (λ made. view_stmt made ≡ stmt place [] (goto name)) }
{
    Boxed::new(
        alloc,
        CoreStmt {
            place,
            objects: Items::new(alloc),
            form: StmtForm::Goto(name),
        },
    )
}

/// `continue` (ISO C99, 6.8.6.2).
pub(crate) fn continue_stmt(alloc: Global, place: Place) -> Result<Boxed<CoreStmt>, Memory>
    ensures { IfOk result (λ made. view_stmt made ≡ stmt place [] continue) }
{
    Boxed::new(
        alloc,
        CoreStmt {
            place,
            objects: Items::new(alloc),
            form: StmtForm::Continue,
        },
    )
}

/// `break` (ISO C99, 6.8.6.3).
pub(crate) fn break_stmt(alloc: Global, place: Place) -> Result<Boxed<CoreStmt>, Memory>
    ensures { IfOk result (λ made. view_stmt made ≡ stmt place [] break) }
{
    Boxed::new(
        alloc,
        CoreStmt {
            place,
            objects: Items::new(alloc),
            form: StmtForm::Break,
        },
    )
}

/// `return` (ISO C99, 6.8.6.4).
pub(crate) fn return_stmt(
    alloc: Global,
    place: Place,
    value: Option<Boxed<CoreExpr>>,
) -> Result<Boxed<CoreStmt>, Memory>
    ensures { IfOk result (λ made. view_stmt made ≡ stmt place [] (returns (option_map view_expr value))) }
{
    Boxed::new(
        alloc,
        CoreStmt {
            place,
            objects: Items::new(alloc),
            form: StmtForm::Return(value),
        },
    )
}
