//! Typed statements, and the function `main` (ISO C99, 6.8 and 6.9.1).

ghost use Rattle.std.specs.Prelude.{◌≡◌, false, [], ◌∷◌, ◌++◌, map, IfOk};
ghost use Rattle.straight_core.specs.Trees.{stmt, block};
ghost use Rattle.straight_core.specs.Views.{stmts_of, view_function, view_stmt, view_type};
ghost use Rattle.straight_decl.specs.CoreOf as spec;
ghost use Rattle.straight_decl.specs.Given.{Gives, scope_of};
ghost use Rattle.straight_tree.specs.Views.{declarator_view, expr_view, external_view, item_view, items, param_view, params, spec_view, specs_list, specs_view, stmt_view};

use crate::expr::{core_expr, dropped, place_of};
use crate::scope::{Scope, int_type, not_built, place_in};
use cr_base::{Items, Memory, Name, Place, Stop};
use std::alloc::Global;
use straight_core::{CoreStmt, Fun, Linkage, StmtForm, Ty, function_type};
use straight_tree::{BlockItem, Declarator, Expr, External, Param, Spec, Specs, Stmt};

/// An expression statement (6.8.3).
fn core_expression(alloc: Global, unit: u32, scope: &Scope, expr: &Expr) -> Result<CoreStmt, Stop>
    ensures { Gives view_stmt unit result (spec.core_expression unit (scope_of scope.now) (expr_view expr.now)) }
{
    let value = core_expr(alloc, unit, scope, expr)?;
    let value = dropped(alloc, value)?;
    Ok(CoreStmt {
        place: place_of(unit, expr),
        objects: Items::new(alloc),
        form: StmtForm::Expr(value),
    })
}

/// A `return` with a value (6.8.6.4).
fn core_return(
    alloc: Global,
    unit: u32,
    scope: &Scope,
    expr: &Expr,
    lines: &Items<u32>,
) -> Result<CoreStmt, Stop>
    ensures { Gives view_stmt unit result (spec.core_return unit (scope_of scope.now) (expr_view expr.now) lines.now) }
{
    let value = core_expr(alloc, unit, scope, expr)?;
    Ok(CoreStmt {
        place: place_in(unit, lines),
        objects: Items::new(alloc),
        form: StmtForm::Return(Some(value)),
    })
}

/// A statement before the last: an expression statement.
fn core_first(alloc: Global, unit: u32, scope: &Scope, item: &BlockItem) -> Result<CoreStmt, Stop>
    ensures { Gives view_stmt unit result (spec.core_first unit (scope_of scope.now) (item_view item.now)) }
{
    match item {
        BlockItem::Stmt(
            Stmt::Expr {
                expr: Some(expr),
                ..
            },
        ) => core_expression(alloc, unit, scope, expr),
        _ => Err(not_built(unit)),
    }
}

/// The last statement: a `return` with a value.
fn core_last(alloc: Global, unit: u32, scope: &Scope, item: &BlockItem) -> Result<CoreStmt, Stop>
    ensures { Gives view_stmt unit result (spec.core_last unit (scope_of scope.now) (item_view item.now)) }
{
    match item {
        BlockItem::Stmt(
            Stmt::Return {
                value: Some(expr),
                lines,
            },
        ) => core_return(alloc, unit, scope, expr, lines),
        _ => Err(not_built(unit)),
    }
}

/// The statements before the last.
fn core_firsts(
    alloc: Global,
    unit: u32,
    scope: &Scope,
    items: &[BlockItem],
) -> Result<Items<CoreStmt>, Stop>
    ensures { Gives (λ list. map view_stmt list) unit result (spec.core_firsts unit (scope_of scope.now) (map item_view items.now)) }
{
    let mut stmts = Items::new(alloc);
    for item in items {
        let stmt = core_first(alloc, unit, scope, item)?;
        stmts.push(stmt)?;
    }
    Ok(stmts)
}

/// The statements of the body: the last is a `return`.
fn core_stmts(
    alloc: Global,
    unit: u32,
    scope: &Scope,
    firsts: &[BlockItem],
    last: &BlockItem,
) -> Result<Items<CoreStmt>, Stop>
    ensures { Gives (λ list. map view_stmt list) unit result
        (spec.both (spec.core_firsts unit (scope_of scope.now) (map item_view firsts.now)) (spec.core_last unit (scope_of scope.now) (item_view last.now)) (λ more one. more ++ one ∷ [])) }
{
    let mut stmts = core_firsts(alloc, unit, scope, firsts)?;
    let last = core_last(alloc, unit, scope, last)?;
    stmts.push(last)?;
    Ok(stmts)
}

/// The block of these statements.
fn block_of(alloc: Global, place: Place, stmts: Items<CoreStmt>) -> CoreStmt
    ensures { view_stmt result ≡ stmt place [] (block (stmts_of (map view_stmt stmts))) }
{
    CoreStmt {
        place,
        objects: Items::new(alloc),
        form: StmtForm::Block(stmts),
    }
}

/// The statements that stand in the body's block.
fn core_body(
    alloc: Global,
    unit: u32,
    scope: &Scope,
    list: &[BlockItem],
) -> Result<Items<CoreStmt>, Stop>
    ensures { Gives (λ stmts. map view_stmt stmts) unit result (spec.core_stmts unit (scope_of scope.now) (spec.items_in (items (map item_view list.now)))) }
{
    let Some((last, firsts)) = list.split_last() else {
        return Err(not_built(unit));
    };
    core_stmts(alloc, unit, scope, firsts, last)
}

/// The body of `main`, a block.
fn main_body(alloc: Global, unit: u32, scope: &Scope, body: &Stmt) -> Result<CoreStmt, Stop>
    ensures { Gives view_stmt unit result (spec.main_body unit (scope_of scope.now) (stmt_view body.now)) }
{
    let Stmt::Block { items, lines } = body else {
        return Err(not_built(unit));
    };
    let stmts = core_body(alloc, unit, scope, items.as_slice())?;
    Ok(block_of(alloc, place_in(unit, lines), stmts))
}

/// Whether a list of specifiers is the specifier `int` alone.
fn is_only_int(list: &[Spec]) -> bool
    ensures { result ≡ spec.is_only spec.is_int_word (specs_list (map spec_view list.now)) }
{
    match list {
        [] => false,
        [one] => *one == Spec::Int,
        [_, _, ..] => false,
    }
}

fn is_only_void(list: &[Spec]) -> bool
    ensures { result ≡ spec.is_only spec.is_void_word (specs_list (map spec_view list.now)) }
{
    match list {
        [] => false,
        [one] => *one == Spec::Void,
        [_, _, ..] => false,
    }
}

/// Whether the specifiers of a declaration are `int` alone.
pub(crate) fn is_int(specs: &Specs) -> bool
    ensures { result ≡ spec.is_int (specs_view specs.now) }
{
    is_only_int(specs.list.as_slice())
}

fn is_missing(declarator: &Declarator) -> bool
    ensures { result ≡ spec.is_missing (declarator_view declarator.now) }
{
    match declarator {
        Declarator::Missing => true,
        Declarator::Identifier { .. } | Declarator::Function { .. } => false,
    }
}

fn is_void_param(param: &Param) -> bool
    ensures { result ≡ spec.param_is spec.is_void (param_view param.now) }
{
    is_missing(&param.declarator) && is_only_void(param.specs.list.as_slice())
}

fn is_int_param(param: &Param) -> bool
    ensures { result ≡ spec.param_is spec.is_int (param_view param.now) }
{
    is_missing(&param.declarator) && is_only_int(param.specs.list.as_slice())
}

/// Whether the parameters are `(void)`.
fn takes_nothing(list: &[Param]) -> bool
    ensures { result ≡ spec.takes_nothing (params (map param_view list.now)) }
{
    match list {
        [] => false,
        [one] => is_void_param(one),
        [_, _, ..] => false,
    }
}

/// Whether the parameters are `(int)`.
fn takes_int(list: &[Param]) -> bool
    ensures { result ≡ spec.takes_int (params (map param_view list.now)) }
{
    match list {
        [] => false,
        [one] => is_int_param(one),
        [_, _, ..] => false,
    }
}

/// Whether a declarator is that of `main(void)`.
fn declares_main(declarator: &Declarator) -> bool
    ensures { result ≡ spec.declares_function spec.main_name spec.takes_nothing (declarator_view declarator.now) }
{
    let Declarator::Function { of, params, .. } = declarator else {
        return false;
    };
    let Declarator::Identifier { name, .. } = of.get() else {
        return false;
    };
    name.bytes() == b"main".as_slice() && takes_nothing(params.as_slice())
}

/// Whether a declarator is that of `putchar(int)`.
pub(crate) fn declares_putchar(declarator: &Declarator) -> bool
    ensures { result ≡ spec.declares_function spec.putchar_name spec.takes_int (declarator_view declarator.now) }
{
    let Declarator::Function { of, params, .. } = declarator else {
        return false;
    };
    let Declarator::Identifier { name, .. } = of.get() else {
        return false;
    };
    name.bytes() == b"putchar".as_slice() && takes_int(params.as_slice())
}

/// The type of `putchar`.
pub(crate) fn putchar_type(alloc: Global) -> Result<Ty, Memory>
    ensures { IfOk result (λ type. view_type type ≡ spec.putchar_type) }
{
    let mut params = Items::new(alloc);
    params.push(int_type())?;
    function_type(alloc, int_type(), params)
}

/// The name of these bytes.
pub(crate) fn name_of(alloc: Global, bytes: &[u8]) -> Result<Name, Memory>
    ensures { IfOk result (λ name. name ≡ bytes.now) }
{
    let bytes = Items::from_slice(alloc, bytes)?;
    Ok(Name::of(bytes.into_vec()))
}

/// The function `main` with this body.
fn main_function(alloc: Global, unit: u32, has_putchar: bool, body: CoreStmt) -> Result<Fun, Memory>
    ensures { IfOk result (λ main. view_function main ≡ spec.main_function unit has_putchar (view_stmt body)) }
{
    Ok(Fun {
        function: if has_putchar { 1 } else { 0 },
        name: name_of(alloc, b"main")?,
        unit,
        linkage: Linkage::External,
        ty: function_type(alloc, int_type(), Items::new(alloc))?,
        params: Items::new(alloc),
        body,
    })
}

/// The definition `int main(void) { .. }` (6.9.1, 5.1.2.2.1).
pub(crate) fn core_function(
    alloc: Global,
    unit: u32,
    scope: &Scope,
    part: &External,
) -> Result<Fun, Stop>
    ensures { Gives view_function unit result (spec.core_function unit (scope_of scope.now) (external_view part.now)) }
{
    let External::Function {
        specs,
        declarator,
        body,
        ..
    } = part
    else {
        return Err(not_built(unit));
    };
    if !is_int(specs) {
        return Err(not_built(unit));
    }
    if !declares_main(declarator) {
        return Err(not_built(unit));
    }
    let body = main_body(alloc, unit, scope, body)?;
    let main = main_function(alloc, unit, scope.has_putchar, body)?;
    Ok(main)
}
