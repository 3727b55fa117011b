//! The place of a unit at which its expression stands.

ghost use Rattle.std.specs.Prelude.{◌≡◌};
ghost use Rattle.cx_context.specs.Laid.{IsLaid};
ghost use Rattle.cx_scope.specs.Views.{view_scope};

use crate::fault::{RowFault, given};
use crate::meant::{meant_of, name_of};
use cr_base::{Boxed, Int};
use cx_check::{check_expr, constant, read_type};
use cx_context::none_is_laid;
use cx_core::{CoreExpr, Ty};
use cx_layout::Layouts;
use cx_scope::{Declared, Scope};
use cx_tree::{BlockItem, Decl, Declarator, Definition, Expr, External, Spec, Stmt, Unit};
use std::alloc::Global;

/// The value of the expression of a unit.
pub(crate) fn value_in(alloc: Global, unit: &Unit) -> Result<Boxed<CoreExpr>, RowFault> {
    let mut scope = Scope::new(alloc, 0);
    let mut layouts = Layouts::new(alloc);
    none_is_laid();
    let e = expression_behind(alloc, &mut scope, &mut layouts, unit)?;
    given(check_expr(alloc, &mut scope, &mut layouts, e))
}

/// The value of the integer constant expression of a unit.
pub(crate) fn constant_in(alloc: Global, unit: &Unit) -> Result<Int, RowFault> {
    let mut scope = Scope::new(alloc, 0);
    let mut layouts = Layouts::new(alloc);
    none_is_laid();
    let e = expression_behind(alloc, &mut scope, &mut layouts, unit)?;
    given(constant(alloc, &mut scope, &mut layouts, e))
}

// The expression of a unit, once the declarations before its function are in scope.
fn expression_behind<'u>(
    alloc: Global,
    scope: &mut Scope,
    layouts: &mut Layouts,
    unit: &'u Unit,
) -> Result<&'u Expr, RowFault>
    requires { IsLaid (view_scope scope.old).types layouts.old }
    ensures { IsLaid (view_scope scope.new).types layouts.new }
{
    for part in unit.parts.as_slice() {
        match part {
            External::Declaration(one) => declare(alloc, scope, layouts, one.get())?,
            External::Function(one) => {
                begin_body(scope);
                return expression_of(one.get());
            }
        }
    }
    Err(RowFault::Form)
}

// The body of a function begins (ISO C99, 6.2.1p4).
fn begin_body(scope: &mut Scope)
    ensures { (view_scope scope.new).types ≡ (view_scope scope.old).types }
{
    let mark = scope.mark();
    scope.enter(mark);
    scope.inside(true);
}

fn expression_of(definition: &Definition) -> Result<&Expr, RowFault> {
    let Stmt::Block { items, .. } = definition.body.get() else {
        return Err(RowFault::Form);
    };
    let Some(BlockItem::Statement(first)) = items.as_slice().first() else {
        return Err(RowFault::Form);
    };
    let Stmt::Expr { expr: Some(e), .. } = first.get() else {
        return Err(RowFault::Form);
    };
    Ok(e.get())
}

// A declaration comes into scope; its initialisers aren't looked at.
fn declare(
    alloc: Global,
    scope: &mut Scope,
    layouts: &mut Layouts,
    one: &Decl,
) -> Result<(), RowFault>
    requires { IsLaid (view_scope scope.old).types layouts.old }
    ensures { IsLaid (view_scope scope.new).types layouts.new }
{
    let specs = one.specs.as_slice();
    if one.list.is_empty() {
        type_of(alloc, scope, layouts, specs, &Declarator::Missing)?;
    }
    for declared in one.list.as_slice() {
        let declarator = declared.declarator.get();
        let ty = type_of(alloc, scope, layouts, specs, declarator)?;
        add(scope, specs, declarator, ty)?;
    }
    Ok(())
}

fn type_of(
    alloc: Global,
    scope: &mut Scope,
    layouts: &mut Layouts,
    specs: &[Spec],
    declarator: &Declarator,
) -> Result<Boxed<Ty>, RowFault>
    requires { IsLaid (view_scope scope.old).types layouts.old }
    ensures { IsLaid (view_scope scope.new).types layouts.new }
{
    given(read_type(alloc, scope, layouts, specs, declarator))
}

fn add(
    scope: &mut Scope,
    specs: &[Spec],
    declarator: &Declarator,
    ty: Boxed<Ty>,
) -> Result<(), RowFault>
    ensures { (view_scope scope.new).types ≡ (view_scope scope.old).types }
{
    let Some(name) = name_of(declarator) else {
        return Ok(());
    };
    let Ok(name) = name.copy() else {
        return Err(RowFault::Memory);
    };
    let meant = meant_of(specs, scope.next_object(), ty.into_inner());
    match scope.add(Declared { name, meant }) {
        Ok(()) => Ok(()),
        Err(_) => Err(RowFault::Memory),
    }
}
