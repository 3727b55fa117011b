//! The calls of the checks: an expression, an integer constant expression, the type of a declarator, and an initialiser. Each takes a scope and the
//! layouts of its types, and adds what the tree declares. Of both nothing is said after a refusal, but that they belong together.

ghost use Rattle.std.specs.Prelude.{◌≡◌, map};
ghost use Rattle.cx_walk.specs.Objects.{declared_target};
ghost use Rattle.cx_check.specs.Tells.{Tells, TellsConstant, seen_type};
ghost use Rattle.cx_context.specs.Laid.{IsLaid};
ghost use Rattle.cx_core.specs.Views.{view_expr, view_type};
ghost use Rattle.cx_init.specs.Views.{view_filled, view_stored};
ghost use Rattle.cx_operands.specs.Views.{view_operand};
ghost use Rattle.cx_rules.specs.Lines.{expr_line};
ghost use Rattle.cx_rules.specs.Operands.{value_of};
ghost use Rattle.cx_rules.specs.Pieces.{filled_object};
ghost use Rattle.cx_rules.specs.Units.{seen_expr, seen_initialiser};
ghost use Rattle.cx_scope.specs.Views.{view_scope};
ghost use Rattle.cx_tree.specs.Views.{expr_view, declarator_view, initialiser_view, spec_view, specs as spec_trees};

use cr_base::{Boxed, Int, Refusal, Rule, Stop};
use cx_context::Context;
use cx_core::{CoreExpr, Ty};
use cx_init::{Filled, StoredValues, filled_object};
use cx_kinds::Known;
use cx_layout::Layouts;
use cx_operands::{Operand, operand_constant};
use cx_rules::{expressions_stop, initialisers_stop, type_names_stop};
use cx_scope::Scope;
use cx_shapes::expr_line;
use cx_tree::{Declarator, Expr, Initialiser, Spec};
use cx_values::value_of;
use cx_walk::{expr, stored_for, type_in};
use std::alloc::Global;

/// The value of an expression (ISO C99, 6.5), with every conversion a node: what an lvalue holds, the address of an array's first element
/// and the pointer to a function among them (6.3.2.1). Refused by the first node that breaks a rule, and for want of memory.
pub fn check_expr(
    alloc: Global,
    scope: &mut Scope,
    layouts: &mut Layouts,
    e: &Expr,
) -> Result<Boxed<CoreExpr>, Stop>
    requires laid { IsLaid (view_scope scope.old).types layouts.old }
    ensures tells { Tells (λ made operand. view_expr made ≡ value_of operand) result (view_scope scope.new) (seen_expr (expr_view e.now) (view_scope scope.old)) }
    ensures laid { IsLaid (view_scope scope.new).types layouts.new }
{
    let operand = match expr_walked(alloc, scope, layouts, e) {
        Ok(operand) => operand,
        Err(stop) => return Err(stop),
    };
    Ok(value_of(alloc, operand)?)
}

/// The value of an integer constant expression (ISO C99, 6.6). Refused by the first node that breaks a rule, by K17 at the expression where
/// it is none, and for want of memory.
pub fn constant(
    alloc: Global,
    scope: &mut Scope,
    layouts: &mut Layouts,
    e: &Expr,
) -> Result<Int, Stop>
    requires laid { IsLaid (view_scope scope.old).types layouts.old }
    ensures tells { TellsConstant result (view_scope scope.new) (expr_line (expr_view e.now)) (seen_expr (expr_view e.now) (view_scope scope.old)) }
    ensures laid { IsLaid (view_scope scope.new).types layouts.new }
{
    let operand = match expr_walked(alloc, scope, layouts, e) {
        Ok(operand) => operand,
        Err(stop) => return Err(stop),
    };
    let Some(value) = operand_constant(scope.types(), &operand) else {
        return Err(Stop::Refused(Refusal {
            rule: Rule::K17,
            unit: scope.unit(),
            line: expr_line(e),
        }));
    };
    Ok(value)
}

/// The type that specifiers and a declarator give (ISO C99, 6.7.6); the tags and the enumerators that they declare come into scope.
/// Refused by the first node that breaks a rule, and for want of memory.
pub fn read_type(
    alloc: Global,
    scope: &mut Scope,
    layouts: &mut Layouts,
    list: &[Spec],
    one: &Declarator,
) -> Result<Boxed<Ty>, Stop>
    requires laid { IsLaid (view_scope scope.old).types layouts.old }
    ensures tells { Tells (λ made type. view_type made ≡ type) result (view_scope scope.new)
        (seen_type (spec_trees (map spec_view list.now)) (declarator_view one.now) (view_scope scope.old)) }
    ensures laid { IsLaid (view_scope scope.new).types layouts.new }
{
    let mut context = Context::take(alloc, scope, layouts);
    let found = type_in(&mut context, list, one);
    context.put_back(scope, layouts);
    type_names_stop();
    found
}

/// What an initialiser leaves of an object of a type (ISO C99, 6.7.8): its type, which an array without length gets by it, and the puts
/// in the order of their places. `fixed` asks for constants, as an object that is initialised before the program begins does (6.7.8p4).
/// Refused by the first node that breaks a rule, and for want of memory.
pub fn init(
    alloc: Global,
    ty: &Ty,
    init: &Initialiser,
    scope: &mut Scope,
    layouts: &mut Layouts,
    fixed: bool,
) -> Result<Filled, Stop>
    requires laid { IsLaid (view_scope scope.old).types layouts.old }
    ensures tells { Tells (λ made stored. view_filled made ≡ filled_object (view_scope scope.new).types (view_type ty.now) stored) result (view_scope scope.new)
        (seen_initialiser (declared_target (view_scope scope.old).types fixed (view_type ty.now)) (initialiser_view init.now) (view_scope scope.old)) }
    ensures laid { IsLaid (view_scope scope.new).types layouts.new }
{
    let stored = match stored_walked(alloc, ty, init, scope, layouts, fixed) {
        Ok(stored) => stored,
        Err(stop) => return Err(stop),
    };
    let known = Known {
        types: scope.types(),
        layouts,
    };
    let ty = ty.copy(alloc)?;
    Ok(filled_object(alloc, known, ty, stored)?)
}

// An expression before its value is taken.
fn expr_walked(
    alloc: Global,
    scope: &mut Scope,
    layouts: &mut Layouts,
    e: &Expr,
) -> Result<Operand, Stop>
    requires laid { IsLaid (view_scope scope.old).types layouts.old }
    ensures tells { Tells (λ made operand. view_operand made ≡ operand) result (view_scope scope.new) (seen_expr (expr_view e.now) (view_scope scope.old)) }
    ensures laid { IsLaid (view_scope scope.new).types layouts.new }
{
    let mut context = Context::take(alloc, scope, layouts);
    let found = expr(&mut context, e);
    context.put_back(scope, layouts);
    expressions_stop();
    found
}

// What an initialiser gives the parts of an object, before they are put in order.
fn stored_walked(
    alloc: Global,
    ty: &Ty,
    init: &Initialiser,
    scope: &mut Scope,
    layouts: &mut Layouts,
    fixed: bool,
) -> Result<StoredValues, Stop>
    requires laid { IsLaid (view_scope scope.old).types layouts.old }
    ensures tells { Tells (λ made stored. map view_stored made ≡ stored) result (view_scope scope.new)
        (seen_initialiser (declared_target (view_scope scope.old).types fixed (view_type ty.now)) (initialiser_view init.now) (view_scope scope.old)) }
    ensures laid { IsLaid (view_scope scope.new).types layouts.new }
{
    let mut context = Context::take(alloc, scope, layouts);
    let found = stored_for(&mut context, ty, init, fixed);
    context.put_back(scope, layouts);
    initialisers_stop();
    found
}
