//! Typed expressions (ISO C99, 6.5).

ghost use Rattle.std.specs.Prelude.{◌≡◌, [], map, pos, Some, None, IfOk, if◌then◌else◌};
ghost use Rattle.straight_core.specs.Trees.{expr, whole};
ghost use Rattle.straight_core.specs.Views.{view_expr};
ghost use Rattle.straight_decl.specs.CoreOf as spec;
ghost use Rattle.straight_decl.specs.Given.{Gives, scope_of};
ghost use Rattle.straight_tree.specs.Trees as tree;
ghost use Rattle.straight_tree.specs.Views.{expr_view, exprs};

use crate::scope::{Scope, int_type, line_in, not_built, object_named, place_in, void_type};
use cr_base::{Boxed, Int, Items, Memory, Name, Place, Stop};
use cx_lex::{Punct, Ty0};
use std::alloc::Global;
use straight_core::{CoreExpr, Form, Op1, Op2};
use straight_tree::Expr;

/// The line of an expression's first token.
fn first_line(expr: &Expr) -> u32
    ensures { result ≡ spec.first_line (expr_view expr.now) }
{
    match expr {
        Expr::Name { lines, .. }
        | Expr::Number { lines, .. }
        | Expr::Paren { lines, .. }
        | Expr::Unary { lines, .. } => line_in(lines),
        Expr::Call { of, .. } => first_line(of.get()),
        Expr::Binary { left, .. } | Expr::Assign { left, .. } => first_line(left.get()),
    }
}

/// The place of an expression: that of its first token.
pub(crate) fn place_of(unit: u32, expr: &Expr) -> Place
    ensures { result ≡ spec.place_of unit (expr_view expr.now) }
{
    Place {
        unit,
        line: first_line(expr),
    }
}

fn is_int_constant(value: u64, ty: Ty0) -> bool
    ensures { result ≡ spec.is_int_constant value ty }
{
    ty == Ty0::Int && value <= 2_147_483_647
}

/// A constant of type `int` (6.4.4.1).
pub(crate) fn constant(unit: u32, value: u64, ty: Ty0, lines: &Items<u32>) -> Result<CoreExpr, Stop>
    ensures { Gives view_expr unit result (if spec.is_int_constant value ty then Some (expr spec.int_type (spec.place_in unit lines.now) (whole (pos value))) else None) }
{
    if !is_int_constant(value, ty) {
        return Err(not_built(unit));
    }
    Ok(CoreExpr {
        ty: int_type(),
        place: place_in(unit, lines),
        form: Form::Whole(Int::from(value)),
    })
}

/// The lvalue of an object, by its name (6.5.1p2).
fn named_object(unit: u32, scope: &Scope, name: &Name, lines: &Items<u32>) -> Result<CoreExpr, Stop>
    ensures { Gives view_expr unit result (spec.named_object (spec.place_in unit lines.now) name.now (scope_of scope.now)) }
{
    let number = object_named(unit, name, scope)?;
    Ok(CoreExpr {
        ty: int_type(),
        place: place_in(unit, lines),
        form: Form::Object(number),
    })
}

/// The value of an object (6.3.2.1p2).
fn loaded(
    alloc: Global,
    unit: u32,
    scope: &Scope,
    name: &Name,
    lines: &Items<u32>,
) -> Result<CoreExpr, Stop>
    ensures { Gives view_expr unit result (spec.core_expr unit (scope_of scope.now) (tree.Name name.now lines.now)) }
{
    let from = named_object(unit, scope, name, lines)?;
    let from = Boxed::new(alloc, from)?;
    Ok(CoreExpr {
        ty: int_type(),
        place: place_in(unit, lines),
        form: Form::Load(from),
    })
}

/// What stands left of `=`: an object, by its name.
fn target_of(unit: u32, scope: &Scope, expr: &Expr) -> Result<CoreExpr, Stop>
    ensures { Gives view_expr unit result (spec.target_of unit (scope_of scope.now) (expr_view expr.now)) }
{
    match expr {
        Expr::Name { name, lines } => named_object(unit, scope, name, lines),
        _ => Err(not_built(unit)),
    }
}

/// Whether `putchar` is called, and declared.
fn is_putchar(scope: &Scope, expr: &Expr) -> bool
    ensures { result ≡ spec.is_putchar (scope_of scope.now) (expr_view expr.now) }
{
    match expr {
        Expr::Name { name, .. } => scope.has_putchar && name.bytes() == b"putchar".as_slice(),
        _ => false,
    }
}

/// An arithmetic operator with two operands (6.5.5, 6.5.6).
fn operator_of(unit: u32, op: Punct) -> Result<Op2, Stop>
    ensures { Gives (λ operator. operator) unit result (spec.operator_of op) }
{
    match op {
        Punct::Plus => Ok(Op2::Add),
        Punct::Minus => Ok(Op2::Subtract),
        Punct::Star => Ok(Op2::Multiply),
        _ => Err(not_built(unit)),
    }
}

/// Unary `-` of an operand (6.5.3.3).
fn negation_of(
    alloc: Global,
    unit: u32,
    op: Punct,
    value: CoreExpr,
    lines: &Items<u32>,
) -> Result<CoreExpr, Stop>
    ensures { Gives view_expr unit result (spec.negation_of (Some (view_expr value)) (spec.place_in unit lines.now) op) }
{
    let Punct::Minus = op else {
        return Err(not_built(unit));
    };
    let value = Boxed::new(alloc, value)?;
    Ok(CoreExpr {
        ty: int_type(),
        place: place_in(unit, lines),
        form: Form::Unary(Op1::Minus, value),
    })
}

/// An operator between two operands (6.5.5, 6.5.6).
fn binary_of(
    alloc: Global,
    unit: u32,
    op: Punct,
    left: CoreExpr,
    right: CoreExpr,
    place: Place,
) -> Result<CoreExpr, Stop>
    ensures { Gives view_expr unit result (spec.binary_of (Some (view_expr left)) (Some (view_expr right)) place (spec.operator_of op)) }
{
    let operator = operator_of(unit, op)?;
    let left = Boxed::new(alloc, left)?;
    let right = Boxed::new(alloc, right)?;
    Ok(CoreExpr {
        ty: int_type(),
        place,
        form: Form::Binary(operator, left, right),
    })
}

/// A value is stored in what stands left of `=` (6.5.16.1).
fn assignment_of(
    alloc: Global,
    unit: u32,
    op: Punct,
    target: CoreExpr,
    value: CoreExpr,
    place: Place,
) -> Result<CoreExpr, Stop>
    ensures { Gives view_expr unit result (spec.assignment_of (Some (view_expr target)) (Some (view_expr value)) place op) }
{
    let Punct::Equal = op else {
        return Err(not_built(unit));
    };
    let target = Boxed::new(alloc, target)?;
    let value = Boxed::new(alloc, value)?;
    Ok(CoreExpr {
        ty: int_type(),
        place,
        form: Form::Assign(target, value),
    })
}

/// A call of `putchar` with one argument (6.5.2.2).
fn call_of(
    alloc: Global,
    unit: u32,
    known: bool,
    arg: CoreExpr,
    place: Place,
) -> Result<CoreExpr, Stop>
    ensures { Gives view_expr unit result (spec.call_of (Some (view_expr arg)) place known) }
{
    if !known {
        return Err(not_built(unit));
    }
    let mut args = Items::new(alloc);
    args.push(arg)?;
    Ok(CoreExpr {
        ty: int_type(),
        place,
        form: Form::Call(0, args),
    })
}

/// The one argument of a call.
#[cycle(expr)]
fn core_only(alloc: Global, unit: u32, scope: &Scope, args: &[Expr]) -> Result<CoreExpr, Stop>
    ensures { Gives view_expr unit result (spec.core_only unit (scope_of scope.now) (exprs (map expr_view args.now))) }
{
    match args {
        [] => Err(not_built(unit)),
        [arg] => core_expr(alloc, unit, scope, arg),
        [_, _, ..] => Err(not_built(unit)),
    }
}

/// A typed expression, which gives a value of type `int` (6.5).
#[cycle(expr)]
pub(crate) fn core_expr(
    alloc: Global,
    unit: u32,
    scope: &Scope,
    expr: &Expr,
) -> Result<CoreExpr, Stop>
    ensures { Gives view_expr unit result (spec.core_expr unit (scope_of scope.now) (expr_view expr.now)) }
{
    match expr {
        Expr::Name { name, lines } => loaded(alloc, unit, scope, name, lines),
        Expr::Number { value, ty, lines } => constant(unit, *value, *ty, lines),
        Expr::Paren { inner, .. } => core_expr(alloc, unit, scope, inner.get()),
        Expr::Call { of, args, .. } => {
            let arg = core_only(alloc, unit, scope, args.as_slice())?;
            call_of(
                alloc,
                unit,
                is_putchar(scope, of.get()),
                arg,
                place_of(unit, of.get()),
            )
        }
        Expr::Unary { op, on, lines } => {
            let value = core_expr(alloc, unit, scope, on.get())?;
            negation_of(alloc, unit, *op, value, lines)
        }
        Expr::Binary {
            left,
            op,
            right,
            ..
        } => {
            let one = core_expr(alloc, unit, scope, left.get())?;
            let other = core_expr(alloc, unit, scope, right.get())?;
            binary_of(alloc, unit, *op, one, other, place_of(unit, left.get()))
        }
        Expr::Assign {
            left,
            op,
            right,
            ..
        } => {
            let target = target_of(unit, scope, left.get())?;
            let value = core_expr(alloc, unit, scope, right.get())?;
            assignment_of(alloc, unit, *op, target, value, place_of(unit, left.get()))
        }
    }
}

/// An expression whose value isn't taken stands under a conversion to `void` (6.8.3p2).
pub(crate) fn dropped(alloc: Global, value: CoreExpr) -> Result<CoreExpr, Memory>
    ensures { IfOk result (λ e. view_expr e ≡ spec.dropped (view_expr value)) }
{
    let place = value.place;
    let value = Boxed::new(alloc, value)?;
    Ok(CoreExpr {
        ty: void_type(),
        place,
        form: Form::Convert(value),
    })
}
