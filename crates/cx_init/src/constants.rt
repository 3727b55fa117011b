//! Constants that initialise objects before the program begins (ISO C99, 6.6p7 to p9, 6.7.8p4).

ghost use Rattle.std.specs.Prelude.{◌≡◌, ◌&&◌, ◌||◌, true, map};
ghost use Rattle.std.specs.List.{list_any};
ghost use Rattle.cx_core.specs.Views.{view_expr, view_object};
ghost use Rattle.cx_init.specs.Constants.{adds};
ghost use Rattle.cx_operands.specs.Views.{view_operand};
ghost use Rattle.cx_rules.specs.Initial.{is_initial, is_initial_pointer, is_fixed};
ghost use Rattle.cx_rules.specs.Operands.{value_of, value_by};
ghost use Rattle.cx_rules.specs.Pieces.{may_initialise, is_static_object, made_static, object_static, has_linkage};
ghost use Rattle.cx_scope.specs.Views.{view_scope, view_made};

use cx_core::{CoreExpr, CoreObject, Form, Linkage, Op2};
use cx_kinds::{is_array, is_pointer};
use cx_operands::{Operand, constant_of};
use cx_rules::OperandKind;
use cx_scope::{Made, Scope};

/// Whether the value of an operand may initialise an object: any may where the object isn't static, and else a constant (ISO C99,
/// 6.7.8p4).
pub fn may_initialise(scope: &Scope, is_static: bool, value: &Operand) -> bool
    ensures { result ≡ may_initialise (view_scope scope.now) is_static (value_of (view_operand value.now)) }
{
    !is_static || is_initial_value(scope, value.kind, value.core.get())
}

fn is_initial_value(scope: &Scope, kind: OperandKind, core: &CoreExpr) -> bool
    ensures { result ≡ is_initial (view_scope scope.now).types (is_static_object (view_scope scope.now)) (value_by kind (view_expr core.now)) }
{
    match kind {
        OperandKind::Place => is_array(&core.ty) && is_fixed(scope, core),
        OperandKind::VoidPlace => false,
        OperandKind::Value | OperandKind::Function => is_initial(scope, core),
    }
}

// An integer constant, or a pointer: null, an address constant, or one of these plus or minus an integer constant.
#[cycle(initial)]
#[tactic(auto, using(crate::proofs::Initials::initial_by))]
fn is_initial(scope: &Scope, e: &CoreExpr) -> bool
    ensures { result ≡ is_initial (view_scope scope.now).types (is_static_object (view_scope scope.now)) (view_expr e.now) }
{
    if constant_of(scope.types(), e).is_some() {
        return true;
    }
    is_initial_pointer(scope, e)
}

// A pointer of such a form.
#[cycle(initial)]
#[tactic(auto, using(crate::proofs::Initials::sum_by))]
fn is_initial_pointer(scope: &Scope, e: &CoreExpr) -> bool
    ensures { result ≡ is_initial_pointer (view_scope scope.now).types (is_static_object (view_scope scope.now)) (view_expr e.now) }
{
    if !is_pointer(&e.ty) {
        return false;
    }
    match &e.form {
        Form::Null => true,
        Form::Code(_) => true,
        Form::Address(of) => is_fixed(scope, of.get()),
        Form::Convert(value) => is_initial_pointer(scope, value.get()),
        Form::Binary(op, left, right) => {
            adds(*op) && is_initial(scope, left.get()) && is_initial(scope, right.get())
        }
        _ => false,
    }
}

// An lvalue with a constant address.
#[cycle(initial)]
fn is_fixed(scope: &Scope, e: &CoreExpr) -> bool
    ensures { result ≡ is_fixed (view_scope scope.now).types (is_static_object (view_scope scope.now)) (view_expr e.now) }
{
    match &e.form {
        Form::Object(number) => is_static_object(scope, *number),
        Form::Deref(from) => is_initial(scope, from.get()),
        Form::Member(of, _) => is_fixed(scope, of.get()),
        _ => false,
    }
}

fn adds(op: Op2) -> bool
    ensures { result ≡ adds op }
{
    matches!(op, Op2::Add | Op2::Subtract)
}

// Whether an object lives as long as the program (6.2.4p3). Objects get their numbers in turn, so one that lives so long stands where a
// search by halves looks for its number, and only a number that no such object has there is sought among all.
fn is_static_object(scope: &Scope, number: u32) -> bool
    ensures { result ≡ is_static_object (view_scope scope.now) number }
{
    if finds_made(scope.literals(), number) {
        return true;
    }
    if finds_object(scope.objects(), number) {
        return true;
    }
    if any_made(scope.literals(), number) {
        return true;
    }
    any_object(scope.objects(), number)
}

// Whether a literal with a number stands where it would in the order of numbers, and lives as long as the program.
fn finds_made(literals: &[Made], number: u32) -> bool
    ensures { result ≡ true → list_any (made_static number) (map view_made literals.now) ≡ true }
{
    let index = literals.partition_point(|made| made.object < number);
    match literals.get(index) {
        None => false,
        Some(made) => made_static(made, number),
    }
}

// Whether an object with a number stands where it would in the order of numbers, and lives as long as the program.
fn finds_object(objects: &[CoreObject], number: u32) -> bool
    ensures { result ≡ true → list_any (object_static number) (map view_object objects.now) ≡ true }
{
    let index = objects.partition_point(|one| one.object < number);
    match objects.get(index) {
        None => false,
        Some(one) => object_static(one, number),
    }
}

fn any_made(literals: &[Made], number: u32) -> bool
    ensures { result ≡ list_any (made_static number) (map view_made literals.now) }
{
    for made in literals {
        if made_static(made, number) {
            return true;
        }
    }
    false
}

fn made_static(made: &Made, number: u32) -> bool
    ensures { result ≡ made_static number (view_made made.now) }
{
    made.object == number && made.fixed.is_some()
}

fn any_object(objects: &[CoreObject], number: u32) -> bool
    ensures { result ≡ list_any (object_static number) (map view_object objects.now) }
{
    for one in objects {
        if object_static(one, number) {
            return true;
        }
    }
    false
}

fn object_static(one: &CoreObject, number: u32) -> bool
    ensures { result ≡ object_static number (view_object one.now) }
{
    one.object == number && (has_linkage(one.linkage) || one.puts.is_some())
}

fn has_linkage(linkage: Linkage) -> bool
    ensures { result ≡ has_linkage linkage }
{
    match linkage {
        Linkage::External | Linkage::Internal => true,
        Linkage::Nothing => false,
    }
}
