//! The walk over expressions, specifiers and declarators, which hold one another.
#![tactic(auto, unfolding(cx_rules::specs::Readings::check_chain, cx_rules::specs::Readings::check_gives, cx_rules::specs::Readings::check_here, cx_rules::specs::Readings::check_becomes))]

ghost use Rattle.std.specs.Prelude.{◌≡◌, ◌<ℤ◌, pos, false, [], map, IfOk, option_map};
ghost use Rattle.cx_walk.specs.Walks as walks;
ghost use Rattle.cx_context.specs.Checks.{Checks};
ghost use Rattle.cx_context.specs.Views.{scope_of};
ghost use Rattle.cx_core.specs.Views.{view_type, view_member};
ghost use Rattle.cx_operands.specs.Views.{view_operand};
ghost use Rattle.cx_rules.specs.Shapes.{no_specs_yet};
ghost use Rattle.cx_rules.specs.Units.{check_expr, check_type_name};
ghost use Rattle.cx_scope.specs.Views.{view_param};
ghost use Rattle.cx_shapes.specs.Views.{view_specs, view_shape, view_step};
ghost use Rattle.cx_tree.specs.Views.{expr_view, exprs as expr_trees, option_expr as option_expr_tree, type_name_view, spec_view, specs as spec_trees, member_decl_view, member_decls as member_decl_trees, member_declarator_view, member_declarators as member_declarator_trees, enumerator_view, enumerators as enumerator_trees, declarator_view, brackets_view, param_view as param_tree_view, params as param_trees, initialiser_view, initialiser_list_view, entry_view, entries as entry_trees, designator_view, designators as designator_trees};
ghost use Rattle.cx_tree.specs.Trees.{Enum, Record, Single, some_enumerator_list, some_members};
ghost use Rattle.cx_init.specs.Views.{view_filling, view_stored, view_target};
ghost use Rattle.cx_parts.specs.Views.{view_at};

use crate::declared::derived_from;
use crate::initialisers::is_direct;
use cr_base::{Boxed, Int, Items, Name, Stop};
use cx_context::Context;
use cx_core::{Member, Ty};
use cx_expr_steps::{
    arrow_seen, assign_seen, binary_seen, call_seen, cast_seen, comma_seen, cond_seen, dot_seen,
    index_seen, letter_seen, name_seen, number_seen, sizeof_seen, sizeof_type_seen, step_seen,
    text_seen, unary_seen,
};
use cx_init::{Filling, StoredValues, Target, next_at, object_target, part_target, whole_at};
use cx_init_steps::{
    element_seen, is_text, list_begins, list_given, literal_begins, literal_ended,
    member_designated, text_given, text_parts, value_given,
};
use cx_kept::expressions_keep;
use cx_operands::Operand;
use cx_parts::At;
use cx_rules::SpecsPlace;
use cx_scope::{Members, Param};
use cx_shapes::{
    Shape, Specs, Step, declarator_line, expr_line, own_line, pointer_step, specs_line,
};
use cx_tree::{
    Brackets, Declarator, Designator, Entry, Enumerator, Expr, Initialiser, InitialiserList,
    MemberDecl, MemberDeclarator, Param as ParamTree, Spec, TypeName,
};
use cx_type_steps::{
    array_seen, derives_seen, ends_declarators, ends_decls, enum_ended, enum_use_seen,
    enumerator_seen, identifiers_seen, is_single, member_seen, param_derived, params_ended,
    record_ended, record_use_seen, specs_seen, typedef_seen,
};
use std::mem;

/// An expression (ISO C99, 6.5).
#[cycle(walk)]
pub fn expr(context: &mut Context, e: &Expr) -> Result<Operand, Stop>
    ensures { Checks view_operand result (scope_of context.new) (check_expr (expr_view e.now) (scope_of context.old)) }
{
    match e {
        Expr::Name { name, lines } => name_seen(context, name, own_line(lines)),
        Expr::Number { value, ty, lines } => number_seen(context, *value, *ty, own_line(lines)),
        Expr::Letter { value, lines } => letter_seen(context, *value, own_line(lines)),
        Expr::Text { parts, lines } => text_seen(context, parts.as_slice(), own_line(lines)),
        Expr::Paren { inner, .. } => expr(context, inner.get()),
        Expr::Dot { .. } | Expr::Arrow { .. } | Expr::Unary { .. } => one_form(context, e),
        Expr::PostUp { .. } | Expr::PostDown { .. } | Expr::PreUp { .. } | Expr::PreDown { .. } =>
            step_form(context, e),
        Expr::Index { .. } | Expr::Comma { .. } => two_form(context, e),
        Expr::Binary { .. } | Expr::Assign { .. } => operator_form(context, e),
        Expr::SizeofType { .. } | Expr::Cast { .. } => typed_form(context, e),
        Expr::SizeofExpr { .. } => sizeof_form(context, e),
        Expr::Cond { .. } => cond_form(context, e),
        Expr::Call { .. } => call_form(context, e),
        Expr::Literal { .. } => literal_form(context, e),
    }
}

// A form with one operand.
#[cycle(walk)]
fn one_form(context: &mut Context, e: &Expr) -> Result<Operand, Stop>
    ensures { Checks view_operand result (scope_of context.new) (check_expr (expr_view e.now) (scope_of context.old)) }
{
    match e {
        Expr::Dot { of, member, .. } => {
            let one = expr(context, of.get())?;
            dot_seen(context, expr_line(of.get()), one, member)
        }
        Expr::Arrow { of, member, .. } => {
            let one = expr(context, of.get())?;
            arrow_seen(context, expr_line(of.get()), one, member)
        }
        Expr::Unary { op, on, lines } => {
            let one = expr(context, on.get())?;
            unary_seen(context, own_line(lines), *op, one)
        }
        // No other form comes here.
        _ => Err(Stop::Memory),
    }
}

// `++` or `--`.
#[cycle(walk)]
fn step_form(context: &mut Context, e: &Expr) -> Result<Operand, Stop>
    ensures { Checks view_operand result (scope_of context.new) (check_expr (expr_view e.now) (scope_of context.old)) }
{
    match e {
        Expr::PostUp { of, .. } => {
            let one = expr(context, of.get())?;
            step_seen(context, expr_line(of.get()), true, true, one)
        }
        Expr::PostDown { of, .. } => {
            let one = expr(context, of.get())?;
            step_seen(context, expr_line(of.get()), false, true, one)
        }
        Expr::PreUp { on, lines } => {
            let one = expr(context, on.get())?;
            step_seen(context, own_line(lines), true, false, one)
        }
        Expr::PreDown { on, lines } => {
            let one = expr(context, on.get())?;
            step_seen(context, own_line(lines), false, false, one)
        }
        // No other form comes here.
        _ => Err(Stop::Memory),
    }
}

// An element, or two expressions with a comma between them.
#[cycle(walk)]
fn two_form(context: &mut Context, e: &Expr) -> Result<Operand, Stop>
    ensures { Checks view_operand result (scope_of context.new) (check_expr (expr_view e.now) (scope_of context.old)) }
{
    match e {
        Expr::Index { of, index, .. } => {
            let one = expr(context, of.get())?;
            let other = expr(context, index.get())?;
            index_seen(context, expr_line(of.get()), one, other)
        }
        Expr::Comma { left, right, .. } => {
            let first = expr(context, left.get())?;
            let second = expr(context, right.get())?;
            comma_seen(context, expr_line(left.get()), first, second)
        }
        // No other form comes here.
        _ => Err(Stop::Memory),
    }
}

// An operator or an assignment with two operands.
#[cycle(walk)]
fn operator_form(context: &mut Context, e: &Expr) -> Result<Operand, Stop>
    ensures { Checks view_operand result (scope_of context.new) (check_expr (expr_view e.now) (scope_of context.old)) }
{
    match e {
        Expr::Binary {
            left,
            op,
            right,
            ..
        } => {
            let one = expr(context, left.get())?;
            let other = expr(context, right.get())?;
            binary_seen(context, expr_line(left.get()), *op, one, other)
        }
        Expr::Assign {
            left,
            op,
            right,
            ..
        } => {
            let target = expr(context, left.get())?;
            let value = expr(context, right.get())?;
            assign_seen(context, expr_line(left.get()), *op, target, value)
        }
        // No other form comes here.
        _ => Err(Stop::Memory),
    }
}

// `?:`.
#[cycle(walk)]
fn cond_form(context: &mut Context, e: &Expr) -> Result<Operand, Stop>
    ensures { Checks view_operand result (scope_of context.new) (check_expr (expr_view e.now) (scope_of context.old)) }
{
    match e {
        Expr::Cond {
            condition,
            if_true,
            if_false,
            ..
        } => {
            let test = expr(context, condition.get())?;
            let first = expr(context, if_true.get())?;
            let second = expr(context, if_false.get())?;
            cond_seen(context, expr_line(condition.get()), test, first, second)
        }
        // No other form comes here.
        _ => Err(Stop::Memory),
    }
}

// A call.
#[cycle(walk)]
fn call_form(context: &mut Context, e: &Expr) -> Result<Operand, Stop>
    ensures { Checks view_operand result (scope_of context.new) (check_expr (expr_view e.now) (scope_of context.old)) }
{
    match e {
        Expr::Call { of, args, .. } => {
            let of = of.get();
            let mentioned = context.mention_count();
            let callee = expr(context, of)?;
            let given = exprs(context, args.as_slice())?;
            call_seen(context, of, mentioned, callee, given)
        }
        // No other form comes here.
        _ => Err(Stop::Memory),
    }
}

// Expressions from the left.
#[cycle(walk)]
fn exprs(context: &mut Context, list: &[Expr]) -> Result<Items<Operand>, Stop>
    ensures { Checks (map view_operand) result (scope_of context.new) (walks.exprs_walk (expr_trees (map expr_view list.now)) (scope_of context.old)) }
{
    let mut done = Items::new(context.alloc());
    for one in list {
        let operand = expr(context, one)?;
        done.push(operand)?;
    }
    Ok(done)
}

/// An expression that may be missing.
#[cycle(walk)]
pub fn option_expr(context: &mut Context, e: &Option<Boxed<Expr>>) -> Result<Option<Operand>, Stop>
    ensures { Checks (option_map view_operand) result (scope_of context.new) (walks.option_walk (option_expr_tree (option_map expr_view e.now)) (scope_of context.old)) }
{
    match e {
        None => Ok(None),
        Some(one) => {
            let operand = expr(context, one.get())?;
            Ok(Some(operand))
        }
    }
}

// `sizeof` of an expression.
#[cycle(walk)]
fn sizeof_form(context: &mut Context, e: &Expr) -> Result<Operand, Stop>
    ensures { Checks view_operand result (scope_of context.new) (check_expr (expr_view e.now) (scope_of context.old)) }
{
    match e {
        Expr::SizeofExpr { on, lines } => {
            let on = on.get();
            let literals = context.literal_count();
            let mentions = context.mention_count();
            let one = expr(context, on)?;
            expressions_keep();
            sizeof_seen(context, own_line(lines), literals, mentions, one)
        }
        // No other form comes here.
        _ => Err(Stop::Memory),
    }
}

// A form that names a type.
#[cycle(walk)]
fn typed_form(context: &mut Context, e: &Expr) -> Result<Operand, Stop>
    ensures { Checks view_operand result (scope_of context.new) (check_expr (expr_view e.now) (scope_of context.old)) }
{
    match e {
        Expr::SizeofType { of, lines } => {
            let of = type_name(context, of.get())?;
            sizeof_type_seen(context, own_line(lines), of)
        }
        Expr::Cast { to, on, lines } => {
            let to = type_name(context, to.get())?;
            let value = expr(context, on.get())?;
            cast_seen(context, own_line(lines), to, value)
        }
        // No other form comes here.
        _ => Err(Stop::Memory),
    }
}

/// A type name (ISO C99, 6.7.6).
#[cycle(walk)]
pub fn type_name(context: &mut Context, name: &TypeName) -> Result<Boxed<Ty>, Stop>
    ensures { Checks view_type result (scope_of context.new) (check_type_name (type_name_view name.now) (scope_of context.old)) }
{
    let line = specs_line(name.specs.as_slice());
    let all = specifiers(context, false, name.specs.as_slice())?;
    specs_seen(context, SpecsPlace::Plain, line, &all)?;
    type_behind(context, name.declarator.get(), line, &all)
}

/// The type to which a declarator leads from that of specifiers, which begin on a line (ISO C99, 6.7.5).
#[cycle(walk)]
pub(crate) fn type_behind(
    context: &mut Context,
    one: &Declarator,
    line: u32,
    specs: &Specs,
) -> Result<Boxed<Ty>, Stop>
    ensures { Checks view_type result (scope_of context.new) (walks.type_behind line (view_specs specs.now) (declarator_view one.now) (scope_of context.old)) }
{
    let shape = declarator(context, one)?;
    let from = specs.base_type(context.alloc())?;
    derives_seen(context, declarator_line(line, one), from, &shape)
}

/// Specifiers from the left (ISO C99, 6.7); `alone` where a structure or union without a list is all of its declaration (6.7.2.3p7).
#[cycle(walk)]
pub fn specifiers(context: &mut Context, alone: bool, list: &[Spec]) -> Result<Specs, Stop>
    ensures { Checks view_specs result (scope_of context.new) (walks.specs_walk alone no_specs_yet (spec_trees (map spec_view list.now)) (scope_of context.old)) }
{
    let mut all = Specs::new(context.alloc());
    for one in list {
        spec(context, alone, &mut all, one)?;
    }
    Ok(all)
}

// A specifier.
#[cycle(walk)]
fn spec(context: &mut Context, alone: bool, all: &mut Specs, one: &Spec) -> Result<(), Stop>
    ensures { Checks (λ _. view_specs all.new) result (scope_of context.new) (walks.spec_walk alone (view_specs all.old) (spec_view one.now) (scope_of context.old)) }
{
    match one {
        Spec::Key { word, .. } => {
            all.add_key(*word)?;
            Ok(())
        }
        Spec::Typedef { name, .. } => typedef_seen(context, all, name),
        Spec::Record {
            is_union,
            tag,
            members,
            lines,
        } => match members {
            None => record_use_seen(context, alone, all, *is_union, tag, own_line(lines)),
            Some(list) => record_list(context, list.as_slice(), all, *is_union, tag, lines),
        },
        Spec::Enum {
            tag,
            list,
            lines,
            ..
        } => match list {
            None => enum_use_seen(context, all, tag, own_line(lines)),
            Some(list) => enumerator_list(context, list.as_slice(), all, tag, lines),
        },
    }
}

// A structure or union with a list of members (6.7.2.1).
#[cycle(walk)]
fn record_list(
    context: &mut Context,
    list: &[MemberDecl],
    all: &mut Specs,
    is_union: bool,
    tag: &Option<Name>,
    lines: &Items<u32>,
) -> Result<(), Stop>
    ensures { Checks (λ _. view_specs all.new) result (scope_of context.new) (walks.spec_walk false (view_specs all.old) (Record is_union tag.now (some_members (member_decl_trees (map member_decl_view list.now))) lines.now) (scope_of context.old)) }
{
    let begun = context.begin_record(is_union, tag)?;
    let members = member_decls(context, list)?;
    record_ended(
        context,
        begun,
        all,
        is_union,
        tag,
        own_line(lines),
        members.into_items(),
    )
}

// An enumerated type with a list of enumerators (6.7.2.2).
#[cycle(walk)]
fn enumerator_list(
    context: &mut Context,
    list: &[Enumerator],
    all: &mut Specs,
    tag: &Option<Name>,
    lines: &Items<u32>,
) -> Result<(), Stop>
    ensures { Checks (λ _. view_specs all.new) result (scope_of context.new) (walks.spec_walk false (view_specs all.old) (Enum tag.now (some_enumerator_list (enumerator_trees (map enumerator_view list.now))) false lines.now) (scope_of context.old)) }
{
    let begun = context.begin_enum(tag)?;
    let negative = enumerators(context, list)?;
    enum_ended(context, begun, all, tag, own_line(lines), negative)
}

// The declarations of a list of members.
#[cycle(walk)]
fn member_decls(context: &mut Context, list: &[MemberDecl]) -> Result<Members, Stop>
    ensures { Checks (map view_member) result (scope_of context.new) (walks.member_decls_walk [] (member_decl_trees (map member_decl_view list.now)) (scope_of context.old)) }
{
    let mut members = Members::new(context.alloc());
    for index in 0..list.len() {
        let is_last = ends_decls(list, index);
        member_decl(context, &list[index], is_last, &mut members)?;
    }
    Ok(members)
}

// A declaration of members.
#[cycle(walk)]
fn member_decl(
    context: &mut Context,
    one: &MemberDecl,
    is_last: bool,
    members: &mut Members,
) -> Result<(), Stop>
    ensures { Checks (λ _. map view_member members.new) result (scope_of context.new) (walks.member_decl_walk is_last (map view_member members.old) (member_decl_view one.now) (scope_of context.old)) }
{
    let all = specifiers(context, false, one.specs.as_slice())?;
    specs_seen(
        context,
        SpecsPlace::Plain,
        specs_line(one.specs.as_slice()),
        &all,
    )?;
    let from = all.base_type(context.alloc())?;
    member_declarators(context, one.list.as_slice(), is_last, members, from.get())
}

// The declarators of a declaration of members.
#[cycle(walk)]
fn member_declarators(
    context: &mut Context,
    list: &[MemberDeclarator],
    is_last: bool,
    members: &mut Members,
    from: &Ty,
) -> Result<(), Stop>
    ensures { Checks (λ _. map view_member members.new) result (scope_of context.new) (walks.member_declarators_walk is_last (map view_member members.old) (view_type from.now)
        (member_declarator_trees (map member_declarator_view list.now)) (scope_of context.old)) }
{
    for index in 0..list.len() {
        let ends = ends_declarators(is_last, list, index);
        let one = member_declarator(context, &list[index], ends, members, from)?;
        members.push(one)?;
    }
    Ok(())
}

// A declarator of a member.
#[cycle(walk)]
fn member_declarator(
    context: &mut Context,
    one: &MemberDeclarator,
    is_last: bool,
    members: &Members,
    from: &Ty,
) -> Result<Member, Stop>
    ensures { Checks view_member result (scope_of context.new) (walks.member_declarator_walk is_last (map view_member members.now) (view_type from.now)
        (member_declarator_view one.now) (scope_of context.old)) }
{
    let line = declarator_line(own_line(&one.lines), one.declarator.get());
    let shape = declarator(context, one.declarator.get())?;
    let own = derived_from(context, line, from, &shape)?;
    let width = option_expr(context, &one.width)?;
    member_seen(context, is_last, members, line, shape.name, own, width)
}

// The enumerators of a list; gives whether one was negative.
#[cycle(walk)]
fn enumerators(context: &mut Context, list: &[Enumerator]) -> Result<bool, Stop>
    ensures { Checks (λ negative. negative) result (scope_of context.new) (walks.enumerators_walk (pos 0) false (enumerator_trees (map enumerator_view list.now)) (scope_of context.old)) }
{
    let mut next: Int = 0;
    let mut negative = false;
    for one in list {
        let value = enumerator(context, next, one)?;
        negative = negative || value < 0;
        next = value + 1;
    }
    Ok(negative)
}

// An enumerator; gives its value.
#[cycle(walk)]
fn enumerator(context: &mut Context, next: Int, one: &Enumerator) -> Result<Int, Stop>
    ensures value { Checks (λ value. value) result (scope_of context.new) (walks.enumerator_walk next (enumerator_view one.now) (scope_of context.old)) }
    ensures bound { IfOk result (λ value. value <ℤ pos 2147483648) }
{
    let written = option_expr(context, &one.value)?;
    enumerator_seen(context, &one.name, own_line(&one.lines), next, &written)
}

/// A declarator (ISO C99, 6.7.5).
#[cycle(walk)]
pub fn declarator(context: &mut Context, one: &Declarator) -> Result<Shape, Stop>
    ensures { Checks view_shape result (scope_of context.new) (walks.declarator_walk (declarator_view one.now) (scope_of context.old)) }
{
    match one {
        Declarator::Missing => Ok(Shape::missing(context.alloc())),
        Declarator::Identifier { name, .. } => Ok(Shape::named(context.alloc(), name)?),
        Declarator::Group { inner, .. } => declarator(context, inner.get()),
        Declarator::Pointer { .. } => pointer_declarator(context, one),
        Declarator::Array { .. } => array_declarator(context, one),
        Declarator::Function { .. } => function_declarator(context, one),
        Declarator::Identifiers { of, names, lines } => {
            let shape = declarator(context, of.get())?;
            let line = declarator_line(own_line(lines), of.get());
            identifiers_seen(context, line, names.as_slice(), shape)
        }
    }
}

// A declarator of a pointer.
#[cycle(walk)]
fn pointer_declarator(context: &mut Context, one: &Declarator) -> Result<Shape, Stop>
    ensures { Checks view_shape result (scope_of context.new) (walks.declarator_walk (declarator_view one.now) (scope_of context.old)) }
{
    match one {
        Declarator::Pointer { qualifiers, of, .. } => {
            let shape = declarator(context, of.get())?;
            Ok(shape.behind(pointer_step(qualifiers.as_slice()))?)
        }
        // No other form comes here.
        _ => Err(Stop::Memory),
    }
}

// A declarator of an array.
#[cycle(walk)]
fn array_declarator(context: &mut Context, one: &Declarator) -> Result<Shape, Stop>
    ensures { Checks view_shape result (scope_of context.new) (walks.declarator_walk (declarator_view one.now) (scope_of context.old)) }
{
    match one {
        Declarator::Array {
            of,
            brackets,
            lines,
        } => {
            let shape = declarator(context, of.get())?;
            let line = declarator_line(own_line(lines), of.get());
            let step = length_in(context, line, brackets)?;
            Ok(shape.behind(step)?)
        }
        // No other form comes here.
        _ => Err(Stop::Memory),
    }
}

// A declarator of a function with a list of parameters.
#[cycle(walk)]
fn function_declarator(context: &mut Context, one: &Declarator) -> Result<Shape, Stop>
    ensures { Checks view_shape result (scope_of context.new) (walks.declarator_walk (declarator_view one.now) (scope_of context.old)) }
{
    match one {
        Declarator::Function {
            of,
            params: list,
            variadic,
            ..
        } => {
            let shape = declarator(context, of.get())?;
            let (count, begins) = context.enter();
            let is_only = is_single(list.as_slice(), *variadic);
            let list = params(context, is_only, list.as_slice())?;
            params_ended(context, count, begins, list, *variadic, shape)
        }
        // No other form comes here.
        _ => Err(Stop::Memory),
    }
}

// What stands in the brackets of an array.
#[cycle(walk)]
fn length_in(context: &mut Context, line: u32, one: &Brackets) -> Result<Step, Stop>
    ensures { Checks view_step result (scope_of context.new) (walks.brackets_walk line (brackets_view one.now) (scope_of context.old)) }
{
    match one {
        Brackets::Unsized { qualifiers } => array_seen(context, line, qualifiers.is_empty(), None),
        Brackets::Length { qualifiers, length } => {
            let written = expr(context, length.get())?;
            array_seen(context, line, qualifiers.is_empty(), Some(written))
        }
        Brackets::StaticFirst { length, .. } => {
            let written = expr(context, length.get())?;
            array_seen(context, line, false, Some(written))
        }
        Brackets::StaticLast { length, .. } => {
            let written = expr(context, length.get())?;
            array_seen(context, line, false, Some(written))
        }
        Brackets::Star { .. } => array_seen(context, line, false, None),
    }
}

// Parameters from the left.
#[cycle(walk)]
fn params(context: &mut Context, is_only: bool, list: &[ParamTree]) -> Result<Items<Param>, Stop>
    ensures { Checks (map view_param) result (scope_of context.new) (walks.params_walk is_only (param_trees (map param_tree_view list.now)) (scope_of context.old)) }
{
    let mut done = Items::new(context.alloc());
    let mut alone = is_only;
    for one in list {
        let found = param(context, alone, one)?;
        if let Some(one) = found {
            done.push(one)?;
        }
        alone = false;
    }
    Ok(done)
}

// A parameter.
#[cycle(walk)]
fn param(context: &mut Context, is_only: bool, one: &ParamTree) -> Result<Option<Param>, Stop>
    ensures { Checks (option_map view_param) result (scope_of context.new) (walks.param_walk is_only (param_tree_view one.now) (scope_of context.old)) }
{
    let line = specs_line(one.specs.as_slice());
    let all = specifiers(context, false, one.specs.as_slice())?;
    specs_seen(context, SpecsPlace::Parameter, line, &all)?;
    let own = declarator_line(line, one.declarator.get());
    let shape = declarator(context, one.declarator.get())?;
    param_derived(context, is_only, line, own, &all, shape)
}

// A compound literal.
#[cycle(walk)]
fn literal_form(context: &mut Context, e: &Expr) -> Result<Operand, Stop>
    ensures { Checks view_operand result (scope_of context.new) (check_expr (expr_view e.now) (scope_of context.old)) }
{
    match e {
        Expr::Literal { of, list, lines } => {
            let ty = type_name(context, of.get())?;
            literal_of(context, list.get(), own_line(lines), ty)
        }
        // No other form comes here.
        _ => Err(Stop::Memory),
    }
}

// The list of a compound literal of a type.
#[cycle(walk)]
fn literal_of(
    context: &mut Context,
    list: &InitialiserList,
    line: u32,
    ty: Boxed<Ty>,
) -> Result<Operand, Stop>
    ensures { Checks view_operand result (scope_of context.new) (walks.literal_walk (view_type ty) line (initialiser_list_view list.now) (scope_of context.old)) }
{
    let is_inside = context.is_inside();
    let target = object_target(context.alloc(), !is_inside, ty.get())?;
    let begun = literal_begins(context, ty.get())?;
    let empty = StoredValues::new(context.alloc());
    let stored = initialiser_list(context, list, &target, empty)?;
    literal_ended(context, begun, line, ty, stored)
}

/// A list in braces (ISO C99, 6.7.8).
#[cycle(walk)]
pub(crate) fn initialiser_list(
    context: &mut Context,
    list: &InitialiserList,
    target: &Target,
    stored: StoredValues,
) -> Result<StoredValues, Stop>
    ensures { Checks (map view_stored) result (scope_of context.new) (walks.list_walk (view_target target.now) (map view_stored stored) (initialiser_list_view list.now) (scope_of context.old)) }
{
    let entries = list.entries.as_slice();
    let mut filling = list_begins(context, target, entries, stored)?;
    entries_given(context, entries, target, &mut filling)?;
    Ok(filling.stored)
}

// Entries of a list from the left.
#[cycle(walk)]
fn entries_given(
    context: &mut Context,
    list: &[Entry],
    target: &Target,
    filling: &mut Filling,
) -> Result<(), Stop>
    ensures { Checks (λ _. map view_stored filling.new.stored) result (scope_of context.new) (walks.entries_walk (view_target target.now) (view_filling filling.old) (entry_trees (map entry_view list.now)) (scope_of context.old)) }
{
    for one in list {
        entry_given(context, one, target, filling)?;
    }
    Ok(())
}

// An entry of a list.
#[cycle(walk)]
#[tactic(auto, using(crate::proofs::Forms::entry_is), unfolding(cx_rules::specs::Readings::check_chain, cx_rules::specs::Readings::check_gives, cx_rules::specs::Readings::check_here, cx_rules::specs::Readings::check_becomes))]
fn entry_given(
    context: &mut Context,
    one: &Entry,
    target: &Target,
    filling: &mut Filling,
) -> Result<(), Stop>
    ensures { Checks (λ _. view_filling filling.new) result (scope_of context.new) (walks.entry_walk (view_target target.now) (view_filling filling.old) (entry_view one.now) (scope_of context.old)) }
{
    let at = entry_at(context, one, target, filling)?;
    given(context, one.init.get(), target, &at, filling)
}

// The part that an entry of a list is for.
#[cycle(walk)]
fn entry_at(
    context: &mut Context,
    one: &Entry,
    target: &Target,
    filling: &Filling,
) -> Result<Option<At>, Stop>
    ensures { Checks (option_map view_at) result (scope_of context.new) (walks.entry_part (view_target target.now) (view_filling filling.now) (entry_view one.now) (scope_of context.old)) }
{
    let list = one.designators.as_slice();
    if is_direct(list) {
        return Ok(next_at(context.alloc(), filling)?);
    }
    let whole = whole_at(context.alloc(), target)?;
    designators(context, list, whole)
}

// Designators from the left, each from where the one before leads.
#[cycle(walk)]
fn designators(
    context: &mut Context,
    list: &[Designator],
    from: Option<At>,
) -> Result<Option<At>, Stop>
    ensures { Checks (option_map view_at) result (scope_of context.new) (walks.designators_walk (option_map view_at from) (designator_trees (map designator_view list.now)) (scope_of context.old)) }
{
    let mut at = from;
    for one in list {
        at = designator(context, one, &at)?;
    }
    Ok(at)
}

// A designator.
#[cycle(walk)]
fn designator(context: &mut Context, one: &Designator, at: &Option<At>) -> Result<Option<At>, Stop>
    ensures { Checks (option_map view_at) result (scope_of context.new) (walks.designator_walk (option_map view_at at.now) (designator_view one.now) (scope_of context.old)) }
{
    match one {
        Designator::Element { at: index, lines } => {
            let value = expr(context, index.get())?;
            element_seen(context, own_line(lines), at, value)
        }
        Designator::Member { name, lines } => member_designated(context, own_line(lines), at, name),
    }
}

// What is given for a part.
#[cycle(walk)]
fn given(
    context: &mut Context,
    init: &Initialiser,
    target: &Target,
    at: &Option<At>,
    filling: &mut Filling,
) -> Result<(), Stop>
    ensures { Checks (λ _. view_filling filling.new) result (scope_of context.new) (walks.given_walk (view_target target.now) (option_map view_at at.now) (view_filling filling.old) (initialiser_view init.now) (scope_of context.old)) }
{
    match init {
        Initialiser::Single(value) => single_given(context, value.get(), target, at, filling),
        Initialiser::Braced(list) => {
            let inner = part_target(context.alloc(), target, at.as_ref())?;
            let empty = StoredValues::new(context.alloc());
            let earlier = mem::replace(&mut filling.stored, empty);
            let stored = initialiser_list(context, list.get(), &inner, earlier)?;
            list_given(context, target, at, stored, filling)
        }
    }
}

// A value that is given for a part.
#[cycle(walk)]
fn single_given(
    context: &mut Context,
    value: &Expr,
    target: &Target,
    at: &Option<At>,
    filling: &mut Filling,
) -> Result<(), Stop>
    ensures { Checks (λ _. view_filling filling.new) result (scope_of context.new) (walks.given_walk (view_target target.now) (option_map view_at at.now) (view_filling filling.old) (Single (expr_view value.now)) (scope_of context.old)) }
{
    let line = expr_line(value);
    if is_text(value) {
        return text_given(context, line, target, at, text_parts(value), filling);
    }
    let one = expr(context, value)?;
    value_given(context, line, target, at, one, filling)
}
