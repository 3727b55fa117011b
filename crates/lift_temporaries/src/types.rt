//! The types of the temporaries of an expression, in the order of their numbers (ISO C99, 6.5). The walks are refused only for want of memory.

ghost use Rattle.std.specs.Prelude.{◌≡◌, true, false, ◌++◌, map, OnOk};
ghost use Rattle.cx_core.specs.Views.{exprs_of, puts_of, view_expr, view_put};
ghost use Rattle.lift_exprs.specs.Temporaries as spec;
ghost use Rattle.lift_stores.specs.Names.{lift_names};
ghost use Rattle.lift_temporaries.specs.Behind.{names_of, types_behind, types_behind_args, types_behind_parts, types_behind_puts};
ghost use Rattle.rs_items.specs.Known.{view_names};
ghost use Rattle.rs_tree.specs.Views.{ty_view};

use cr_base::{Items, Memory};
use cx_core::{CoreExpr, Form, Put};
use lift_held::{Asked, holds_call, is_held, is_void, some_holds_call};
use lift_stores::{held_type, kind_of_node};
use rs_items::NameMap;
use rs_tree::RTy;
use std::alloc::Global;

// An operand whose value is used, with a call to its right or without.
fn operand_before(call_behind: bool) -> Asked
    ensures { result ≡ record { used = true; pinned = call_behind; is_base = false } }
{
    Asked {
        used: true,
        pinned: call_behind,
        is_base: false,
    }
}

// What is evaluated alone, whose value is used or not.
fn part_of(used: bool) -> Asked
    ensures { result ≡ record { used = used; pinned = false; is_base = false } }
{
    Asked {
        used,
        pinned: false,
        is_base: false,
    }
}

// What a member is of.
fn whole_of(is_bits: bool) -> Asked
    ensures { result ≡ record { used = true; pinned = false; is_base = is_bits } }
{
    Asked {
        used: true,
        pinned: false,
        is_base: is_bits,
    }
}

// Those of an expression behind others.
#[cycle(holding)]
#[tactic(auto, unfolding(crate::specs::Behind::names_of))]
fn types_behind(
    alloc: Global,
    e: &CoreExpr,
    names: &NameMap,
    asked: Asked,
    types: &mut Items<RTy>,
) -> Result<(), Memory>
    ensures { OnOk result (map ty_view types.new ≡ types_behind (names_of names.now) asked (view_expr e.now) (map ty_view types.old)) }
{
    parts_behind(alloc, e, names, asked, types)?;
    if is_held(asked, e) {
        let kind = kind_of_node(alloc, names, e)?;
        types.push(held_type(alloc, kind)?.into_inner())?;
    }
    Ok(())
}

// Those of the parts of a node.
#[cycle(holding)]
fn parts_behind(
    alloc: Global,
    e: &CoreExpr,
    names: &NameMap,
    asked: Asked,
    types: &mut Items<RTy>,
) -> Result<(), Memory>
    ensures { OnOk result (map ty_view types.new ≡ types_behind_parts (names_of names.now) asked (view_expr e.now) (map ty_view types.old)) }
{
    match &e.form {
        Form::Whole(_) | Form::Null | Form::Object(_) | Form::Code(_) => Ok(()),
        Form::Load(of) | Form::Deref(of) | Form::Address(of) | Form::Unary(_, of) => {
            types_behind(alloc, of.get(), names, operand_before(false), types)
        }
        Form::Member(of, spot) => types_behind(
            alloc,
            of.get(),
            names,
            whole_of(spot.width != 0),
            types,
        ),
        Form::Convert(of) => {
            types_behind(alloc, of.get(), names, part_of(!is_void(&e.ty)), types)
        }
        Form::Step { on, .. } => types_behind(alloc, on.get(), names, operand_before(false), types),
        Form::And(left, right) | Form::Or(left, right) => {
            types_behind(alloc, left.get(), names, operand_before(false), types)?;
            types_behind(alloc, right.get(), names, operand_before(false), types)
        }
        Form::Binary(_, left, right)
        | Form::Assign(left, right)
        | Form::AssignBy(_, _, left, right) => {
            let first = operand_before(holds_call(right.get()));
            types_behind(alloc, left.get(), names, first, types)?;
            types_behind(alloc, right.get(), names, operand_before(false), types)
        }
        Form::Cond(test, first, second) => {
            types_behind(alloc, test.get(), names, operand_before(false), types)?;
            types_behind(alloc, first.get(), names, part_of(asked.used), types)?;
            types_behind(alloc, second.get(), names, part_of(asked.used), types)
        }
        Form::Comma(first, second) => {
            types_behind(alloc, first.get(), names, part_of(false), types)?;
            types_behind(alloc, second.get(), names, part_of(asked.used), types)
        }
        Form::Call(_, args) => args_behind(alloc, args.as_slice(), names, types),
        Form::CallBy(callee, args) => {
            let first = operand_before(some_holds_call(args.as_slice()));
            types_behind(alloc, callee.get(), names, first, types)?;
            args_behind(alloc, args.as_slice(), names, types)
        }
        Form::Literal(_, puts) => puts_behind(alloc, puts.as_slice(), names, types),
    }
}

// Those of arguments, from the left.
#[cycle(holding)]
fn args_behind(
    alloc: Global,
    args: &[CoreExpr],
    names: &NameMap,
    types: &mut Items<RTy>,
) -> Result<(), Memory>
    ensures { OnOk result (map ty_view types.new ≡ types_behind_args (names_of names.now) (exprs_of (map view_expr args.now)) (map ty_view types.old)) }
{
    for index in 0..args.len() {
        let call_behind = some_holds_call(&args[index + 1..]);
        types_behind(
            alloc,
            &args[index],
            names,
            operand_before(call_behind),
            types,
        )?;
    }
    Ok(())
}

// Those of values that an initialiser stores, in their order.
#[cycle(holding)]
fn puts_behind(
    alloc: Global,
    puts: &[Put],
    names: &NameMap,
    types: &mut Items<RTy>,
) -> Result<(), Memory>
    ensures { OnOk result (map ty_view types.new ≡ types_behind_puts (names_of names.now) (puts_of (map view_put puts.now)) (map ty_view types.old)) }
{
    for one in puts {
        let asked = operand_before(one.spot.width > 0);
        types_behind(alloc, one.value.get(), names, asked, types)?;
    }
    Ok(())
}

/// Those of an expression behind others.
#[tactic(auto, using(crate::proofs::Behinds::behind), unfolding(crate::specs::Behind::names_of))]
pub fn held_types(
    alloc: Global,
    names: &NameMap,
    asked: Asked,
    e: &CoreExpr,
    types: &mut Items<RTy>,
) -> Result<(), Memory>
    ensures { OnOk result (map ty_view types.new ≡ map ty_view types.old ++ spec.held_types (lift_names (view_names names.now)) asked (view_expr e.now)) }
{
    types_behind(alloc, e, names, asked, types)
}

/// Those of values that an initialiser stores, in their order, behind others.
#[tactic(auto, using(crate::proofs::Behinds::behind_puts), unfolding(crate::specs::Behind::names_of))]
pub fn held_types_in_puts(
    alloc: Global,
    names: &NameMap,
    puts: &[Put],
    types: &mut Items<RTy>,
) -> Result<(), Memory>
    ensures { OnOk result (map ty_view types.new ≡ map ty_view types.old ++ spec.held_types_in_puts (lift_names (view_names names.now)) (puts_of (map view_put puts.now))) }
{
    puts_behind(alloc, puts, names, types)
}
