ghost use Rattle.std.specs.Prelude.{◌≡◌, [], ◌∷◌, ◌++◌, map, IfOk};
ghost use Rattle.straight_core.specs.Views.{view_expr, exprs_of};
ghost use Rattle.straight_lift.specs.Coded.{names_of, written_view, args_view};
ghost use Rattle.straight_lift.specs.Lifted.{lift_of, lift_args};
ghost use Rattle.straight_rust_tree.specs.View.{stmt_view};

use crate::atom::Atom;
use crate::names::NameTable;
use crate::nodes::{binary, call, conversion, lvalue, store, unary};
use crate::parts::in_temporary;
use crate::written::{Written, WrittenArgs};
use cr_base::{Items, Memory};
use std::alloc::Global;
use straight_core::{CoreExpr, Form};
use straight_rust_tree::RExpr;

#[cycle(lift)]
/// What is written for an expression, with temporaries from a number on. Refused only for want of memory,
/// as which a number of temporaries past those of 32 bits counts too.
///
/// The numbers that it takes don't depend on the names, so that a table without temporaries tells how many
/// there will be.
pub fn lift(alloc: Global, e: &CoreExpr, names: &NameTable, from: u32) -> Result<Written, Memory>
    ensures { IfOk result (λ made. written_view made ≡ lift_of (names_of names.now) (view_expr e.now) from) }
{
    match &e.form {
        Form::Whole(value) => Ok(Written {
            stmts: Items::new(alloc),
            value: Some(Atom::Fixed(*value)),
            next: from,
        }),
        Form::Object(_) => Ok(Written {
            stmts: Items::new(alloc),
            value: None,
            next: from,
        }),
        Form::Load(place) => {
            let value = RExpr::Place(lvalue(alloc, names, place.get())?);
            in_temporary(alloc, names, Items::new(alloc), from, value)
        }
        Form::Convert(value) => {
            let one = lift(alloc, value.get(), names, from)?;
            Ok(conversion(&e.ty, one))
        }
        Form::Unary(op, value) => {
            let one = lift(alloc, value.get(), names, from)?;
            unary(alloc, names, *op, one)
        }
        Form::Binary(op, left, right) => {
            let one = lift(alloc, left.get(), names, from)?;
            let other = lift(alloc, right.get(), names, one.next)?;
            binary(alloc, names, *op, one, other)
        }
        Form::Assign(target, value) => {
            let one = lift(alloc, value.get(), names, from)?;
            store(alloc, names, target.get(), one)
        }
        Form::Call(callee, args) => {
            let args = lift_args(alloc, args.as_slice(), names, from)?;
            call(alloc, names, &e.ty, *callee, args)
        }
    }
}

#[cycle(lift)]
// What is written for arguments, from the left.
fn lift_args(
    alloc: Global,
    args: &[CoreExpr],
    names: &NameTable,
    from: u32,
) -> Result<WrittenArgs, Memory>
    ensures { IfOk result (λ made. args_view made ≡ lift_args (names_of names.now) (exprs_of (map view_expr args.now)) from) }
{
    let mut stmts = Items::new(alloc);
    let mut values = Items::new(alloc);
    let mut next = from;
    for arg in args {
        let one = lift(alloc, arg, names, next)?;
        stmts.append(one.stmts)?;
        values.push(one.value)?;
        next = one.next;
    }
    Ok(WrittenArgs {
        stmts,
        values,
        next,
    })
}
