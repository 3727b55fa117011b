//! The calls by name in an expression (ISO C99, 6.5.2.2). The walks are refused only for want of memory.

ghost use Rattle.std.specs.Prelude.{◌≡◌, map, option_map, OnOk};
ghost use Rattle.cx_core.specs.Views.{exprs_of, puts_of, view_expr, view_put, view_puts};
ghost use Rattle.whole_keys.specs.Behind.{calls_behind, calls_behind_contents, calls_behind_list, calls_behind_option, calls_behind_puts};
ghost use Rattle.whole_keys.specs.Views.{view_call};
ghost use Rattle.whole_names.specs.Calls.{is_bare};

use cr_base::{Boxed, Items, Memory};
use cx_core::{CoreExpr, Form, Put};

/// A call by name.
#[derive(Clone, Copy, Debug, PartialEq, Eq)]
pub struct NamedCall {
    /// The number of the function.
    pub callee: u32,
    /// Whether it has no argument.
    pub is_bare: bool,
}

// A call of the function with this number.
fn call_of(callee: u32, args: &[CoreExpr]) -> NamedCall
    ensures { view_call result ≡ record { callee = callee; is_bare = is_bare (exprs_of (map view_expr args.now)) } }
{
    NamedCall {
        callee,
        is_bare: args.is_empty(),
    }
}

// Those of an expression behind others.
#[cycle(calls)]
pub(crate) fn calls_behind(e: &CoreExpr, calls: &mut Items<NamedCall>) -> Result<(), Memory>
    ensures { OnOk result (map view_call calls.new ≡ calls_behind (view_expr e.now) (map view_call calls.old)) }
{
    match &e.form {
        Form::Whole(_) | Form::Null | Form::Object(_) | Form::Code(_) => Ok(()),
        Form::Load(of) | Form::Deref(of) | Form::Address(of) | Form::Member(of, _) => {
            calls_behind(of.get(), calls)
        }
        Form::Convert(of) | Form::Unary(_, of) => calls_behind(of.get(), calls),
        Form::Step { on, .. } => calls_behind(on.get(), calls),
        Form::Binary(_, left, right)
        | Form::And(left, right)
        | Form::Or(left, right)
        | Form::Assign(left, right)
        | Form::AssignBy(_, _, left, right)
        | Form::Comma(left, right) => {
            calls_behind(left.get(), calls)?;
            calls_behind(right.get(), calls)
        }
        Form::Cond(test, first, second) => {
            calls_behind(test.get(), calls)?;
            calls_behind(first.get(), calls)?;
            calls_behind(second.get(), calls)
        }
        Form::Call(callee, args) => {
            calls.push(call_of(*callee, args.as_slice()))?;
            args_behind(args.as_slice(), calls)
        }
        Form::CallBy(callee, args) => {
            calls_behind(callee.get(), calls)?;
            args_behind(args.as_slice(), calls)
        }
        Form::Literal(_, puts) => puts_behind(puts.as_slice(), calls),
    }
}

// Those of arguments, from the left.
#[cycle(calls)]
fn args_behind(args: &[CoreExpr], calls: &mut Items<NamedCall>) -> Result<(), Memory>
    ensures { OnOk result (map view_call calls.new ≡ calls_behind_list (exprs_of (map view_expr args.now)) (map view_call calls.old)) }
{
    for one in args {
        calls_behind(one, calls)?;
    }
    Ok(())
}

// Those of values that an initialiser stores, in their order.
#[cycle(calls)]
fn puts_behind(puts: &[Put], calls: &mut Items<NamedCall>) -> Result<(), Memory>
    ensures { OnOk result (map view_call calls.new ≡ calls_behind_puts (puts_of (map view_put puts.now)) (map view_call calls.old)) }
{
    for one in puts {
        calls_behind(one.value.get(), calls)?;
    }
    Ok(())
}

// Those of an expression that may be left out.
pub(crate) fn option_behind(
    e: &Option<Boxed<CoreExpr>>,
    calls: &mut Items<NamedCall>,
) -> Result<(), Memory>
    ensures { OnOk result (map view_call calls.new ≡ calls_behind_option (option_map view_expr e.now) (map view_call calls.old)) }
{
    match e {
        None => Ok(()),
        Some(one) => calls_behind(one.get(), calls),
    }
}

// Those of what is stored in an object, if anything is.
pub(crate) fn contents_behind(
    contents: &Option<Items<Put>>,
    calls: &mut Items<NamedCall>,
) -> Result<(), Memory>
    ensures { OnOk result (map view_call calls.new ≡ calls_behind_contents (option_map view_puts contents.now) (map view_call calls.old)) }
{
    match contents {
        None => Ok(()),
        Some(puts) => puts_behind(puts.as_slice(), calls),
    }
}
