//! The types of `main_0` and of `run_static_initializers`, which `main.rs` calls.

ghost use Rattle.std.specs.Prelude.{◌≡◌, option_map};
ghost use Rattle.rs_mean.specs.Lookups as named;
ghost use Rattle.rs_mean.specs.Scalars.{same_results};
ghost use Rattle.rs_mean.specs.Typing as typing;
ghost use Rattle.rs_text.specs.declared.integer.IntegerTy.TheVariants.{I32};
ghost use Rattle.rs_text.specs.Tree as tree;
ghost use Rattle.rs_text.specs.Tree.{option_ty, some_ty};
ghost use Rattle.rs_tree.specs.Views.{function_view, outer_view, ty_view};

use cr_base::{Boxed, Name};
use rs_same::is_integer_of;
use rs_tree::{Function, IntegerTy, Outer, RTy};

fn is_int(given: &Option<Boxed<RTy>>) -> bool
    ensures { result ≡ same_results (option_ty (option_map ty_view given.now)) (some_ty (tree.Integer I32)) }
{
    match given {
        None => false,
        Some(ty) => is_integer_of(IntegerTy::I32, ty.get()),
    }
}

// Whether a function of a name has the parameters and the result that it is to have.
fn head_by(name: &Name, takes_nothing: bool, given: &Option<Boxed<RTy>>) -> bool
    ensures { result ≡ typing.head_by name.now takes_nothing (option_map ty_view given.now) }
{
    if name.bytes() == b"main_0".as_slice() {
        return takes_nothing && is_int(given);
    }
    if name.bytes() == b"run_static_initializers".as_slice() {
        return takes_nothing && given.is_none();
    }
    true
}

fn takes_nothing(function: &Function) -> bool
    ensures { result ≡ typing.takes_nothing (named.own_signature (function_view function.now)) }
{
    match function.params.as_slice() {
        [] => true,
        [_, ..] => false,
    }
}

/// Whether a function with a body has the parameters and the result that its name is to have.
pub(crate) fn own_head_typed(function: &Function) -> bool
    ensures { result ≡ typing.head_typed (function_view function.now).name (named.own_signature (function_view function.now)) }
{
    head_by(&function.name, takes_nothing(function), &function.result)
}

fn outer_takes_nothing(outer: &Outer) -> bool
    ensures { result ≡ typing.takes_nothing (named.signature_of (named.outer (outer_view outer.now))) }
{
    match outer.params.as_slice() {
        [] => !outer.variadic,
        [_, ..] => false,
    }
}

/// Whether an external function has the parameters and the result that its name is to have.
pub(crate) fn outer_head_typed(outer: &Outer) -> bool
    ensures { result ≡ typing.head_typed (outer_view outer.now).name (named.signature_of (named.outer (outer_view outer.now))) }
{
    head_by(&outer.name, outer_takes_nothing(outer), &outer.result)
}
