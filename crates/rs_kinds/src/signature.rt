//! What a call must give to a function, and what it gives back (the Rust Reference, "Call expressions").

ghost use Rattle.std.specs.Prelude.{◌≡◌, map, option_map};
ghost use Rattle.rs_mean.specs.Lookups.{signature_of};
ghost use Rattle.rs_mean.specs.Scalars.{same_types};
ghost use Rattle.rs_mean.specs.Typing as typing;
ghost use Rattle.rs_mean.specs.Typing.{own_type};
ghost use Rattle.rs_text.specs.Tree.{tys, option_ty};
ghost use Rattle.rs_tree.specs.Views.{ty_view, local_view, module_view};
ghost use Rattle.rs_layout.specs.Found.{callee_view};
ghost use Rattle.rs_kinds.specs.Kinds.{kind_view};
ghost use Rattle.rs_kinds.specs.Signatures.{ahead_view, first_param, params_view, signature_view};

use crate::kind::{HeldKind, kind_of_type};
use cr_base::{Boxed, Items};
use rs_layout::{HeldCallee, callee_at};
use rs_same::same_type;
use rs_tree::{Local, Module, RPath, RTy};

/// The types of parameters.
#[derive(Clone, Copy)]
pub(crate) enum HeldParams<'t> {
    Types(&'t [RTy]),
    Locals(&'t [Local]),
}

/// The types of a function.
#[derive(Clone, Copy)]
pub(crate) struct HeldSignature<'t> {
    pub params: HeldParams<'t>,
    pub variadic: bool,
    pub given: &'t Option<Boxed<RTy>>,
}

/// The type of the first parameter, and those behind it.
#[derive(Clone, Copy)]
pub(crate) struct ParamAhead<'t> {
    pub ty: &'t RTy,
    pub others: HeldParams<'t>,
}

pub(crate) fn first_param(params: HeldParams<'_>) -> Option<ParamAhead<'_>>
    ensures { option_map ahead_view result ≡ first_param (params_view params.entry) }
{
    match params {
        HeldParams::Types(types) => {
            let (ty, others) = types.split_first()?;
            Some(ParamAhead {
                ty,
                others: HeldParams::Types(others),
            })
        }
        HeldParams::Locals(locals) => {
            let (local, others) = locals.split_first()?;
            Some(ParamAhead {
                ty: local.ty.get(),
                others: HeldParams::Locals(others),
            })
        }
    }
}

fn signature_of(callee: HeldCallee<'_>) -> HeldSignature<'_>
    ensures { signature_view result ≡ signature_of (callee_view callee.entry) }
{
    match callee {
        HeldCallee::Outer(fun) => HeldSignature {
            params: HeldParams::Types(fun.params.as_slice()),
            variadic: fun.variadic,
            given: &fun.result,
        },
        HeldCallee::Own(fun) => HeldSignature {
            params: HeldParams::Locals(fun.params.as_slice()),
            variadic: false,
            given: &fun.result,
        },
    }
}

/// The types of the function that a path names.
pub(crate) fn signature_at<'t>(modules: &'t [Module], path: &RPath) -> Option<HeldSignature<'t>>
    ensures { option_map signature_view result ≡ typing.signature_at (map module_view modules.now) path.now.home path.now.name }
{
    match callee_at(modules, path) {
        Some(callee) => Some(signature_of(callee)),
        None => None,
    }
}

/// The types of a function that a pointer of this kind is to.
#[tactic(auto, using(crate::proofs::Types::listed_tys, crate::proofs::Types::pointed_option))]
pub(crate) fn pointed_types<'t>(kind: Option<HeldKind<'t>>) -> Option<HeldSignature<'t>>
    ensures { option_map signature_view result ≡ typing.pointed_types (own_type (option_map kind_view kind.entry)) }
{
    match kind {
        Some(HeldKind::Code(params, given)) => Some(HeldSignature {
            params: HeldParams::Types(params.as_slice()),
            variadic: false,
            given,
        }),
        _ => None,
    }
}

/// The kind of what a function gives, if it gives something.
pub(crate) fn given_kind(given: &Option<Boxed<RTy>>) -> Option<HeldKind<'_>>
    ensures { option_map kind_view result ≡ typing.given_kind (option_ty (option_map ty_view given.now)) }
{
    match given {
        Some(ty) => Some(kind_of_type(ty.get())),
        None => None,
    }
}

/// Whether the parameters of a function have just these types.
pub(crate) fn are_types_of(types: &Items<RTy>, params: &Items<Local>) -> bool
    ensures { result ≡ same_types (tys (map ty_view types.now)) (tys (map (λ param. param.ty) (map local_view params.now))) }
{
    let mut left = params.as_slice();
    for ty in types.as_slice() {
        let Some((param, others)) = left.split_first() else {
            return false;
        };
        if !same_type(ty, param.ty.get()) {
            return false;
        }
        left = others;
    }
    match left.split_first() {
        None => true,
        Some(_) => false,
    }
}
