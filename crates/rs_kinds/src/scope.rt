//! What the names of a body stand for.

ghost use Rattle.std.specs.Prelude.{◌≡◌, true, map, option_map};
ghost use Rattle.std.specs.Option.{option_copied};
ghost use Rattle.rs_mean.specs.Lookups.{local_type};
ghost use Rattle.rs_tree.specs.Views.{ty_view};
ghost use Rattle.rs_kinds.specs.Scopes.{has_among, labels_view, scope_view};

use cr_base::{Boxed, Name};
use rs_layout::local_named;
use rs_tree::{Local, Module, RTy};

/// The labels around a place, the innermost first.
#[derive(Clone, Copy)]
pub enum Labels<'t> {
    Outermost,
    Within {
        name: &'t Name,
        is_loop: bool,
        outer: &'t Labels<'t>,
    },
}

/// What stands around a place of a body.
#[derive(Clone, Copy)]
pub struct HeldScope<'t> {
    pub modules: &'t [Module],
    pub params: &'t [Local],
    pub locals: &'t [Local],
    /// The type of the function's result, if there is one.
    pub given: &'t Option<Boxed<RTy>>,
    pub labels: &'t Labels<'t>,
}

/// The type of a parameter or a local.
#[tactic(auto, using(crate::proofs::Locals::local_of_two))]
pub(crate) fn local_type<'t>(scope: HeldScope<'t>, name: &Name) -> Option<&'t RTy>
    ensures { option_map ty_view (option_copied result) ≡ local_type name.now (scope_view scope.entry).locals }
{
    match local_named(scope.params, name) {
        Some(ty) => Some(ty),
        None => local_named(scope.locals, name),
    }
}

/// Whether a label of this name stands around the place.
pub(crate) fn has_label(labels: &Labels<'_>, name: &Name) -> bool
    ensures { result ≡ has_among (λ label. true) name.now (labels_view labels.now) }
{
    match labels {
        Labels::Outermost => false,
        Labels::Within {
            name: one,
            outer,
            ..
        } => one.bytes() == name.bytes() || has_label(outer, name),
    }
}

/// Whether a loop of this label stands around the place.
pub(crate) fn has_loop(labels: &Labels<'_>, name: &Name) -> bool
    ensures { result ≡ has_among (λ label. label.is_loop) name.now (labels_view labels.now) }
{
    match labels {
        Labels::Outermost => false,
        Labels::Within {
            name: one,
            is_loop,
            outer,
        } => (one.bytes() == name.bytes() && *is_loop) || has_loop(outer, name),
    }
}
