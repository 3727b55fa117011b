ghost use Rattle.std.specs.Prelude.{◌≡◌, IfOk};
ghost use Rattle.cx_core.specs.Views.{view_type};
ghost use Rattle.rs_items.specs.Known.{view_names};
ghost use Rattle.rs_items.specs.Types.{rust_type};
ghost use Rattle.rs_tree.specs.Views.{ty_view};
ghost use Rattle.whole_given.specs.Whole.{named};
ghost use Rattle.whole_known.specs.Stages.{HasTypes};
ghost use Rattle.whole_names.specs.Kept.{types_of};

use cr_base::{Boxed, Memory};
use cx_core::Ty;
use rs_items::{NameMap, rust_type};
use rs_tree::RTy;
use std::alloc::Global;
use whole_given::Whole;

/// The Rust type of a type, where the program's records and enumerated types are kept. Refused only for want of memory.
pub fn type_of(
    alloc: Global,
    _whole: &Whole<'_>,
    names: &NameMap,
    ty: &Ty,
) -> Result<Boxed<RTy>, Memory>
    requires { HasTypes (named _whole.now) (view_names names.now).known }
    ensures { IfOk result (λ made. ty_view made ≡ rust_type (types_of (named _whole.now)) (view_type ty.now)) }
{
    rust_type(alloc, ty, names)
}
