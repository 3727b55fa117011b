ghost use Rattle.std.specs.Prelude.{◌≡◌, IfOk};
ghost use Rattle.cx_core.specs.Layouts.{layouts_of};
ghost use Rattle.cx_core.specs.Views.{view_types};
ghost use Rattle.cx_layout.specs.Calls.{AreGrounded, AreLayoutsOf};

use crate::grounded::are_grounded;
use cr_base::Memory;
use cx_core::Types;
use cx_layout::Layouts;
use std::alloc::Global;

fn built(alloc: Global, types: &Types) -> Result<Layouts, Memory>
    requires { AreGrounded (view_types types.now) }
    ensures same { IfOk result (λ layouts. layouts ≡ layouts_of (view_types types.now)) }
    ensures layouts { IfOk result (λ layouts. AreLayoutsOf (view_types types.now) layouts) }
{
    match Layouts::build(alloc, types) {
        Ok(layouts) => Ok(layouts),
        Err(_) => Err(Memory),
    }
}

/// The layouts of the records of types (System V ABI). Refused for want of memory, and where a record holds itself or an incomplete type
/// by value, or is too large (ISO C99, 6.7.2.1p2): no typed unit has such a record.
pub fn layouts_of(alloc: Global, types: &Types) -> Result<Layouts, Memory>
    ensures same { IfOk result (λ layouts. layouts ≡ layouts_of (view_types types.now)) }
    ensures layouts { IfOk result (λ layouts. AreLayoutsOf (view_types types.now) layouts) }
{
    if are_grounded(alloc, types)? {
        built(alloc, types)
    } else {
        Err(Memory)
    }
}
