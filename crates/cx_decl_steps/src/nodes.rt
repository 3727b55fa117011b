//! Declarations without declarators (ISO C99, 6.7).

ghost use Rattle.std.specs.Prelude.{◌≡◌};
ghost use Rattle.cx_context.specs.Checks.{Checks};
ghost use Rattle.cx_context.specs.Views.{scope_of};
ghost use Rattle.cx_decl_steps.specs.Steps as steps;
ghost use Rattle.cx_decl_steps.specs.Views.{view_meant};
ghost use Rattle.cx_shapes.specs.Views.{view_specs};

use crate::meant::Meant;
use cr_base::Stop;
use cx_context::Context;
use cx_shapes::Specs;
use cx_stmt_breaks::empty_rule;

/// A declaration without declarators (ISO C99, 6.7p2).
pub fn empty_seen(context: &Context, line: u32, specs: &Specs) -> Result<Meant, Stop>
    ensures { Checks view_meant result (scope_of context.now) (steps.empty_seen line (view_specs specs.now) (scope_of context.now)) }
{
    if let Some(rule) = empty_rule(specs) {
        return Err(context.refused(rule, line));
    }
    Ok(Meant::new(context.alloc()))
}
