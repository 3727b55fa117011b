//! Steps as the walk calls them: names and types as it holds them.

ghost use Rattle.cx_context.specs.Checks.{Checks};
ghost use Rattle.cx_context.specs.Views.{scope_of};
ghost use Rattle.cx_core.specs.Views.{view_type};
ghost use Rattle.cx_operands.specs.Views.{view_operand};
ghost use Rattle.cx_expr_steps.specs.Steps as steps;

use crate::expressions::{cast_to, member_behind, member_of, size_of_type};
use cr_base::{Boxed, Name, Stop};
use cx_context::Context;
use cx_core::Ty;
use cx_operands::Operand;

/// A member (ISO C99, 6.5.2.3).
pub fn dot_seen(context: &Context, line: u32, of: Operand, name: &Name) -> Result<Operand, Stop>
    ensures { Checks view_operand result (scope_of context.now) (steps.dot_seen line (view_operand of) name.now (scope_of context.now)) }
{
    member_of(context, line, of, name.bytes())
}

/// A member of what a pointer points to (ISO C99, 6.5.2.3).
pub fn arrow_seen(context: &Context, line: u32, of: Operand, name: &Name) -> Result<Operand, Stop>
    ensures { Checks view_operand result (scope_of context.now) (steps.arrow_seen line (view_operand of) name.now (scope_of context.now)) }
{
    member_behind(context, line, of, name.bytes())
}

/// `sizeof` of a type (ISO C99, 6.5.3.4).
pub fn sizeof_type_seen(context: &Context, line: u32, of: Boxed<Ty>) -> Result<Operand, Stop>
    ensures { Checks view_operand result (scope_of context.now) (steps.sizeof_type_seen line (view_type of) (scope_of context.now)) }
{
    size_of_type(context, line, of.get())
}

/// A cast (ISO C99, 6.5.4).
pub fn cast_seen(context: &Context, line: u32, to: Boxed<Ty>, on: Operand) -> Result<Operand, Stop>
    ensures { Checks view_operand result (scope_of context.now) (steps.cast_seen line (view_type to) (view_operand on) (scope_of context.now)) }
{
    cast_to(context, line, to.get(), on)
}
