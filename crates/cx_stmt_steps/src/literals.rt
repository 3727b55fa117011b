//! The objects of compound literals in a block (ISO C99, 6.5.2.5p6).

ghost use Rattle.std.specs.Prelude.{◌≡◌, IfOk};
ghost use Rattle.cx_context.specs.Views.{scope_of};
ghost use Rattle.cx_stmt_steps.specs.Literals.{literals_from};

use cr_base::{Items, Memory};
use cx_context::Context;

/// The objects of compound literals in a block that came since there were so many literals. Refused only for want of memory.
pub fn literals_since(context: &Context, count: u64) -> Result<Items<u32>, Memory>
    ensures { IfOk result (λ made. made ≡ literals_from count (scope_of context.now)) }
{
    cx_contents::literals_since(context.scope(), count)
}
