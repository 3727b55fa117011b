ghost use Rattle.cx_context.specs.Laid.{IsLaid};
ghost use Rattle.cx_scope.specs.Views.{view_scope};

use cx_layout::Layouts;
use cx_scope::Scope;
use std::alloc::Global;

/// The scope at a place of a unit (ISO C99, 6.2.1), with the layouts of the types so far.
#[derive(Drop)]
pub struct Context {
    pub alloc: Global,
    pub scope: Scope,
    pub layouts: Layouts,
    ghost laid: { IsLaid (view_scope scope).types layouts },
}
