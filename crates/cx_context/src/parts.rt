//! The scope and the layouts of a caller, which a walk takes and gives back.

ghost use Rattle.std.specs.Prelude.{◌≡◌};
ghost use Rattle.cx_context.specs.Laid.{IsLaid};
ghost use Rattle.cx_context.specs.Views.{scope_of};
ghost use Rattle.cx_scope.specs.Views.{view_scope};

use crate::context::Context;
use cx_layout::Layouts;
use cx_scope::Scope;
use std::alloc::Global;
use std::mem;

impl Context {
    /// The place with this scope, and the layouts of its types. What is left in their places is empty. It takes no memory.
    pub fn take(alloc: Global, scope: &mut Scope, layouts: &mut Layouts) -> Context
        requires { IsLaid (view_scope scope.old).types layouts.old }
        ensures { scope_of result ≡ view_scope scope.old }
    {
        let unit = scope.unit();
        let own = mem::replace(scope, Scope::new(alloc, unit));
        let rows = mem::replace(layouts, Layouts::new(alloc));
        Context::new(alloc, own, rows)
    }

    /// Gives the scope and the layouts of its types back.
    pub fn put_back(self, scope: &mut Scope, layouts: &mut Layouts)
        ensures scope { view_scope scope.new ≡ scope_of self }
        ensures laid { IsLaid (view_scope scope.new).types layouts.new }
    {
        *scope = self.scope;
        *layouts = self.layouts;
    }
}
