ghost use Rattle.std.specs.Prelude.{◌≡◌};
ghost use Rattle.cr_base.specs.declared.refusal.Stop.TheVariants as stop;
ghost use Rattle.cx_context.specs.Checks.{refusal_of};
ghost use Rattle.cx_context.specs.Laid.{IsLaid};
ghost use Rattle.cx_context.specs.Views.{scope_of};
ghost use Rattle.cx_rules.specs.Pieces.{at_line};
ghost use Rattle.cx_kinds.specs.Known.{IsKnown, types_in};
ghost use Rattle.cx_scope.specs.Views.{view_scope};

use crate::context::Context;
use cr_base::{Place, Refusal, Rule, Stop};
use cx_kinds::Known;
use cx_layout::Layouts;
use cx_scope::Scope;
use std::alloc::Global;

impl Context {
    /// The place with this scope, and the layouts of its types.
    pub fn new(alloc: Global, scope: Scope, layouts: Layouts) -> Context
        requires { IsLaid (view_scope scope).types layouts }
        ensures { scope_of result ≡ view_scope scope }
    {
        Context {
            alloc,
            scope,
            layouts,
        }
    }

    /// The types so far, and their layouts.
    pub fn known(&self) -> Known<'_>
        ensures known { IsKnown result }
        ensures types { types_in result ≡ (scope_of self.now).types }
    {
        Known {
            types: self.scope.types(),
            layouts: &self.layouts,
        }
    }

    /// The scope.
    pub fn scope(&self) -> &Scope
        ensures { view_scope result.now ≡ scope_of self.now }
    {
        &self.scope
    }

    /// The allocator of what is made.
    pub fn alloc(&self) -> Global {
        self.alloc
    }

    /// A line of the unit.
    pub fn at_line(&self, line: u32) -> Place
        ensures { result ≡ at_line (scope_of self.now) line }
    {
        Place {
            unit: self.scope.unit(),
            line,
        }
    }

    /// A node at a line breaks a rule.
    pub fn refused(&self, rule: Rule, line: u32) -> Stop
        ensures { result ≡ stop.Refused (refusal_of (scope_of self.now).unit line rule) }
    {
        Stop::Refused(Refusal {
            rule,
            unit: self.scope.unit(),
            line,
        })
    }
}
