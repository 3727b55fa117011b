ghost use Rattle.std.specs.Prelude.{◌≡◌, ◌||◌, is_some};
ghost use Rattle.cx_core.specs.Views.{view_type};
ghost use Rattle.cx_rules.specs.UnitWalk.{in_loop, in_switch};
ghost use Rattle.cx_stmt_steps.specs.Views.{view_site};

use cr_base::Name;
use cx_core::Ty;

/// Where a statement stands (ISO C99, 6.8).
#[derive(Clone, Copy)]
pub struct Site<'a> {
    /// The result type of the function.
    pub result_ty: &'a Ty,
    /// The labels of the function (6.8.1p3).
    pub labels: &'a [Name],
    pub in_loop: bool,
    /// The promoted type of the expression that controls the innermost `switch` (6.8.4.2p5).
    pub switch_ty: Option<&'a Ty>,
}

impl<'a> Site<'a> {
    /// The body of a loop that stands there (6.8.5).
    pub fn in_loop(self) -> Site<'a>
        ensures { view_site result ≡ in_loop (view_site self.entry) }
    {
        Site {
            in_loop: true,
            ..self
        }
    }

    /// The body of a `switch` that stands there, whose expression has this promoted type (6.8.4.2).
    pub fn in_switch(self, t: &'a Ty) -> Site<'a>
        ensures { view_site result ≡ in_switch (view_type t.now) (view_site self.entry) }
    {
        Site {
            switch_ty: Some(t),
            ..self
        }
    }

    /// Whether `break` may stand there (6.8.6.3p1).
    pub fn may_break(self) -> bool
        ensures { result ≡ ((view_site self.entry).in_loop || is_some (view_site self.entry).in_switch) }
    {
        self.in_loop || self.switch_ty.is_some()
    }
}
