//! Which declaration an identifier means (ISO C99, 6.2.1p4, 6.2.3).
#![tactic(auto, unfolding(crate::specs::Views::view_scope))]

ghost use Rattle.std.specs.Prelude.{◌≡◌, is_some, option_map};
ghost use Rattle.std.specs.Option.{option_copied};
ghost use Rattle.cx_rules.specs.Pieces.{seen_tag};
ghost use Rattle.cx_rules.specs.Scope.{ordinary, tag, innermost};
ghost use Rattle.cx_scope.specs.Views.{view_scope, view_meant, view_tag};

use crate::meant::{Meant, Tag};
use crate::scope::Scope;
use cr_base::Name;

impl Scope {
    /// What an identifier means that is no tag: its newest declaration, or None where it has none.
    pub fn ordinary(&self, name: &Name) -> Option<&Meant>
        ensures { option_map view_meant (option_copied result) ≡ ordinary name.now (view_scope self.now).declared }
    {
        self.declared.ordinary_behind(0, name)
    }

    /// What a tag means: its newest declaration, or None where it has none.
    pub fn tag(&self, name: &Name) -> Option<Tag>
        ensures { option_map view_tag result ≡ tag name.now (view_scope self.now).declared }
    {
        self.declared.tag_behind(0, name)
    }

    /// Whether the innermost scope declares a name that is no tag.
    pub fn is_declared_inside(&self, name: &Name) -> bool
        ensures { result ≡ is_some (ordinary name.now (innermost (view_scope self.now))) }
    {
        self.ordinary_inside(name).is_some()
    }

    /// What an identifier that is no tag means by the declarations of the innermost scope alone.
    pub fn ordinary_inside(&self, name: &Name) -> Option<&Meant>
        ensures { option_map view_meant (option_copied result) ≡ ordinary name.now (innermost (view_scope self.now)) }
    {
        self.declared.ordinary_behind(self.begins as usize, name)
    }

    /// What a tag means by the declarations of the innermost scope alone.
    pub fn tag_inside(&self, name: &Name) -> Option<Tag>
        ensures { option_map view_tag result ≡ tag name.now (innermost (view_scope self.now)) }
    {
        self.declared.tag_behind(self.begins as usize, name)
    }

    /// What a tag means, where it may be written without one: in the innermost scope alone, or in all.
    pub fn seen_tag(&self, alone: bool, name: &Option<Name>) -> Option<Tag>
        ensures { option_map view_tag result ≡ seen_tag alone name.now (view_scope self.now) }
    {
        let name = name.as_ref()?;
        if alone {
            self.tag_inside(name)
        } else {
            self.tag(name)
        }
    }
}
