//! Declarations that go together (ISO C99, 6.2.7, 6.7p3).

ghost use Rattle.std.specs.Prelude.{◌≡◌, map, option_map};
ghost use Rattle.cx_core.specs.Views.{view_type, view_types};
ghost use Rattle.cx_entities.specs.Linkage as linkages;
ghost use Rattle.cx_rules.specs.Declare as declare;
ghost use Rattle.cx_rules.specs.Declare.{thing_named};
ghost use Rattle.cx_rules.specs.Scope.{ordinary, innermost};
ghost use Rattle.cx_scope.specs.Views.{view_meant, view_scope, view_thing};

use crate::linkage::{is_linked, same_linkage};
use crate::things::thing_named;
use cr_base::Name;
use cx_core::{Linkage, Ty, Types};
use cx_kinds::compatible;
use cx_scope::{Meant, Scope, Thing};

// Whether what has this type and linkage goes with a declaration that gave those.
fn goes_with_one(
    types: &Types,
    typedef: bool,
    t: &Ty,
    linkage: Linkage,
    before: &Ty,
    other: Linkage,
) -> bool
    ensures { result ≡ linkages.goes_with_one (view_types types.now) typedef (view_type t.now) linkage (view_type before.now) other }
{
    if typedef {
        return false;
    }
    if !is_linked(linkage) {
        return false;
    }
    same_linkage(linkage, other) && compatible(types, t, before)
}

// Whether a declaration in the same scope doesn't stand in the way.
fn goes_with(types: &Types, typedef: bool, t: &Ty, linkage: Linkage, before: &Meant) -> bool
    ensures { result ≡ linkages.goes_with (view_types types.now) typedef (view_type t.now) linkage (view_meant before.now) }
{
    match before {
        Meant::Object {
            ty,
            linkage: other,
            ..
        } => goes_with_one(types, typedef, t, linkage, ty, *other),
        Meant::Function {
            ty,
            linkage: other,
            ..
        } => goes_with_one(types, typedef, t, linkage, ty, *other),
        Meant::TypeName(_) => false,
        Meant::Enumerator(_) => false,
        Meant::Tag { .. } => false,
    }
}

fn clashes_with(
    types: &Types,
    typedef: bool,
    t: &Ty,
    linkage: Linkage,
    before: Option<&Meant>,
) -> bool
    ensures { result ≡ linkages.clashes_with (view_types types.now) typedef (view_type t.now) linkage (option_map (λ one. view_meant one.now) before.entry) }
{
    match before {
        None => false,
        Some(one) => !goes_with(types, typedef, t, linkage, one),
    }
}

// Whether it isn't what other declarations of the unit say of the same object or function (6.2.2p7, 6.2.7p2), or has a second body or
// initialiser (6.9p3, p5).
fn clashes_thing(
    types: &Types,
    t: &Ty,
    linkage: Linkage,
    has_content: bool,
    found: Option<&Thing>,
) -> bool
    ensures { result ≡ declare.clashes_thing (view_types types.now) (view_type t.now) linkage has_content (option_map (λ one. view_thing one.now) found.entry) }
{
    let Some(one) = found else {
        return false;
    };
    if !same_linkage(linkage, one.linkage) {
        return true;
    }
    if !compatible(types, t, &one.ty) {
        return true;
    }
    has_content && one.is_defined
}

// Whether a declaration of the innermost scope stands in the way.
fn clashes_inside(scope: &Scope, name: &Name, typedef: bool, t: &Ty, linkage: Linkage) -> bool
    ensures { result ≡ linkages.clashes_with (view_scope scope.now).types typedef (view_type t.now) linkage (ordinary name.now (innermost (view_scope scope.now))) }
{
    clashes_with(
        scope.types(),
        typedef,
        t,
        linkage,
        scope.ordinary_inside(name),
    )
}

fn clashes_elsewhere(
    scope: &Scope,
    name: &Name,
    t: &Ty,
    linkage: Linkage,
    has_content: bool,
) -> bool
    ensures { result ≡ declare.clashes_thing (view_scope scope.now).types (view_type t.now) linkage has_content (thing_named name.now (view_scope scope.now).things) }
{
    clashes_thing(
        scope.types(),
        t,
        linkage,
        has_content,
        thing_named(scope, name),
    )
}

/// Whether another declaration stands in the way of one of this type and linkage (ISO C99, 6.2.2p7, 6.2.7p2, 6.7p3, 6.9p3, p5). It takes
/// no memory.
#[tactic(auto, unfolding(cx_rules::specs::Declare::clashes))]
pub fn clashes(
    scope: &Scope,
    name: &Name,
    typedef: bool,
    t: &Ty,
    linkage: Linkage,
    has_content: bool,
) -> bool
    ensures { result ≡ declare.clashes (view_scope scope.now) name.now typedef (view_type t.now) linkage has_content }
{
    if clashes_inside(scope, name, typedef, t, linkage) {
        return true;
    }
    is_linked(linkage) && clashes_elsewhere(scope, name, t, linkage, has_content)
}

/// Whether the type that an initialiser gives isn't what other declarations of the unit say of the same object (ISO C99, 6.2.7p2,
/// 6.7.8p22). It takes no memory.
pub fn clashes_completed(scope: &Scope, name: &Name, linkage: Linkage, t: &Ty) -> bool
    ensures { result ≡ declare.clashes_completed (view_scope scope.now) name.now linkage (view_type t.now) }
{
    is_linked(linkage) && clashes_elsewhere(scope, name, t, linkage, false)
}
