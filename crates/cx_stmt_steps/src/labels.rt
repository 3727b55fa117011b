//! The labels of a function so far, and those of its innermost `switch` (ISO C99, 6.8.1).
#![tactic(auto, unfolding(cx_scope::specs::Views::view_scope))]

ghost use Rattle.std.specs.Prelude.{◌≡◌, ◌∷◌, [], false, OnOk};
ghost use Rattle.cx_scope.specs.Views.{view_scope};
ghost use Rattle.cx_stmt_steps.specs.Changes.{with_label, with_case, with_default, with_cases};

use cr_base::{Int, Items, Memory, Name};
use cx_scope::Scope;
use std::alloc::Global;
use std::mem;

/// The labels of a `switch` so far (ISO C99, 6.8.4.2p3).
#[derive(Drop)]
pub struct Cases {
    /// The values of its `case` labels, the newest first.
    pub values: Items<Int>,
    /// Whether there was a `default`.
    pub has_default: bool,
}

// Puts an element in front of a list.
fn put_first<T: Drop>(alloc: Global, list: &mut Items<T>, element: T) -> Result<(), Memory>
    ensures { OnOk result (list.new ≡ element ∷ list.old) }
{
    let mut elements = mem::replace(list, Items::new(alloc)).into_vec();
    elements.insert(0, element)?;
    *list = Items::of(elements);
    Ok(())
}

// A label of the function. Refused only for want of memory.
pub(crate) fn add_label(scope: &mut Scope, name: Name) -> Result<(), Memory>
    ensures added { OnOk result (view_scope scope.new ≡ with_label name (view_scope scope.old)) }
    ensures types { (view_scope scope.new).types ≡ (view_scope scope.old).types }
{
    put_first(scope.alloc, &mut scope.body.labels, name)
}

// A `case` label of the innermost `switch`. Refused only for want of memory.
pub(crate) fn add_case(scope: &mut Scope, value: Int) -> Result<(), Memory>
    ensures added { OnOk result (view_scope scope.new ≡ with_case value (view_scope scope.old)) }
    ensures types { (view_scope scope.new).types ≡ (view_scope scope.old).types }
{
    put_first(scope.alloc, &mut scope.body.cases, value)
}

// The `default` label of the innermost `switch`.
pub(crate) fn set_default(scope: &mut Scope)
    ensures added { view_scope scope.new ≡ with_default (view_scope scope.old) }
{
    scope.body.has_default = true;
}

// A `switch` begins: gives the labels of the one around it.
pub(crate) fn begin_switch(scope: &mut Scope) -> Cases
    ensures changed { view_scope scope.new ≡ with_cases [] false (view_scope scope.old) }
    ensures values { result.values ≡ (view_scope scope.old).body.cases }
    ensures has_default { result.has_default ≡ (view_scope scope.old).body.has_default }
{
    let empty = Items::new(scope.alloc);
    let values = mem::replace(&mut scope.body.cases, empty);
    let has_default = mem::replace(&mut scope.body.has_default, false);
    Cases {
        values,
        has_default,
    }
}

// A `switch` ends: the labels are again those of the one around it.
pub(crate) fn end_switch(scope: &mut Scope, around: Cases)
    ensures { view_scope scope.new ≡ with_cases around.values around.has_default (view_scope scope.old) }
{
    scope.body.cases = around.values;
    scope.body.has_default = around.has_default;
}

// The labels of the function so far.
pub(crate) fn labels_in(scope: &Scope) -> &[Name]
    ensures { result.now ≡ (view_scope scope.now).body.labels }
{
    scope.body.labels.as_slice()
}

// The values of the `case` labels of the innermost `switch` so far.
pub(crate) fn cases_in(scope: &Scope) -> &[Int]
    ensures { result.now ≡ (view_scope scope.now).body.cases }
{
    scope.body.cases.as_slice()
}

// Whether there was a `default` label in the innermost `switch`.
pub(crate) fn has_default(scope: &Scope) -> bool
    ensures { result ≡ (view_scope scope.now).body.has_default }
{
    scope.body.has_default
}
