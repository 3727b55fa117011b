//! The labels that are around, and where control goes by them.

ghost use Rattle.std.specs.Prelude.{◌≡◌, ◌∷◌, drop, length, map, option_map, IfOk};
ghost use Rattle.emit_nests.specs.Views.{nest_view};
ghost use Rattle.emit_rules.specs.Jumps.{by_own_label};
ghost use Rattle.emit_texts.specs.Scopes.{jump_view, jumps_of, scopes_before};

use cr_base::{Items, Memory};
use emit_nests::{Nest, is_among, nest_entries, nest_is_told};
use std::alloc::Global;

/// A label that is around: a loop's or a block's, whether where it goes is entered by `current_block`, and the nodes to
/// which it goes.
#[derive(Drop)]
pub(crate) struct Scope {
    pub(crate) is_loop: bool,
    pub(crate) is_told: bool,
    pub(crate) entries: Items<u32>,
}

/// A jump by the label of a number: whether `current_block` has to say to which node, and whether the label begins anew
/// or is left.
#[derive(Clone, Copy)]
pub(crate) struct Jump {
    pub(crate) is_told: bool,
    pub(crate) turns: bool,
    pub(crate) label: usize,
}

impl Scope {
    fn copy(&self, alloc: Global) -> Result<Scope, Memory>
        ensures { IfOk result (λ copy. copy ≡ self.now) }
    {
        Ok(Scope {
            is_loop: self.is_loop,
            is_told: self.is_told,
            entries: Items::from_slice(alloc, self.entries.as_slice())?,
        })
    }
}

// Labels, in their order.
fn copies(alloc: Global, scopes: &[Scope]) -> Result<Items<Scope>, Memory>
    ensures { IfOk result (λ made. made ≡ scopes.now) }
{
    let mut made = Items::new(alloc);
    for scope in scopes {
        made.push(scope.copy(alloc)?)?;
    }
    Ok(made)
}

/// A label in front of those around.
pub(crate) fn within(alloc: Global, scope: Scope, around: &[Scope]) -> Result<Items<Scope>, Memory>
    ensures { IfOk result (λ made. made ≡ scope ∷ around.now) }
{
    let mut made = Items::new(alloc);
    made.push(scope)?;
    made.append(copies(alloc, around)?)?;
    Ok(made)
}

/// The labels around a nest in front of those from a number on.
pub(crate) fn scopes_before(
    alloc: Global,
    nests: &[Nest],
    from: usize,
    around: &[Scope],
) -> Result<Items<Scope>, Memory>
    ensures { IfOk result (λ made. made ≡ scopes_before (map nest_view (drop from nests.now)) around.now) }
{
    let Some(second) = nests.get(from) else {
        return copies(alloc, around);
    };
    let scope = Scope {
        is_loop: false,
        is_told: nest_is_told(second),
        entries: nest_entries(alloc, second)?,
    };
    within(alloc, scope, around)
}

/// Whether the text's end comes to a node.
pub(crate) fn is_next(scopes: &[Scope], node: u32) -> bool
    ensures { result ≡ (jumps_of scopes.now).next node }
{
    match scopes.first() {
        Some(scope) => is_among(node, scope.entries.as_slice()),
        None => false,
    }
}

// By the own label of a loop, where there is a jump.
fn by_own_label(label: usize, is_next: bool, found: Option<Jump>) -> Option<Jump>
    ensures { option_map jump_view result ≡ by_own_label label is_next (option_map jump_view found) }
{
    match found {
        Some(jump) if is_next => Some(Jump {
            is_told: jump.is_told,
            turns: false,
            label,
        }),
        _ => found,
    }
}

/// The jump to a node, if there is one.
pub(crate) fn jump_to(scopes: &[Scope], node: u32) -> Option<Jump>
    ensures { option_map jump_view result ≡ (jumps_of scopes.now).jump node }
{
    let (scope, outer) = scopes.split_first()?;
    if is_among(node, scope.entries.as_slice()) {
        return Some(Jump {
            is_told: scope.is_told,
            turns: scope.is_loop,
            label: outer.len(),
        });
    }
    if scope.is_loop {
        return by_own_label(outer.len(), is_next(outer, node), jump_to(outer, node));
    }
    jump_to(outer, node)
}
