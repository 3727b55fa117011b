//! Mentions of a kind, each with the one of its name in front of it, so that those of a name are found without the others.

ghost use Rattle.std.specs.Prelude.{◌≡◌, ℕ, List, map, if◌then◌else◌, Some, IfOk, OnOk, slice_get};
ghost use Rattle.std.specs.Option.{option_flatten};
ghost use Rattle.cx_core.specs.Linked.{is_external};
ghost use Rattle.cx_core.specs.Views.{view_does, view_mention};
ghost use Rattle.cx_link.specs.Chains.{IsChain, indexed, kind_of};
ghost use Rattle.cx_links.specs.Rules.{is_declaration, is_definition, is_kind_of};

use cr_base::{Items, Memory};
use cx_core::{Does, Linkage, Mention};
use std::alloc::Global;
use std::collections::HashMap;

/// What the rules look for among the mentions of a name.
#[derive(Clone, Copy)]
pub(crate) enum Kind {
    /// A declaration of an external name, definitions among them.
    Declaration,
    /// A definition of an external name.
    Definition,
    /// The definition of a static function.
    StaticDefinition,
}

pub(crate) fn is_external(linkage: Linkage) -> bool
    ensures { result ≡ is_external linkage }
{
    matches!(linkage, Linkage::External)
}

pub(crate) fn is_definition(does: &Does) -> bool
    ensures { result ≡ is_definition (view_does does.now) }
{
    matches!(does, Does::Defines)
}

pub(crate) fn is_declaration(does: &Does) -> bool
    ensures { result ≡ is_declaration (view_does does.now) }
{
    matches!(does, Does::Declares | Does::Defines)
}

impl Kind {
    fn holds(self, one: &Mention) -> bool
        ensures { result ≡ kind_of self (view_mention one.now) }
    {
        match self {
            Kind::Declaration => is_external(one.linkage) && is_declaration(&one.does),
            Kind::Definition => is_external(one.linkage) && is_definition(&one.does),
            Kind::StaticDefinition => !is_external(one.linkage) && is_definition(&one.does),
        }
    }
}

/// The mentions of a kind in a list, by their names.
#[derive(Drop)]
pub(crate) struct Chain {
    // The last one of each name.
    pub(crate) last: HashMap<Vec<u8>, usize>,
    // For each mention of the list the last one in front of it that has its name.
    pub(crate) earlier: Items<Option<usize>>,
}

fn found(index: &HashMap<Vec<u8>, usize>, name: &[u8]) -> Option<usize>
    ensures { result ≡ indexed index.now name.now }
{
    match index.get(name) {
        Some(at) => Some(*at),
        None => None,
    }
}

// Puts a mention of the list in the index, where it is of the kind.
fn note(
    alloc: Global,
    index: &mut HashMap<Vec<u8>, usize>,
    kind: Kind,
    one: &Mention,
    at: usize,
) -> Result<(), Memory>
    ensures { OnOk result ((name : List ℕ) → indexed index.new name ≡ if is_kind_of (kind_of kind) name (view_mention one.now) then Some at else indexed index.old name) }
{
    if kind.holds(one) {
        let key = Vec::from_slice(alloc, one.name.bytes())?;
        index.insert(key, at)?;
    }
    Ok(())
}

/// The mentions of a kind. Refused only for want of memory.
pub(crate) fn chain_of(alloc: Global, kind: Kind, all: &[Mention]) -> Result<Chain, Memory>
    ensures { IfOk result (λ chain. IsChain chain (kind_of kind) (map view_mention all.now)) }
{
    let mut last = HashMap::new(alloc);
    let mut earlier = Items::new(alloc);
    for at in 0..all.len() {
        let one = &all[at];
        earlier.push(found(&last, one.name.bytes()))?;
        note(alloc, &mut last, kind, one, at)?;
    }
    Ok(Chain { last, earlier })
}

impl Chain {
    /// The last mention of the kind that has a name.
    pub(crate) fn last_of(&self, name: &[u8]) -> Option<usize>
        ensures { result ≡ indexed self.now.last name.now }
    {
        found(&self.last, name)
    }

    /// The last mention of the kind in front of one of the list that has its name.
    pub(crate) fn before(&self, at: usize) -> Option<usize>
        ensures { result ≡ option_flatten (slice_get self.now.earlier at) }
    {
        match self.earlier.get(at) {
            Some(found) => *found,
            None => None,
        }
    }
}
