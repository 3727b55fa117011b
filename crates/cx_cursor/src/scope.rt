//! The names in scope.

ghost use Rattle.std.specs.Prelude.{◌≡◌, [], ◌∷◌, ◌++◌, ◌-◌, length, take, drop, map, IfOk, OnOk};
ghost use Rattle.cx_cursor.specs.Scopes.{binding, bindings, bound};
ghost use Rattle.cx_tree.specs.Names.{is_type};

use cr_base::{Items, Memory, Name};
use std::alloc::Global;
use std::collections::HashMap;
use std::marker::Model;

// A name that was declared, and whether it was a typedef name before.
#[derive(Drop)]
struct Declared {
    name: Vec<u8>,
    is_type: bool,
    hides_type: bool,
}

/// A name with whether it is a typedef name.
#[derive(Drop)]
pub struct Bound {
    pub name: Name,
    pub is_type: bool,
}

fn bound_of(alloc: Global, one: &Declared) -> Result<Bound, Memory>
    ensures { IfOk result (λ copy. bound copy ≡ binding one.now.name.items one.now.is_type) }
{
    let name = Name::of(Vec::from_slice(alloc, one.name.as_slice())?);
    Ok(Bound {
        name,
        is_type: one.is_type,
    })
}

// Copies of what was declared behind the first `count`.
fn bounds_of(alloc: Global, declared: &[Declared], count: usize) -> Result<Items<Bound>, Memory>
    ensures { IfOk result (λ list. map bound list ≡ drop count (bindings declared.now)) }
{
    let mut list = Items::new(alloc);
    for index in count..declared.len() {
        list.push(bound_of(alloc, &declared[index])?)?;
    }
    Ok(list)
}

/// The ordinary names in scope (ISO C99, 6.2.1), oldest first, each with whether it is a typedef name.
/// The newest binding of a name counts, and is found in a time that doesn't grow with their number.
#[derive(Drop)]
pub struct Scope {
    declared: Vec<Declared>,
    // Whether the newest binding of each name that was declared is a typedef name. A name whose bindings
    // have all ended stays, with `false`.
    index: HashMap<Vec<u8>, bool>,
}

impl Model for Scope {
    ghost use Rattle.std.specs.Prelude.{List};
    ghost use Rattle.cx_cursor.specs.Scopes.{bindings, IsIndexed};
    ghost use Rattle.cx_tree.specs.Names.{Binding};

    ghost Value = { List Binding };

    ghost view = { λ scope. bindings scope.declared.items };

    ghost invariant = { λ scope. IsIndexed scope.index scope.declared.items };
}

impl Scope {
    /// No names.
    pub fn new(alloc: Global) -> Scope
        ensures { result ≡ [] }
    {
        Scope {
            declared: Vec::new(alloc),
            index: HashMap::new(alloc),
        }
    }

    /// How many bindings there are.
    pub fn len(&self) -> usize
        ensures { result ≡ length self.now }
    {
        self.declared.len()
    }

    /// Whether the newest binding of a name is a typedef name; false where it has none.
    pub fn is_type(&self, name: &[u8]) -> bool
        ensures { result ≡ is_type self.now name.now }
    {
        match self.index.get(name) {
            Some(is_type) => *is_type,
            None => false,
        }
    }

    /// Declares a name. Refused only for want of memory.
    pub fn declare(&mut self, name: &Name, is_type: bool) -> Result<(), Memory>
        ensures { OnOk result (self.new ≡ self.old ++ binding name.now is_type ∷ []) }
    {
        let hides_type = self.is_type(name.bytes());
        let alloc = *self.declared.allocator();
        let key = Vec::from_slice(alloc, name.bytes())?;
        let name = Vec::from_slice(alloc, name.bytes())?;
        self.declared.reserve(1)?;
        self.index.insert(key, is_type)?;
        self.declared.push(Declared {
            name,
            is_type,
            hides_type,
        })?;
        Ok(())
    }

    /// The bindings behind this many of the oldest. Refused only for want of memory.
    pub fn bound_since(&self, count: usize) -> Result<Items<Bound>, Memory>
        ensures { IfOk result (λ list. map bound list ≡ drop count self.now) }
    {
        let alloc = *self.declared.allocator();
        bounds_of(alloc, self.declared.as_slice(), count)
    }

    // Ends the newest binding, where there is one.
    fn forget(&mut self)
        ensures { self.new ≡ take (length self.old - 1) self.old }
    {
        let Some(last) = self.declared.pop() else {
            return;
        };
        let Declared {
            name,
            hides_type,
            ..
        } = last;
        let _known = self.index.insert(name, hides_type);
    }

    /// Ends all bindings but this many of the oldest, as where a scope is left.
    pub fn leave(&mut self, count: usize)
        ensures { self.new ≡ take count self.old }
    {
        while count < self.declared.len() {
            self.forget();
        }
    }
}
