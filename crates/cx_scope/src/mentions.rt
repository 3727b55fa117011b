//! Where a unit names what has linkage (ISO C99, 6.2.2, 6.9).
#![tactic(auto, unfolding(crate::specs::Views::view_scope))]

ghost use Rattle.std.specs.Prelude.{◌≡◌, map, IfOk, OnOk, OnErr, option_map};
ghost use Rattle.std.specs.Option.{option_copied};
ghost use Rattle.cx_core.specs.Views.{view_type, view_mention};
ghost use Rattle.cx_core.specs.declared.unit.Does.TheVariants as does;
ghost use Rattle.cx_rules.specs.Pieces.{used};
ghost use Rattle.cx_rules.specs.Scope.{with_mention, with_call, ordinary};
ghost use Rattle.cx_scope.specs.Uses.{view_used, used_as, used_object, use_of, use_at};
ghost use Rattle.cx_scope.specs.Views.{view_scope, view_meant};

use crate::meant::Meant;
use crate::scope::Scope;
use cr_base::{Items, Memory, Name, Place};
use cx_core::{Does, Linkage, Mention, Ty};
use std::alloc::Global;

// What has linkage, as its use mentions it.
#[derive(Clone, Copy)]
pub(crate) struct Used<'a> {
    pub(crate) ty: &'a Ty,
    pub(crate) linkage: Linkage,
}

impl Scope {
    /// The unit names something that has linkage. Refused only for want of memory, and then nothing changed.
    pub fn add_mention(&mut self, one: Mention) -> Result<(), Memory>
        ensures added { OnOk result (view_scope self.new ≡ with_mention (view_mention one) (view_scope self.old)) }
        ensures refused { OnErr result (view_scope self.new ≡ view_scope self.old) }
    {
        self.mentions.push(one)?;
        Ok(())
    }

    /// A name is used in an expression: what has external linkage and each function is mentioned (ISO C99, 6.9p3, p5).
    /// Refused only for want of memory, and then nothing changed.
    pub fn add_use(&mut self, line: u32, name: &Name) -> Result<(), Memory>
        ensures added { OnOk result (view_scope self.new ≡ used line name.now (ordinary name.now (view_scope self.old).declared) (view_scope self.old)) }
        ensures refused { OnErr result (view_scope self.new ≡ view_scope self.old) }
    {
        let place = Place {
            unit: self.unit,
            line,
        };
        match use_of(self.alloc, place, name, self.ordinary(name))? {
            None => Ok(()),
            Some(one) => self.add_mention(one),
        }
    }

    /// What is mentioned as a use is called with these types of arguments behind those that parameters take. It takes no
    /// memory.
    pub fn set_call(&mut self, index: u64, types: Items<Ty>)
        ensures { view_scope self.new ≡ with_call index (map view_type types) (view_scope self.old) }
    {
        if let Some(one) = self.mentions.get_mut(index as usize) {
            set_types(one, types);
        }
    }
}

fn set_types(one: &mut Mention, types: Items<Ty>)
    ensures { one.new ≡ record one.old { does = does.Calls types } }
{
    one.does = Does::Calls(types);
}

// What is mentioned where it is used.
fn used_as(meant: &Meant) -> Option<Used<'_>>
    ensures { option_map view_used result ≡ used_as (view_meant meant.now) }
{
    match meant {
        Meant::Object { ty, linkage, .. } => used_object(ty, *linkage),
        Meant::Function { ty, linkage, .. } => Some(Used {
            ty,
            linkage: *linkage,
        }),
        Meant::TypeName(_) => None,
        Meant::Enumerator(_) => None,
        Meant::Tag { .. } => None,
    }
}

fn used_object(ty: &Ty, linkage: Linkage) -> Option<Used<'_>>
    ensures { option_map view_used result ≡ used_object (view_type ty.now) linkage }
{
    match linkage {
        Linkage::External => Some(Used { ty, linkage }),
        Linkage::Internal => None,
        Linkage::Nothing => None,
    }
}

// The mention that the use of a name with this meaning is.
fn use_of(
    alloc: Global,
    place: Place,
    name: &Name,
    meant: Option<&Meant>,
) -> Result<Option<Mention>, Memory>
    ensures { IfOk result (λ made. option_map view_mention made ≡ use_of place name.now (option_map view_meant (option_copied meant.entry))) }
{
    let Some(meant) = meant else {
        return Ok(None);
    };
    let Some(used) = used_as(meant) else {
        return Ok(None);
    };
    let one = mention_of_use(alloc, place, name, used)?;
    Ok(Some(one))
}

fn mention_of_use(
    alloc: Global,
    place: Place,
    name: &Name,
    used: Used<'_>,
) -> Result<Mention, Memory>
    ensures { IfOk result (λ made. view_mention made ≡ use_at place name.now (view_used used.entry)) }
{
    let name = name.copy()?;
    let ty = used.ty.copy(alloc)?.into_inner();
    Ok(Mention {
        name,
        place,
        ty,
        linkage: used.linkage,
        does: Does::Uses,
    })
}
