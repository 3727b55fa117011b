//! Parameters (ISO C99, 6.7.5.3).
#![tactic(auto, unfolding(crate::specs::Views::view_scope))]

ghost use Rattle.std.specs.Prelude.{◌≡◌, Some, OnOk, OnErr, IfOk, option_map};
ghost use Rattle.cx_rules.specs.Pieces.{with_param};
ghost use Rattle.cx_scope.specs.Changes.{with_param_name, declared_as};
ghost use Rattle.cx_scope.specs.Views.{view_scope, view_declared, view_param};

use crate::meant::{Declared, Meant};
use crate::scope::Scope;
use cr_base::{Memory, Name};
use cx_core::{Linkage, Ty};
use std::alloc::Global;

/// A parameter (ISO C99, 6.7.5.3).
#[derive(Drop)]
pub struct Param {
    pub name: Option<Name>,
    pub object: u32,
    /// Its adjusted type (6.7.5.3p7, p8).
    pub ty: Ty,
    pub is_register: bool,
}

impl Scope {
    /// The object of a parameter gets its number, and its name comes into scope; nothing happens where there is no
    /// parameter. Refused only for want of memory, and then nothing changed.
    pub fn add_param(&mut self, param: &Option<Param>) -> Result<(), Memory>
        ensures added { OnOk result (view_scope self.new ≡ with_param (option_map view_param param.now) (view_scope self.old)) }
        ensures refused { OnErr result (view_scope self.new ≡ view_scope self.old) }
    {
        match param {
            None => Ok(()),
            Some(one) => self.declare_param(one),
        }
    }

    fn declare_param(&mut self, one: &Param) -> Result<(), Memory>
        ensures added { OnOk result (view_scope self.new ≡ with_param (Some (view_param one.now)) (view_scope self.old)) }
        ensures refused { OnErr result (view_scope self.new ≡ view_scope self.old) }
    {
        let number = self.next_object;
        if number == u32::MAX {
            return Err(Memory);
        }
        self.name_param(one)?;
        self.next_object = number + 1;
        Ok(())
    }

    fn name_param(&mut self, one: &Param) -> Result<(), Memory>
        ensures added { OnOk result (view_scope self.new ≡ with_param_name (view_param one.now) (view_scope self.old)) }
        ensures refused { OnErr result (view_scope self.new ≡ view_scope self.old) }
    {
        match &one.name {
            None => Ok(()),
            Some(name) => {
                let declared = declared_param(self.alloc, name, one)?;
                self.add(declared)
            }
        }
    }
}

// The declaration that a parameter of a name is.
fn declared_param(alloc: Global, name: &Name, one: &Param) -> Result<Declared, Memory>
    ensures { IfOk result (λ made. view_declared made ≡ declared_as name.now (view_param one.now)) }
{
    let name = name.copy()?;
    let ty = one.ty.copy(alloc)?.into_inner();
    Ok(Declared {
        name,
        meant: Meant::Object {
            object: one.object,
            ty,
            register: one.is_register,
            linkage: Linkage::Nothing,
        },
    })
}
