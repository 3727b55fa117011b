//! What was read, with its depth, and the nodes that are made of it.

ghost use Rattle.std.specs.Prelude.{◌≡◌, IfOk};
ghost use Rattle.cx_tree.specs.Views.{expr_view, spec_view};

use cr_base::{Boxed, Items, Memory};
use cx_cursor::{Bound, Measured};
use cx_tree::{
    Declarator, Designator, Entry, Enumerator, Expr, Initialiser, InitialiserList, MemberDecl,
    MemberDeclarator, Param, Spec, TypeName,
};
use std::alloc::Global;

/// An expression that was read, and its depth.
pub type ReadExpr = Measured<Boxed<Expr>>;

pub type ReadTypeName = Measured<Boxed<TypeName>>;

pub type ReadSpec = Measured<Boxed<Spec>>;

pub type ReadMember = Measured<Boxed<MemberDecl>>;

pub type ReadMemberDeclarator = Measured<Boxed<MemberDeclarator>>;

pub type ReadEnumerator = Measured<Boxed<Enumerator>>;

pub type ReadParam = Measured<Boxed<Param>>;

pub type ReadInitialiser = Measured<Boxed<Initialiser>>;

pub type ReadList = Measured<Boxed<InitialiserList>>;

pub type ReadEntry = Measured<Boxed<Entry>>;

pub type ReadDesignator = Measured<Boxed<Designator>>;

/// A declarator that was read, its depth, and the names that the parameters of its own function declare
/// (none where it is no function's).
#[derive(Drop)]
pub struct ReadDeclarator {
    pub tree: Boxed<Declarator>,
    pub depth: u32,
    pub own: Items<Bound>,
}

/// An expression in a box, with its depth.
pub fn expr_of(alloc: Global, tree: Expr, depth: u32) -> Result<ReadExpr, Memory>
    ensures tree { IfOk result (λ r. expr_view r.tree ≡ expr_view tree) }
    ensures deep { IfOk result (λ r. r.depth ≡ depth) }
{
    let tree = Boxed::new(alloc, tree)?;
    Ok(Measured { tree, depth })
}

/// A specifier in a box, with its depth.
pub fn spec_of(alloc: Global, tree: Spec, depth: u32) -> Result<ReadSpec, Memory>
    ensures tree { IfOk result (λ r. spec_view r.tree ≡ spec_view tree) }
    ensures deep { IfOk result (λ r. r.depth ≡ depth) }
{
    let tree = Boxed::new(alloc, tree)?;
    Ok(Measured { tree, depth })
}
