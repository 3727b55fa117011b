//! Structures and unions that are passed (ISO C99, 6.5.2.2, 6.9.1).

ghost use Rattle.std.specs.Prelude.{◌≡◌, map, IfOk};
ghost use Rattle.build_flow_code.specs.Bodies.{body_of};
ghost use Rattle.rs_text.specs.Tree as tree;
ghost use Rattle.rs_tree.specs.Views.{expr_view, stmt_view};
ghost use Rattle.whole_texts.specs.Texts.{copies_of, copy_of};
ghost use Rattle.whole_texts.specs.Views.{passed_view};

use build_flow_code::Body;
use cr_base::{Boxed, Items, Memory, Name};
use cx_core::Ty;
use lift_forms_code::address_of;
use lift_stores::{copied, object_at};
use rs_items::size_of;
use rs_makers::{local, read};
use rs_tree::{RExpr, RStmt};
use std::alloc::Global;

/// A structure or union that is passed to a function: the object of the parameter and its type, and the Rust parameter that points to where it stands.
#[derive(Clone, Copy)]
pub struct Passed<'a> {
    pub object: u32,
    pub ty: &'a Ty,
    pub pointer: &'a Name,
}

// The value of a parameter.
fn value_of(alloc: Global, name: &Name) -> Result<Boxed<RExpr>, Memory>
    ensures { IfOk result (λ made. expr_view made ≡ tree.Read (tree.Local name.now)) }
{
    let place = local(alloc, name.copy()?)?;
    read(alloc, place)
}

// One is copied to the parameter's own object.
#[tactic(auto, unfolding(build_flow_code::specs::Bodies::body_of))]
fn copy_of(alloc: Global, of: &Body<'_>, one: &Passed<'_>) -> Result<Boxed<RStmt>, Memory>
    ensures { IfOk result (λ made. stmt_view made ≡ copy_of (body_of of.now).names (passed_view one.now)) }
{
    let source = value_of(alloc, one.pointer)?;
    let place = object_at(alloc, of.names, one.ty, one.object)?;
    let to = address_of(alloc, place)?;
    let size = size_of(one.ty, of.names)?;
    copied(alloc, source, to, size)
}

/// Those that are passed are copied first. Refused only for want of memory.
pub(crate) fn copies_of(
    alloc: Global,
    of: &Body<'_>,
    passed: &[Passed<'_>],
) -> Result<Items<RStmt>, Memory>
    ensures { IfOk result (λ made. map stmt_view made ≡ copies_of (body_of of.now).names (map passed_view passed.now)) }
{
    let mut made = Items::new(alloc);
    for one in passed {
        made.push(copy_of(alloc, of, one)?.into_inner())?;
    }
    Ok(made)
}
