//! Linear code. Each maker is refused only for want of memory.

ghost use Rattle.std.specs.Prelude.{◌≡◌, ◌++◌, [], ◌∷◌, map, OnOk};
ghost use Rattle.build_flow_instrs.specs.Views.{branch_view, instr_view, place_view};
ghost use Rattle.build_flow_linear.specs.Linear as line;
ghost use Rattle.build_flow_linear.specs.Linear.{marks, does, leaves};
ghost use Rattle.build_flow_nodes.specs.Points.{goes, tests};
ghost use Rattle.rs_tree.specs.Views.{expr_view, stmt_view};

use crate::places::{FlowPlace, copy_place};
use cr_base::{Boxed, Int, Items, Memory};
use rs_tree::{IntegerTy, RExpr, RStmt};
use std::alloc::Global;

/// A value of a switch's operand, and where control goes then.
#[derive(Drop)]
pub struct PlacedCase {
    pub value: Int,
    pub to: FlowPlace,
}

/// How control goes on.
#[derive(Drop)]
pub enum PlacedBranch {
    Goes(FlowPlace),
    /// To the first place where a test holds, and to the second where it doesn't.
    Tests(Boxed<RExpr>, FlowPlace, FlowPlace),
    /// By the value of an operand of an integer type.
    Chooses {
        on: Boxed<RExpr>,
        by: IntegerTy,
        cases: Items<PlacedCase>,
        other: FlowPlace,
    },
    /// Out of the function, with its result, if it has one.
    Returns(Option<Boxed<RExpr>>),
}

/// A piece of linear code.
#[derive(Drop)]
pub enum Instr {
    /// Control may come here from elsewhere.
    Marks(FlowPlace),
    Does(Items<RStmt>),
    /// Control goes on elsewhere, and not to what stands next.
    Leaves(PlacedBranch),
}

/// Control goes on at a place.
pub fn push_jump(alloc: Global, to: &FlowPlace, code: &mut Items<Instr>) -> Result<(), Memory>
    ensures { OnOk result (map instr_view code.new ≡ map instr_view code.old ++ leaves (goes (place_view to.now)) ∷ []) }
{
    let to = copy_place(alloc, to)?;
    code.push(Instr::Leaves(PlacedBranch::Goes(to)))
}

/// Control may come to a place here.
pub fn push_mark(alloc: Global, place: &FlowPlace, code: &mut Items<Instr>) -> Result<(), Memory>
    ensures { OnOk result (map instr_view code.new ≡ map instr_view code.old ++ marks (place_view place.now) ∷ []) }
{
    let place = copy_place(alloc, place)?;
    code.push(Instr::Marks(place))
}

/// Statements.
pub fn push_body(body: Items<RStmt>, code: &mut Items<Instr>) -> Result<(), Memory>
    ensures { OnOk result (map instr_view code.new ≡ map instr_view code.old ++ does (map stmt_view body) ∷ []) }
{
    code.push(Instr::Does(body))
}

/// A branch.
pub fn push_branch(branch: PlacedBranch, code: &mut Items<Instr>) -> Result<(), Memory>
    ensures { OnOk result (map instr_view code.new ≡ map instr_view code.old ++ leaves (branch_view branch) ∷ []) }
{
    code.push(Instr::Leaves(branch))
}
