//! What is done from each place on, found from the end of the text.

ghost use Rattle.std.specs.Prelude.{◌≡◌, ◌++◌, [], ◌∷◌, map, reverse, IfOk, OnOk};
ghost use Rattle.build_flow_instrs.specs.Views.{instr_view};
ghost use Rattle.build_flow_reached.specs.Behind.{all_in_front, in_front, node_here};
ghost use Rattle.build_flow_reached.specs.Views.{base_body, base_last, behind_view, is_reached_in, joined, number_of, start};
ghost use Rattle.flow.specs.Views.{branch_view, node_view};
ghost use Rattle.rs_tree.specs.Views.{stmt_view};

use crate::branches::branch_of;
use crate::copies::copy_node;
use crate::numbers::Places;
use build_flow_instrs::Instr;
use cr_base::{Items, Memory};
use flow::{Branch, FlowNode};
use rs_tree::RStmt;
use std::alloc::Global;

/// What stands behind a part of linear code. What is done from there on stands in it in parts: statements, and then a branch or all that is done in the node that was
/// begun last. So statements are moved, and copied only where control falls from the text of one node into that of another.
#[derive(Drop)]
pub(crate) struct Behind {
    // statements, the last one's first
    bodies: Items<Items<RStmt>>,
    // a branch, or else the node that was begun last
    last: Option<Branch>,
    // the last one of the text first
    nodes: Items<FlowNode>,
}

// Bodies as one, in front of another.
fn join(
    alloc: Global,
    bodies: &mut Items<Items<RStmt>>,
    rest: Items<RStmt>,
) -> Result<Items<RStmt>, Memory>
    ensures text { IfOk result (λ made. map stmt_view made ≡ joined bodies.old (map stmt_view rest)) }
    ensures none { OnOk result (bodies.new ≡ []) }
{
    let mut made = Items::new(alloc);
    while let Some(body) = bodies.pop() {
        made.append(body)?;
    }
    made.append(rest)?;
    Ok(made)
}

// What is done behind the bodies: by a branch, or as the node that was begun last does.
fn base(alloc: Global, last: Option<Branch>, nodes: &[FlowNode]) -> Result<FlowNode, Memory>
    ensures body { IfOk result (λ made. map stmt_view made.body ≡ base_body last (reverse nodes.now)) }
    ensures last { IfOk result (λ made. branch_view made.last ≡ base_last last (reverse nodes.now)) }
{
    if let Some(last) = last {
        return Ok(FlowNode {
            body: Items::new(alloc),
            last,
        });
    }
    match nodes.last() {
        Some(node) => copy_node(alloc, node),
        None => Ok(FlowNode {
            body: Items::new(alloc),
            last: Branch::Return(None),
        }),
    }
}

impl Behind {
    /// Behind the end.
    fn new(alloc: Global) -> Behind
        ensures { behind_view result ≡ start }
    {
        Behind {
            bodies: Items::new(alloc),
            last: Some(Branch::Return(None)),
            nodes: Items::new(alloc),
        }
    }

    // A node begins here.
    fn begin_node(&mut self, alloc: Global) -> Result<(), Memory>
        ensures { OnOk result (behind_view self.new ≡ record (behind_view self.old) { nodes = node_here (behind_view self.old) ∷ (behind_view self.old).nodes }) }
    {
        let FlowNode { body, last } = base(alloc, self.last.take(), self.nodes.as_slice())?;
        let body = join(alloc, &mut self.bodies, body)?;
        self.nodes.push(FlowNode { body, last })
    }

    // Control goes on by a branch here.
    fn leave(&mut self, alloc: Global, branch: Branch)
        ensures { behind_view self.new ≡ record (behind_view self.old) { body = []; last = branch_view branch } }
    {
        self.bodies = Items::new(alloc);
        self.last = Some(branch);
    }

    // Statements stand here.
    #[tactic(auto, using(crate::proofs::Fronts::joined_last))]
    fn push_body(&mut self, body: Items<RStmt>) -> Result<(), Memory>
        ensures { OnOk result (behind_view self.new ≡ record (behind_view self.old) { body = map stmt_view body ++ (behind_view self.old).body }) }
    {
        self.bodies.push(body)
    }

    // A piece of the text stands in front.
    fn put_in_front(
        &mut self,
        alloc: Global,
        places: &Places<'_>,
        instr: Instr,
    ) -> Result<(), Memory>
        ensures { OnOk result (behind_view self.new ≡ in_front (number_of places.now) (is_reached_in places.now) (instr_view instr) (behind_view self.old)) }
    {
        match instr {
            Instr::Marks(place) => {
                if places.is_reached(alloc, &place)? {
                    self.begin_node(alloc)
                } else {
                    Ok(())
                }
            }
            Instr::Does(body) => self.push_body(body),
            Instr::Leaves(branch) => {
                let branch = branch_of(alloc, places, branch)?;
                self.leave(alloc, branch);
                Ok(())
            }
        }
    }

    // The nodes, in the order of the text.
    fn into_nodes(self) -> Items<FlowNode>
        ensures { map node_view result ≡ (behind_view self).nodes }
    {
        let Behind { nodes, .. } = self;
        let mut nodes = nodes.into_vec();
        nodes.reverse();
        Items::of(nodes)
    }
}

/// The nodes of the places of linear code that are reached, in its order. Refused only for want of memory.
pub(crate) fn nodes_of(
    alloc: Global,
    places: &Places<'_>,
    code: Items<Instr>,
) -> Result<Items<FlowNode>, Memory>
    ensures { IfOk result (λ made. map node_view made ≡ (all_in_front (number_of places.now) (is_reached_in places.now) (map instr_view code) start).nodes) }
{
    let mut code = code;
    let mut behind = Behind::new(alloc);
    while let Some(instr) = code.pop() {
        behind.put_in_front(alloc, places, instr)?;
    }
    Ok(behind.into_nodes())
}
