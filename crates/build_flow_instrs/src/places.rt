//! Places of a body to which control may go (ISO C99, 6.8). Each maker is refused only for want of memory.

ghost use Rattle.std.specs.Prelude.{◌≡◌, ◌∷◌, IfOk};
ghost use Rattle.build_flow_instrs.specs.Views.{place_view};
ghost use Rattle.build_flow_nodes.specs.Builder as spec;
ghost use Rattle.build_flow_nodes.specs.Points.{at_part, on_edge};
ghost use Rattle.cx_mean.specs.BodyGraph.{at_test, at_third};

use cr_base::{Items, Memory};
use std::alloc::Global;

/// A place of a body. A statement is named by the numbers of the parts in which it stands, the innermost first.
#[derive(Drop)]
pub enum FlowPlace {
    /// A statement, from its begin on.
    Statement(Items<u32>),
    /// The controlling expression of a statement.
    Test(Items<u32>),
    /// The third expression of a `for`.
    Third(Items<u32>),
    /// The end of the body.
    End,
    /// The way from a `switch` to a label behind which objects begin.
    Edge {
        choice: Items<u32>,
        target: Items<u32>,
    },
}

/// An equal path.
pub fn copy_path(alloc: Global, path: &[u32]) -> Result<Items<u32>, Memory>
    ensures { IfOk result (λ made. made ≡ path.now) }
{
    Items::from_slice(alloc, path)
}

/// The path of a part of the statement at a path.
pub fn part_path(alloc: Global, index: u32, path: &[u32]) -> Result<Items<u32>, Memory>
    ensures { IfOk result (λ made. made ≡ index ∷ path.now) }
{
    let mut made = Items::new(alloc);
    made.push(index)?;
    made.append(Items::from_slice(alloc, path)?)?;
    Ok(made)
}

/// A statement, by its path.
pub fn statement_at(alloc: Global, path: &[u32]) -> Result<FlowPlace, Memory>
    ensures { IfOk result (λ made. place_view made ≡ spec.statement_at path.now) }
{
    let path = copy_path(alloc, path)?;
    Ok(FlowPlace::Statement(path))
}

/// The controlling expression of the statement at a path.
pub fn test_at(alloc: Global, path: &[u32]) -> Result<FlowPlace, Memory>
    ensures { IfOk result (λ made. place_view made ≡ at_part (at_test path.now)) }
{
    let path = copy_path(alloc, path)?;
    Ok(FlowPlace::Test(path))
}

/// The third expression of the `for` at a path.
pub fn third_at(alloc: Global, path: &[u32]) -> Result<FlowPlace, Memory>
    ensures { IfOk result (λ made. place_view made ≡ at_part (at_third path.now)) }
{
    let path = copy_path(alloc, path)?;
    Ok(FlowPlace::Third(path))
}

/// The way from the `switch` at a path to the label at another.
pub fn edge_at(alloc: Global, choice: &[u32], target: &[u32]) -> Result<FlowPlace, Memory>
    ensures { IfOk result (λ made. place_view made ≡ on_edge choice.now target.now) }
{
    let choice = copy_path(alloc, choice)?;
    let target = copy_path(alloc, target)?;
    Ok(FlowPlace::Edge { choice, target })
}

/// An equal place.
pub fn copy_place(alloc: Global, place: &FlowPlace) -> Result<FlowPlace, Memory>
    ensures { IfOk result (λ made. place_view made ≡ place_view place.now) }
{
    match place {
        FlowPlace::Statement(path) => statement_at(alloc, path.as_slice()),
        FlowPlace::Test(path) => test_at(alloc, path.as_slice()),
        FlowPlace::Third(path) => third_at(alloc, path.as_slice()),
        FlowPlace::End => Ok(FlowPlace::End),
        FlowPlace::Edge { choice, target } => edge_at(alloc, choice.as_slice(), target.as_slice()),
    }
}
