//! Labels.

ghost use Rattle.std.specs.Prelude.{◌≡◌, ◌∷◌, IfOk};
ghost use Rattle.emit_rules.specs.Jumps.{label_of};
ghost use Rattle.emit_rules.specs.Labels.{numbered_label};
ghost use Rattle.emit_stmts.specs.Copies.{inside, jump_label, own_label};

use cr_base::{Items, Memory, Name};
use std::alloc::Global;

/// The labels of copied statements.
#[derive(Drop)]
pub enum Labels {
    /// Those that the statements have.
    AsTheyAre,
    /// Each has the number of labels that are around it in the copy: in the statements, and these, the innermost first.
    ByDepth(Items<Name>),
}

/// The label of a number.
pub fn label_of(alloc: Global, number: usize) -> Result<Name, Memory>
    ensures { IfOk result (λ label. label ≡ label_of number) }
{
    let text = format!(in alloc; "l{number}")?;
    Ok(Name::of(Vec::from_slice(alloc, text.as_bytes())?))
}

// The label by depth of one among those around, the innermost first.
fn numbered_label(alloc: Global, around: &[Name], label: &Name) -> Result<Name, Memory>
    ensures { IfOk result (λ made. made ≡ numbered_label around.now label.now) }
{
    let mut outer = around.len();
    for inner in around {
        outer -= 1;
        if inner.bytes() == label.bytes() {
            return label_of(alloc, outer);
        }
    }
    label.copy()
}

// A label in front of others.
fn in_front(alloc: Global, label: &Name, around: &[Name]) -> Result<Items<Name>, Memory>
    ensures { IfOk result (λ labels. labels ≡ label.now ∷ around.now) }
{
    let mut labels = Items::new(alloc);
    labels.push(label.copy()?)?;
    for outer in around {
        labels.push(outer.copy()?)?;
    }
    Ok(labels)
}

/// The label that a jump to a label has in a copy.
pub(crate) fn jump_label(alloc: Global, labels: &Labels, label: &Name) -> Result<Name, Memory>
    ensures { IfOk result (λ made. made ≡ jump_label labels.now label.now) }
{
    match labels {
        Labels::AsTheyAre => label.copy(),
        Labels::ByDepth(around) => numbered_label(alloc, around.as_slice(), label),
    }
}

/// The label that a loop or a block of a label has in a copy.
pub(crate) fn own_label(alloc: Global, labels: &Labels, label: &Name) -> Result<Name, Memory>
    ensures { IfOk result (λ made. made ≡ own_label labels.now label.now) }
{
    match labels {
        Labels::AsTheyAre => label.copy(),
        Labels::ByDepth(around) => label_of(alloc, around.len()),
    }
}

/// How labels are copied in a loop or a block of a label.
pub(crate) fn inside(alloc: Global, label: &Name, labels: &Labels) -> Result<Labels, Memory>
    ensures { IfOk result (λ inner. inner ≡ inside label.now labels.now) }
{
    match labels {
        Labels::AsTheyAre => Ok(Labels::AsTheyAre),
        Labels::ByDepth(around) => Ok(Labels::ByDepth(in_front(alloc, label, around.as_slice())?)),
    }
}
