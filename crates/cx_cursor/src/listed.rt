//! What is read of a list.

ghost use Rattle.std.specs.Prelude.{◌≡◌, IfOk, OnOk, [], ◌∷◌, ◌++◌, max};

use crate::measured::Measured;
use cr_base::{Boxed, Items, Memory};
use std::alloc::Global;

/// What was read of a list: the items, the depth of the deepest of them, and the lines of the list's
/// own tokens.
#[derive(Drop)]
pub struct Listed<T> {
    pub list: Items<T>,
    pub depth: u32,
    pub lines: Items<u32>,
}

impl<T: Drop> Listed<T> {
    /// The list of no item, with the lines of the tokens in front of it.
    pub fn new(alloc: Global, lines: Items<u32>) -> Listed<T>
        ensures list { result.list ≡ [] }
        ensures depth { result.depth ≡ 0 }
        ensures lines { result.lines ≡ lines }
    {
        Listed {
            list: Items::new(alloc),
            depth: 0,
            lines,
        }
    }

    /// Takes in an item that stands in a box. Refused only for want of memory.
    pub fn push(&mut self, item: Measured<Boxed<T>>) -> Result<(), Memory>
        ensures list { OnOk result (self.new.list ≡ self.old.list ++ item.tree ∷ []) }
        ensures depth { OnOk result (self.new.depth ≡ max self.old.depth item.depth) }
        ensures lines { OnOk result (self.new.lines ≡ self.old.lines) }
    {
        let Measured { tree, depth } = item;
        self.list.push(tree.into_inner())?;
        self.depth = self.depth.max(depth);
        Ok(())
    }

    /// Takes in the line of a token. Refused only for want of memory.
    pub fn push_line(&mut self, line: u32) -> Result<(), Memory>
        ensures list { OnOk result (self.new.list ≡ self.old.list) }
        ensures depth { OnOk result (self.new.depth ≡ self.old.depth) }
        ensures lines { OnOk result (self.new.lines ≡ self.old.lines ++ line ∷ []) }
    {
        self.lines.push(line)?;
        Ok(())
    }
}

/// One line. Refused only for want of memory.
pub fn one_line(alloc: Global, line: u32) -> Result<Items<u32>, Memory>
    ensures { IfOk result (λ lines. lines ≡ line ∷ []) }
{
    let mut lines = Items::new(alloc);
    lines.push(line)?;
    Ok(lines)
}

/// Two lines. Refused only for want of memory.
pub fn two_lines(alloc: Global, first: u32, last: u32) -> Result<Items<u32>, Memory>
    ensures { IfOk result (λ lines. lines ≡ first ∷ last ∷ []) }
{
    let mut lines = Items::new(alloc);
    lines.push(first)?;
    lines.push(last)?;
    Ok(lines)
}

/// Three lines. Refused only for want of memory.
pub fn three_lines(alloc: Global, lines: [u32; 3]) -> Result<Items<u32>, Memory>
    ensures { IfOk result (λ all. all ≡ lines) }
{
    Items::from_slice(alloc, &lines)
}
