//! The tree of a unit's tokens.

ghost use Rattle.std.specs.Prelude.{IfOk, IfErr};
ghost use Rattle.straight_parse.specs.Parsed.{IsNotDerived, IsUnlessMemory};
ghost use Rattle.straight_tree.specs.Derives.{Derives};
ghost use Rattle.straight_tree.specs.Trees.{UnitTree};
ghost use Rattle.straight_tree.specs.Views.{unit_view};

use crate::cursor::Cursor;
use crate::fault::Fault;
use crate::units::read_unit;
use cr_base::{Refusal, Rule, Stop};
use cx_lex::Token;
use std::alloc::Global;
use straight_tree::Unit;

// How deep the parts of an external declaration may be in a unit that is at most 512 nodes deep.
const PART_DEPTH: u32 = 510;

/// The tree of a unit that the tokens derive (ISO C99, 6.5 to 6.9): the one valid tree, at most 512
/// nodes deep, whose tokens these are. `Stop::Refused` is rule N1 at line 1 of the unit, where the
/// tokens derive no tree of the grammar that is built; `Stop::Memory` is want of memory.
///
/// The time grows with the number of tokens alone.
pub fn parse(alloc: Global, tokens: &[Token], unit: u32) -> Result<Unit, Stop>
    ensures found { IfOk result (λ u. Derives tokens.now (unit_view u)) }
    ensures refused { IfErr result (λ stop. IsNotDerived tokens.now unit stop) }

    // No other answer comes: a tree that the tokens derive is the one that is given.
    ensures only { (tree : UnitTree) → Derives tokens.now tree → IsUnlessMemory result tree }
{
    let mut cursor = Cursor::new(tokens);
    match read_unit(alloc, &mut cursor, PART_DEPTH) {
        Ok(read) => Ok(read),
        Err(Fault::NoTree) => Err(Stop::Refused(Refusal {
            rule: Rule::N1,
            unit,
            line: 1,
        })),
        Err(Fault::Memory) => Err(Stop::Memory),
    }
}
