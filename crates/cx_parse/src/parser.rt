//! The tree of a unit's tokens.

ghost use Rattle.std.specs.Prelude.{IfOk, IfErr};
ghost use Rattle.cx_parse.specs.Parsed.{IsNotDerived, IsUnlessMemory};
ghost use Rattle.cx_tree.specs.Derives.{Derives};
ghost use Rattle.cx_tree.specs.Trees.{UnitTree};
ghost use Rattle.cx_tree.specs.Views.{unit_view};

use cr_base::{Refusal, Rule, Stop};
use cx_cursor::{Cursor, Fault};
use cx_lex::Token;
use cx_stmt::read_unit;
use cx_tree::Unit;
use std::alloc::Global;

// How deep the parts of an external declaration may be in a unit that is at most 512 nodes deep.
const PART_DEPTH: u32 = 510;

/// The tree of a unit that the tokens derive (ISO C99, 6.5 to 6.9): the one valid tree, at most 512
/// nodes deep, in which each identifier is a typedef name exactly where it has to be one, and whose tokens
/// these are. `Stop::Refused` is rule S1, where there is none; its line is that of the first token that can't
/// stand where it does, that of the last token where more is needed (1 where there is none), or that of
/// the first node that is too deep. `Stop::Memory` is want of memory.
///
/// The time grows with the number of tokens alone.
pub fn parse(alloc: Global, tokens: &[Token], unit: u32) -> Result<Unit, Stop>
    ensures found { IfOk result (λ u. Derives tokens.now (unit_view u)) }
    ensures refused { IfErr result (λ stop. IsNotDerived tokens.now unit stop) }

    // No other answer comes: a tree that the tokens derive is the one that is given.
    ensures only { (tree : UnitTree) → Derives tokens.now tree → IsUnlessMemory result tree }
{
    let mut cursor = Cursor::new(alloc, tokens);
    match read_unit(alloc, &mut cursor, PART_DEPTH) {
        Ok(read) => Ok(read),
        Err(Fault::NoTree(line)) => Err(Stop::Refused(Refusal {
            rule: Rule::S1,
            unit,
            line,
        })),
        Err(Fault::Memory) => Err(Stop::Memory),
    }
}
