//! Type names (ISO C99, 6.7.6).

ghost use Rattle.std.specs.Prelude.{◌≡◌, ◌≤◌, ◌<◌, ◌^◌, suc, IfOk};
ghost use Rattle.cx_cursor.specs.Reading.{Answers};
ghost use Rattle.cx_expr.specs.Exprs as reader;
ghost use Rattle.cx_expr.specs.Asked.{IsBelow};
ghost use Rattle.cx_expr.specs.Knot.{readers};
ghost use Rattle.cx_tree.specs.Depth.{type_name_depth};
ghost use Rattle.cx_tree.specs.Views.{type_name_view};

use crate::declarators::declarator_or_missing;
use crate::specifiers::specs_from;
use cr_base::{Boxed, Items};
use cx_cursor::{Cursor, Fault, Measured};
use cx_expr::{Found, ReadTypeName, Wanted};
use cx_tree::TypeName;
use cx_words::Form;
use std::alloc::Global;

/// Reads a type name whose parts are at most `depth` nodes deep.
#[tactic(auto, unfolding(cx_expr::specs::Exprs::type_name_from, cx_cursor::specs::Reading::bind))]
pub fn type_name_from<F: Fn(&mut Cursor<'_>, u32, Wanted) -> Result<Found, Fault>>(
    alloc: Global,
    cursor: &mut Cursor<'_>,
    depth: u32,
    below: &F,
) -> Result<ReadTypeName, Fault>
    requires parts { IsBelow (F.pre below.now) (F.post below.now) depth }
    requires depth { depth < 2 ^ 31 }
    ensures reads { Answers (λ r. type_name_view r.tree) result cursor.new (reader.type_name_from (readers depth) cursor.old) }
    ensures depth { IfOk result (λ r. r.depth ≡ type_name_depth (type_name_view r.tree)) }
    ensures within { IfOk result (λ r. r.depth ≤ suc depth) }
{
    let specs = specs_from(alloc, cursor, depth, below, false)?;
    let declarator = declarator_or_missing(alloc, cursor, depth, below, Form::Abstract)?;
    let depth = specs.depth.max(declarator.depth) + 1;
    let name = TypeName {
        specs: specs.list,
        declarator: declarator.tree,
        lines: Items::new(alloc),
    };
    let tree = Boxed::new(alloc, name)?;
    Ok(Measured { tree, depth })
}
