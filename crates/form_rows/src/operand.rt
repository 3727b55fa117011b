//! Operands on the pile of a row.

use cr_base::{Boxed, Items};
use lift_forms_code::RGiven;
use row_words::Asked;
use rs_tree::{RExpr, RTy};

/// An operand: its Rust type, and how it is given.
#[derive(Drop)]
pub(crate) struct Operand {
    pub(crate) ty: Boxed<RTy>,
    pub(crate) given: RGiven,
}

/// The operands that steps have made and that none has taken, the last on top.
pub(crate) type Pile = Items<Operand>;

/// Puts an operand on the pile, where its type and what gives it were had.
pub(crate) fn push(
    pile: &mut Pile,
    ty: Option<Boxed<RTy>>,
    given: Option<RGiven>,
    asked: &mut Asked,
) {
    let Some(ty) = ty else { return };
    let Some(given) = given else { return };
    asked.had(pile.push(Operand { ty, given }));
}

/// Takes the operand on top of the pile; a row without one is refused.
pub(crate) fn taken(pile: &mut Pile, asked: &mut Asked) -> Option<Operand> {
    let found = pile.pop();
    if found.is_none() {
        asked.refuse();
    }
    found
}

/// What is given by a value, where there was memory for it.
pub(crate) fn valued(made: Option<Boxed<RExpr>>) -> Option<RGiven> {
    match made {
        Some(e) => Some(RGiven::Value(e)),
        None => None,
    }
}
