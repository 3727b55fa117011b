//! Laws of the text that is written from a flow and its shape. The functions do nothing: their contracts are the laws.

ghost use Rattle.emit_laws.specs.LawsShape.{TextShaped};
ghost use Rattle.emit_laws.specs.LawsText.{TextOwes};
ghost use Rattle.emit_laws.specs.LawsTyping.{TextTyped};
ghost use Rattle.emit_laws.specs.LawsValid.{TextValid};

/// Law: the text is owed to any source that goes along the flow, node by node: in both halves, so that it does just what the source does.
/// Used for a run of C, along the flow of its body.
pub fn text_owes<F, S, A, B, P>()
    ensures { TextOwes F S A B P }
{}

/// Law: the text is well typed where the statements and branches of the nodes are, and `current_block` is a `u32` where the shape has a dispatch.
/// Used for the body of a function in a crate that is well typed.
pub fn text_typed()
    ensures { TextTyped }
{}

/// Law: `current_block` stands in the text exactly where the shape has a dispatch; without one there is a `loop` for each loop of the shape
/// and a `match` for each node that chooses among cases; and there is no `loop` where the shape doesn't go round.
/// Used for what a function declares, and for how its text looks.
pub fn text_shaped()
    ensures { TextShaped }
{}

/// Law: the text is one that is printed and read where the statements and branches of the nodes are.
/// Used for the body of a function in a crate that is printed.
pub fn text_valid()
    ensures { TextValid }
{}
