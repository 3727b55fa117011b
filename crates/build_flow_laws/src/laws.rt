//! Laws of the text that is written from the flow of a body. The functions do nothing: their contracts are the laws.

ghost use Rattle.build_flow_laws.specs.Laws.{TextFollows};

/// Law: the text of any shape that fits the flow of a body owes what the body of C does, from where the parameters have begun to its return, where
/// what is written for each part of the body does what the part does.
/// Used for the functions of a crate that is written for a program.
pub fn text_follows()
    ensures { TextFollows }
{}
