//! Laws of calls. The functions do nothing: their contracts are the laws.

ghost use Rattle.lift_stands_known.specs.Laws.{AnswersStand, KnownFunctionsStand, TextsStand};

/// Law: a known function does in the crate what it does in C, with arguments that stand for C's, and `calloc` may do what `malloc` does.
pub fn known_functions_stand()
    ensures { KnownFunctionsStand }
{}

/// Law: the outside answers an allocation and any other call alike in both, and worlds stand for each other after it.
pub fn answers_stand<F, G>()
    ensures { AnswersStand F G }
{}

/// Law: a text of C is the text of what stands for it.
pub fn texts_stand()
    ensures { TextsStand }
{}
