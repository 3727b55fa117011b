//! The law of calls. The function does nothing: its contract is the law.

ghost use Rattle.cx_typed_calls.specs.Laws.{AllCallsEndTyped};

/// Law: a call of a function of a linked program, beside its static objects, gives a value of its type, or none where the function
/// ends without one, and leaves a typed memory in which each object that was made before and that no allocation gave lives on.
/// Used for the leftmost runs of expressions that call functions.
pub fn calls_end_typed()
    ensures { AllCallsEndTyped }
{}
