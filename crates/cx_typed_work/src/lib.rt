//! Laws: expressions of typed programs stay typed while they are evaluated, and no step of them is stuck (ISO C99, 6.5 and 5.1.2.3).
#![tactic(auto)]

ghost use Rattle.cx_typed_work.specs.ExternalCalls.{ExternalCallsGiveTyped};
ghost use Rattle.cx_typed_work.specs.Steps.{CallsResumeTyped, ExpressionsBeginTyped, ExpressionsGoOn, StepsAskOnce, StepsKeepTyped};

/// Law: what is begun of a typed expression is typed.
pub fn expressions_begin_typed()
    ensures { ExpressionsBeginTyped }
{}

/// Law: a typed expression that isn't finished, and doesn't wait for a call, has a ready node.
pub fn expressions_go_on()
    ensures { ExpressionsGoOn }
{}

/// Law: a step leaves an expression that waits for no call, or one in which each call that it waits for gives a value of the type that is
/// asked for.
pub fn steps_ask_once()
    ensures { StepsAskOnce }
{}

/// Law: what a call gives for which a typed expression waits keeps it typed.
pub fn calls_resume_typed()
    ensures { CallsResumeTyped }
{}

/// Law: the step at any ready node of a typed expression leaves a typed expression in a typed memory, or a typed call for which one waits,
/// or breaks a numbered rule of undefined steps. It is never stuck.
pub fn steps_keep_typed()
    ensures { StepsKeepTyped }
{}

/// Law: a call that a typed program makes of a function that no unit defines gives a value of its type in a typed memory, ends the
/// program, or breaks a rule.
pub fn external_calls_give_typed()
    ensures { ExternalCallsGiveTyped }
{}
