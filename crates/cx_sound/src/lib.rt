//! Laws: units that break no rule make a typed and linked program, and no run of it is stuck (ISO C99, 3.4.3, 5.1.1.1 and 5.1.2.3).
#![tactic(auto)]

ghost use Rattle.cx_sound.specs.Sound.{LinkedProgramsBreakRules, LinkedProgramsHaveOutcomes, LinkedProgramsNeverStick, UnbrokenUnitsAreLinked, UnbrokenUnitsHaveOutcomes, UnbrokenUnitsNeverStick};

/// Law: the program of units whose bytes break no rule, neither each by itself nor together, is typed and linked.
pub fn unbroken_units_are_linked()
    ensures { UnbrokenUnitsAreLinked }
{}

/// Law: no run of that program is stuck, after however many steps, under whatever order and outside.
pub fn unbroken_units_never_stick()
    ensures { UnbrokenUnitsNeverStick }
{}

/// Law: a run of that program that isn't one under a trail goes on, has ended, or broke a rule of undefined steps, and nothing else.
pub fn unbroken_units_have_outcomes()
    ensures { UnbrokenUnitsHaveOutcomes }
{}

/// Law: no run of a typed and linked program is stuck, whatever units it is of. So a caller that knows the program alone has it.
pub fn linked_programs_never_stick()
    ensures { LinkedProgramsNeverStick }
{}

/// Law: a run of a typed and linked program that isn't one under a trail goes on, has ended, or broke a rule of undefined steps.
pub fn linked_programs_have_outcomes()
    ensures { LinkedProgramsHaveOutcomes }
{}

/// Law: the leftmost run of a typed and linked program, as a function of its trees, has no meaning where it breaks a rule of undefined
/// steps, and nowhere else. So a translation owes nothing behind such a step.
pub fn linked_programs_break_rules()
    ensures { LinkedProgramsBreakRules }
{}
