ghost use Rattle.std.specs.Prelude.{codes};
ghost use Rattle.straight_core.specs.Examples.{adds_answer};
ghost use Rattle.straight_whole.specs.Right.{IsTranslatable};

use straight_core::example_is_linked;

/// Law: a program with a static object, an external function, assignments and a call is translated, into a module
/// named `a`.
pub fn example_is_translatable()
    ensures { IsTranslatable adds_answer (codes "a") }
{
    example_is_linked();
}
