ghost use Rattle.straight_core.specs.Examples.{adds_answer};
ghost use Rattle.straight_core.specs.Linked.{IsLinked};

/// Law: a program with a static object, an external function, assignments and a call is typed and linked.
pub fn example_is_linked()
    ensures { IsLinked adds_answer }
{}
