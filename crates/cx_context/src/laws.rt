ghost use Rattle.std.specs.Prelude.{[]};
ghost use Rattle.cx_context.specs.Laid.{IsLaid};
ghost use Rattle.cx_core.specs.Trees.{no_types_yet};

/// Law: before the first declaration of a unit nothing is laid out. The function does nothing: its contract is the law.
pub fn none_is_laid()
    ensures { IsLaid no_types_yet [] }
{}
