ghost use Rattle.rs_print.specs.Condition.{ValidIsPrintable};

/// Law: every valid crate meets the condition of `print`.
pub fn valid_crates_are_printable()
    ensures { ValidIsPrintable }
{}
