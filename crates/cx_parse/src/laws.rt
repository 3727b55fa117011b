//! The law of what tokens derive. The function does nothing: its contract is the law.

ghost use Rattle.cx_parse.specs.Parsed.{OneTree};

/// Law: two trees that the same tokens derive are equal.
pub fn one_tree()
    ensures { OneTree }
{}
