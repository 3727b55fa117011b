//! What the walk over an expression leaves of a scope: the literals and the mentions before it stand in front of those behind it. So
//! what `sizeof` takes back is what its operand put behind them (ISO C99, 6.5.3.4p2).
#![tactic(auto)]

ghost use Rattle.cx_kept.specs.Prefix.{ExpressionsKeep};

/// Law: the literals and the mentions of a scope stand in front in the scope behind an expression that breaks no rule.
pub fn expressions_keep()
    ensures { ExpressionsKeep }
{}
