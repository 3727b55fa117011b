//! The laws of what bytes spell. Each function does nothing: its contract is the law.

ghost use Rattle.cx_lex.specs.Lexed.{SpellOnce, SpellOrBreak, SpellLongest};

/// Bytes spell at most one list of tokens.
pub fn bytes_spell_once()
    ensures { SpellOnce }
{}

/// Bytes spell a list of tokens exactly where they break no rule of tokens.
pub fn bytes_spell_or_break()
    ensures { SpellOrBreak }
{}

/// A token that is read at a place is the longest front there that is a token.
pub fn tokens_are_longest()
    ensures { SpellLongest }
{}
