//! Laws of reading.

ghost use Rattle.rs_parse.specs.Crates.{OneMain};
ghost use Rattle.rs_parse.specs.Laws.{ModulesAreRead, TextsAreClosed, OneModule, ModuleTextsSpell, TextReads, OneCrate};

/// Law: the tokens of each valid module are read as its items.
pub fn modules_are_read()
    ensures { ModulesAreRead }
{}

/// Law: a text that spells a valid module has that module's tokens, where the ends of lists of types are
/// told apart.
pub fn texts_are_closed()
    ensures { TextsAreClosed }
{}

/// Law: two valid modules that the same text spells have the same items.
pub fn one_module()
    ensures { OneModule }
{}

/// Law: the printed text of each valid module spells that module's tokens.
pub fn module_texts_spell()
    ensures { ModuleTextsSpell }
{}

/// Law: the files that a valid crate is written to read as that crate.
pub fn text_reads()
    ensures { TextReads }
{}

/// Law: files read as one crate at most.
pub fn one_crate()
    ensures { OneCrate }
{}

/// Law: a text is that of `main.rs` for one list of names of modules at most.
pub fn one_main()
    ensures { OneMain }
{}
