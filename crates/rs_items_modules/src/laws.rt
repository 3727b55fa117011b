//! Laws of the names of modules. The function does nothing: its contract is the law.

ghost use Rattle.rs_items_modules.specs.LawsModules.{ModuleNames};

/// Law: the names of modules are the first of their candidates that aren't taken, they differ, and each is one that a module may have.
pub fn module_names_are_first()
    ensures { ModuleNames }
{}
