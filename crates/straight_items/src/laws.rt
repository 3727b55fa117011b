ghost use Rattle.straight_items.specs.Laws.{KeptNames, PlainStemsNameModules};

/// Law: a name of C that is kept is an identifier of Rust, and its own Rust name where nothing is taken.
pub fn kept_names_are_rust_names()
    ensures { KeptNames }
{}

/// Law: a stem that names its module is the name of a module.
pub fn plain_stems_name_modules()
    ensures { PlainStemsNameModules }
{}
