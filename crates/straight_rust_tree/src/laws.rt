ghost use Rattle.straight_rust_tree.specs.Laws.{ReturnsFortyTwo};

/// A worked example of the text of a crate: the files of the crate that returns 42 have the bytes that
/// they have, and read as that crate.
pub fn returns_forty_two()
    ensures { ReturnsFortyTwo }
{}
