use cr_base::Items;
use shelf::File;

/// The files of a written crate; each has a name as `src/a.rs`, relative to the crate's directory.
#[derive(Drop)]
pub struct Files {
    pub list: Items<File>,
}
