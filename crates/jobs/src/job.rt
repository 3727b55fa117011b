use cr_base::Items;

/// One file or more, by their names, in the order of the words.
#[derive(Drop)]
pub struct Files<'a> {
    pub first: &'a str,
    pub others: Items<&'a str>,
}

/// What the words after the program's name ask for. Texts are the words' own.
#[derive(Drop)]
pub enum Job<'a> {
    /// Translate the units of these files, and put the crate under a directory.
    Transpile {
        directory: &'a str,
        files: Files<'a>,
    },
    /// Run the units of these files. `steps` is the most steps that the run may take, from 1 to
    /// 1,000,000,000; `order` is which of several ready places each choice takes, the leftmost where
    /// the list is used up.
    RunC {
        steps: u64,
        order: Items<u32>,
        files: Files<'a>,
    },
    /// Run the crate under a directory. `steps` is the most units that the run may take, from 1 to
    /// 1,000,000,000.
    RunRust {
        steps: u64,
        directory: &'a str,
    },
}
