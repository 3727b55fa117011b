/// In whose set of names a name is looked for.
#[derive(Clone, Copy, Debug, PartialEq, Eq)]
pub enum NameScope {
    /// The items of a module.
    Module,
    /// The parameters and locals of a function, beside the items of its module.
    Function,
    /// The fields of a record.
    Fields,
}
