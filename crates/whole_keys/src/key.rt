/// What gets a name in a module.
#[derive(Clone, Copy, Debug, PartialEq, Eq, Hash)]
pub enum NameKey {
    /// A function, an object or a record of the program, by its number.
    Function(u32),
    Object(u32),
    Record(u32),
    /// The `calloc` that is called in the place of `malloc`.
    Calloc,
    /// An external function, declared once more without parameters.
    BareFunction(u32),
}
