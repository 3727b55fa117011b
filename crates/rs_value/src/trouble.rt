use rs_mean::Cause;

/// Why nothing is found of values.
#[derive(Clone, Copy)]
pub enum Trouble {
    /// The step has no meaning.
    Wrong(Cause),
    /// Want of memory, or a number that no value of a type is.
    Memory,
}
