/// How much of a conversion of a format has been read in front of a place (ISO C99, 7.19.6.1p4).
#[derive(Clone, Copy)]
pub enum Begun {
    /// Nothing: the place isn't in a conversion.
    Nothing,
    /// `%`.
    Percent,
    /// `%l`.
    Long,
}
