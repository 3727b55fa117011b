use cr_base::Items;

/// What was got of a unit.
#[derive(Drop)]
pub enum Source {
    /// Its bytes.
    Bytes(Items<u8>),
    /// It has more bytes than a unit may have.
    TooLarge,
}
