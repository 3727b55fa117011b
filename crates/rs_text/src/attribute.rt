use cr_base::Name;

/// The attribute that says by which symbol an item is known to the linker (the Rust Reference,
/// "Application binary interface").
#[derive(Drop)]
pub enum Attribute {
    /// None: the item is known to its crate alone.
    Mangled,
    /// `#[no_mangle]`: the symbol is the item's name.
    NoMangle,
    /// `#[export_name = "s"]`: the symbol is s.
    ExportName(Name),
}
