//! Symbols (ISO C99, 6.2.2; the Rust Reference, "Application binary interface").

ghost use Rattle.std.specs.Prelude.{◌≡◌, bytes_eq, IfOk};
ghost use Rattle.cx_core.specs.declared.program.Linkage.TheVariants.{External};
ghost use Rattle.rs_text.specs.Names.{bare_name};
ghost use Rattle.whole_items.specs.Items.{attribute_of, link_name_of};

use cr_base::{Memory, Name};
use cx_core::Linkage;
use rs_text::Attribute;
use std::alloc::Global;

// A name without `r#` in front.
fn bare_name(name: &[u8]) -> &[u8]
    ensures { result.now ≡ bare_name name.now }
{
    match name.strip_prefix(b"r#".as_slice()) {
        Some(rest) => rest,
        None => name,
    }
}

// Whether a name is its own symbol.
fn is_symbol(symbol: &[u8], name: &[u8]) -> bool
    ensures { result ≡ bytes_eq (bare_name name.now) symbol.now }
{
    bare_name(name) == symbol
}

fn copied(alloc: Global, bytes: &[u8]) -> Result<Name, Memory>
    ensures { IfOk result (λ name. name ≡ bytes.now) }
{
    let bytes = Vec::from_slice(alloc, bytes)?;
    Ok(Name::of(bytes))
}

// That of what has external linkage.
fn external(alloc: Global, symbol: &[u8], name: &[u8]) -> Result<Attribute, Memory>
    ensures { IfOk result (λ made. made ≡ attribute_of External symbol.now name.now) }
{
    if is_symbol(symbol, name) {
        return Ok(Attribute::NoMangle);
    }
    let symbol = copied(alloc, symbol)?;
    Ok(Attribute::ExportName(symbol))
}

/// A function or object with external linkage has its name in C as its symbol, and others have none of their own. Refused only for want of memory.
pub fn attribute_of(
    alloc: Global,
    linkage: Linkage,
    symbol: &[u8],
    name: &[u8],
) -> Result<Attribute, Memory>
    ensures { IfOk result (λ made. made ≡ attribute_of linkage symbol.now name.now) }
{
    match linkage {
        Linkage::External => external(alloc, symbol, name),
        Linkage::Internal | Linkage::Nothing => Ok(Attribute::Mangled),
    }
}

/// The symbol of an external function, where its name is another. Refused only for want of memory.
pub(crate) fn link_name_of(
    alloc: Global,
    symbol: &[u8],
    name: &[u8],
) -> Result<Option<Name>, Memory>
    ensures { IfOk result (λ made. made ≡ link_name_of symbol.now name.now) }
{
    if is_symbol(symbol, name) {
        return Ok(None);
    }
    let symbol = copied(alloc, symbol)?;
    Ok(Some(symbol))
}
