ghost use Rattle.std.specs.Prelude.{◌≡◌, ◌++◌, IfOk, OnOk};
ghost use Rattle.rs_text.specs.Lines.{indentation, line_bytes, text_of_lines};

use cr_base::{Items, Memory};
use rs_tree::Line;
use std::alloc::Global;

/// The bytes of lines, as they stand in a file.
pub fn bytes_of(alloc: Global, lines: &[Line]) -> Result<Items<u8>, Memory>
    ensures { IfOk result (λ bytes. bytes ≡ text_of_lines lines.now) }
{
    let mut bytes = Vec::new(alloc);
    for line in lines {
        line_bytes(&mut bytes, line)?;
    }
    Ok(Items::of(bytes))
}

// Writes a line: its indentation, its text, and a newline.
fn line_bytes(bytes: &mut Vec<u8>, line: &Line) -> Result<(), Memory>
    ensures { OnOk result (bytes.new.items ≡ bytes.old.items ++ line_bytes line.now) }
{
    indentation(bytes, line.depth)?;
    bytes.extend_from_slice(line.text.bytes())?;
    bytes.extend_from_slice(b"\n")?;
    Ok(())
}

// Writes four blanks for each open brace.
fn indentation(bytes: &mut Vec<u8>, depth: u32) -> Result<(), Memory>
    ensures { OnOk result (bytes.new.items ≡ bytes.old.items ++ indentation depth) }
{
    for _level in 0..depth {
        bytes.extend_from_slice(b"    ")?;
    }
    Ok(())
}
