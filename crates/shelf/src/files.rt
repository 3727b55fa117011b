ghost use Rattle.std.specs.Prelude.{◌≡◌, Some, OnOk, OnErr, option_copied, position, bytes_eq};
ghost use Rattle.shelf.specs.Files.{bytes_of};
ghost use Rattle.shelf.specs.Shelf.{with_file};

use crate::file::File;
use cr_base::Memory;

// The bytes of the first file of a name.
pub(crate) fn bytes_under<'a>(files: &'a [File], name: &str) -> Option<&'a [u8]>
    ensures { option_copied result ≡ bytes_of files.now name.now }
{
    let file = files.iter().find(|file| file.name.as_str() == name)?;
    Some(file.bytes.as_slice())
}

// Where the first file of a name stands.
fn place_of(files: &[File], name: &str) -> Option<usize>
    ensures { result ≡ position (λ file. bytes_eq file.name name.now) files.now }
{
    files.iter().position(|file| file.name.as_str() == name)
}

// Puts a file in the place of the first of its name, or at the end. Refused only for want of
// memory.
pub(crate) fn store(files: &mut Vec<File>, file: File) -> Result<(), Memory>
    ensures stored { OnOk result (Some (bytes_of files.new.items)
        ≡ with_file file.name file.bytes (Some (bytes_of files.old.items))) }
    ensures err { OnErr result (files.new.items ≡ files.old.items) }
{
    match place_of(files.as_slice(), file.name.as_str()) {
        Some(place) => files[place] = file,
        None => files.push(file)?,
    }
    Ok(())
}
