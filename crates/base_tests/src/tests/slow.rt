//! A shelf over files that give two bytes at a time and interrupt reads.

ghost use Rattle.std.specs.Prelude.{IsErr};

use shelf::{DiskShelf, Got, Shelf, ShelfFault};
use std::alloc::{Allocator, Global};
use std::cell::Cell;
use std::fs::{Metadata, OpenFile, OpenOptions};
use std::io::{self, ErrorKind, Read, Seek, SeekFrom, Write};
use std::rt::Files;

// An outside in which each file has the same bytes.
#[derive(Clone, Copy)]
struct SlowFiles<'a> {
    bytes: &'a [u8],
    // How many reads are interrupted before each that gives something.
    interrupts: u32,
    // What a read behind the last byte gives in the place of the end.
    error: Option<ErrorKind>,
    // How many bytes were read.
    taken: &'a Cell<usize>,
}

#[derive(Drop)]
struct SlowFile<'a> {
    rest: &'a [u8],
    interrupts: u32,
    left: u32,
    error: Option<ErrorKind>,
    taken: &'a Cell<usize>,
}

impl Read for SlowFile<'_> {
    fn read(&mut self, buf: &mut [u8]) -> io::Result<usize> {
        if self.left > 0 {
            self.left -= 1;
            return Err(io::Error::from(ErrorKind::Interrupted));
        }
        self.left = self.interrupts;
        if self.rest.is_empty() {
            if let Some(kind) = self.error {
                return Err(io::Error::from(kind));
            }
        }
        let count = self.rest.len().min(buf.len()).min(2);
        buf[..count].copy_from_slice(&self.rest[..count]);
        self.rest = &self.rest[count..];
        self.taken.set(self.taken.get().saturating_add(count));
        Ok(count)
    }
}

// Everything but reading isn't there.
fn unsupported<T>() -> io::Result<T>
    ensures { IsErr result }
{
    Err(io::Error::from(ErrorKind::Unsupported))
}

impl Write for SlowFile<'_> {
    fn write(&mut self, _buf: &[u8]) -> io::Result<usize> {
        unsupported()
    }

    fn flush(&mut self) -> io::Result<()> {
        unsupported()
    }
}

impl Seek for SlowFile<'_> {
    fn seek(&mut self, _to: SeekFrom) -> io::Result<u64> {
        unsupported()
    }
}

impl OpenFile for SlowFile<'_> {
    fn metadata(&self) -> io::Result<Metadata> {
        unsupported()
    }

    fn set_len(&self, _size: u64) -> io::Result<()> {
        unsupported()
    }

    fn sync_all(&self) -> io::Result<()> {
        unsupported()
    }

    fn sync_data(&self) -> io::Result<()> {
        unsupported()
    }
}

impl<'a> Files for SlowFiles<'a> {
    type File = SlowFile<'a>;

    type Dir = SlowFile<'a>;

    fn open_file(&self, _how: &OpenOptions, _path: &str) -> io::Result<SlowFile<'a>> {
        Ok(SlowFile {
            rest: self.bytes,
            interrupts: self.interrupts,
            left: self.interrupts,
            error: self.error,
            taken: self.taken,
        })
    }

    fn open_dir(&self, _path: &str) -> io::Result<SlowFile<'a>> {
        unsupported()
    }

    fn metadata(&self, _path: &str) -> io::Result<Metadata> {
        unsupported()
    }

    fn symlink_metadata(&self, _path: &str) -> io::Result<Metadata> {
        unsupported()
    }

    fn copy(&self, _from: &str, _to: &str) -> io::Result<u64> {
        unsupported()
    }

    fn rename(&self, _from: &str, _to: &str) -> io::Result<()> {
        unsupported()
    }

    fn remove_file(&self, _path: &str) -> io::Result<()> {
        unsupported()
    }

    fn create_dir(&self, _path: &str) -> io::Result<()> {
        unsupported()
    }

    fn remove_dir(&self, _path: &str) -> io::Result<()> {
        unsupported()
    }

    fn remove_dir_all<B: Allocator>(&self, _alloc: B, _path: &str) -> io::Result<()> {
        unsupported()
    }
}

// Whether a shelf gives the bytes of a file, or None where it finds it too large, and how many bytes it read.
type Outcome = (Result<Option<bool>, ShelfFault>, usize);

// What a shelf gives of the file `hello`.
fn read(alloc: Global, limit: usize, interrupts: u32, error: Option<ErrorKind>) -> Outcome {
    let taken = Cell::new(0);
    let files = SlowFiles {
        bytes: b"hello",
        interrupts,
        error,
        taken: &taken,
    };
    let is_given = match DiskShelf::new(alloc, &files).get("a.c", limit) {
        Ok(Got::Bytes(bytes)) => Ok(Some(bytes.as_slice() == b"hello".as_slice())),
        Ok(Got::TooLarge) => Ok(None),
        Err(fault) => Err(fault),
    };
    (is_given, taken.get())
}

// Reads that give little, or are interrupted up to 63 times, are joined; no more than one byte above the limit is
// read; a read that is interrupted 64 times, or goes wrong behind the last byte, is a failed call.
#[test]
fn reads_are_joined(rt: HostRuntime) {
    let alloc = rt.alloc();
    let whole = Ok(Some(true));
    let failed = Err(ShelfFault::Failed);
    let rows = [
        (read(alloc, 5, 0, None), (whole, 5)),
        (read(alloc, 9, 3, None), (whole, 5)),
        (read(alloc, usize::MAX, 63, None), (whole, 5)),
        (read(alloc, 3, 0, None), (Ok(None), 4)),
        (read(alloc, 9, 64, None), (failed, 0)),
        (read(alloc, 9, 0, Some(ErrorKind::Other)), (failed, 5)),
    ];
    for (outcome, wanted) in rows {
        assert_eq!(rt; outcome, wanted);
    }
}
