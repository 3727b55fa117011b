//! Sources: over a reader that gives two bytes at a time, is interrupted and goes wrong, and over memory.

ghost use Rattle.std.specs.Prelude.{IsOk};

use shelf::{Failed, MemSource, Source, StdSource, SureSource};
use std::alloc::{AllocError, Global};
use std::io::{self, ErrorKind, Read};

// A reader of these bytes, whose reads are interrupted some times each, and which goes wrong behind the last byte, where told so.
#[derive(Drop)]
struct Trickle<'a> {
    rest: &'a [u8],
    interrupts: u32,
    left: u32,
    error: Option<ErrorKind>,
}

impl Read for Trickle<'_> {
    fn read(&mut self, buf: &mut [u8]) -> io::Result<usize> {
        if self.left > 0 {
            self.left -= 1;
            return Err(io::Error::from(ErrorKind::Interrupted));
        }
        self.left = self.interrupts;
        if self.rest.is_empty() {
            if let Some(kind) = self.error {
                return Err(io::Error::from(kind));
            }
        }
        let count = self.rest.len().min(buf.len()).min(2);
        buf[..count].copy_from_slice(&self.rest[..count]);
        self.rest = &self.rest[count..];
        Ok(count)
    }
}

// What five calls of a source give.
fn five<S: Source>(source: &mut S) -> [Result<Option<u8>, Failed>; 5] {
    let first = source.read();
    let second = source.read();
    let third = source.read();
    let fourth = source.read();
    [first, second, third, fourth, source.read()]
}

// What five calls of a source over `abc` give.
fn trickled(interrupts: u32, error: Option<ErrorKind>) -> [Result<Option<u8>, Failed>; 5] {
    let mut source = StdSource::new(Trickle {
        rest: b"abc",
        interrupts,
        left: interrupts,
        error,
    });
    five(&mut source)
}

// A read is tried 64 times at most; one that goes wrong is a failed call.
#[test]
fn readers_are_read(rt: HostRuntime) {
    let whole = [
        Ok(Some(b'a')),
        Ok(Some(b'b')),
        Ok(Some(b'c')),
        Ok(None),
        Ok(None),
    ];
    let torn = [
        Ok(Some(b'a')),
        Ok(Some(b'b')),
        Ok(Some(b'c')),
        Err(Failed),
        Err(Failed),
    ];
    assert_eq!(rt; trickled(0, None), whole);
    assert_eq!(rt; trickled(63, None), whole);
    assert_eq!(rt;
        trickled(64, None),
        [
            Err(Failed),
            Ok(Some(b'a')),
            Ok(Some(b'b')),
            Err(Failed),
            Ok(Some(b'c'))
        ]
    );
    assert_eq!(rt; trickled(3, Some(ErrorKind::Other)), torn);
}

// A source over `ab` of which the calls 0 and 3 fail.
fn failing(alloc: Global) -> Result<MemSource, AllocError> {
    let bytes = Vec::from_slice(alloc, b"ab")?;
    let fails = Vec::from_slice(alloc, &[3, 0])?;
    Ok(MemSource::new(bytes, fails))
}

// By the clauses of the trait alone, a read of a source that never fails gives something.
fn read_surely(source: &mut SureSource) -> Result<Option<u8>, Failed>
    ensures { IsOk result }
{
    source.read()
}

// A call that fails takes no byte.
#[test]
fn memory_is_read(rt: HostRuntime) -> Result<(), AllocError> {
    let alloc = rt.alloc();
    let calls = five(&mut failing(alloc)?);
    assert_eq!(rt;
        calls,
        [
            Err(Failed),
            Ok(Some(b'a')),
            Ok(Some(b'b')),
            Err(Failed),
            Ok(None)
        ]
    );
    let mut sure = SureSource::new(Vec::from_slice(alloc, b"x")?);
    assert_eq!(rt;
        [read_surely(&mut sure), read_surely(&mut sure)],
        [Ok(Some(b'x')), Ok(None)]
    );
    Ok(())
}
