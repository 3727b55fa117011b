//! A shelf and a sink that never fail.

ghost use Rattle.std.specs.Prelude.{IsOk, IsOkUnless};
ghost use Rattle.shelf.specs.Shelf.{HasCause};

use shelf::{Failed, Got, Kind, Shelf, ShelfFault, SureShelf, SureSink, write_all};
use std::alloc::Global;

// A read of any shelf, of which a caller knows the cause alone.
fn read<F: Shelf>(shelf: &mut F, name: &str) -> Result<Got, ShelfFault>
    ensures { HasCause name.now Kind.Get (F.state shelf.old) (F.state shelf.new) result }
{
    shelf.get(name, 9)
}

// By that alone, only want of memory stops a read of a shelf that never fails.
fn read_surely(shelf: &mut SureShelf, name: &str) -> Result<Got, ShelfFault>
    ensures { IsOkUnless result ShelfFault.Memory }
{
    read(shelf, name)
}

// Whether a shelf gives what was put.
fn gives_back(alloc: Global) -> bool {
    let mut shelf = SureShelf::new(Vec::new(alloc));
    let stored = shelf.put("b.c", b"x");
    match read_surely(&mut shelf, "b.c") {
        Ok(Got::Bytes(bytes)) => stored == Ok(()) && bytes.as_slice() == b"x".as_slice(),
        _ => false,
    }
}

// By the clauses of the trait alone, all of a piece can be written to a sink that never fails.
fn write_surely(sink: &mut SureSink, piece: &[u8]) -> Result<(), Failed>
    ensures { IsOk result }
{
    write_all(sink, piece)
}

#[test]
fn nothing_fails(rt: HostRuntime) {
    let mut sink = SureSink::new(rt.alloc());
    let written = write_surely(&mut sink, b"ab");
    assert!(rt; written == Ok(()) && gives_back(rt.alloc()));
}
