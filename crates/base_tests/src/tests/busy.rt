//! A sink over a writer that is interrupted.

use shelf::{Failed, Sink, StdSink};
use std::io::{self, ErrorKind, Write};

// A writer that is interrupted some times, and then takes as many bytes as it says.
#[derive(Drop)]
struct Busy {
    interrupts: u32,
    takes: usize,
}

impl Write for Busy {
    fn write(&mut self, buf: &[u8]) -> io::Result<usize> {
        if self.interrupts > 0 {
            self.interrupts -= 1;
            return Err(io::Error::from(ErrorKind::Interrupted));
        }
        Ok(self.takes.min(buf.len()))
    }

    fn flush(&mut self) -> io::Result<()> {
        Ok(())
    }
}

// The answer to a write of two bytes.
fn written(interrupts: u32, takes: usize) -> Result<usize, Failed> {
    let mut sink = StdSink::new(Busy { interrupts, takes });
    sink.write(b"ab")
}

// A write is tried 64 times at most.
#[test]
fn interrupted_writes_are_tried_again(rt: HostRuntime) {
    let outcomes = [written(0, 9), written(63, 1), written(64, 9), written(0, 0)];
    assert_eq!(rt; outcomes, [Ok(2), Ok(1), Err(Failed), Err(Failed)]);
}
