//! Readers and writers that give and take less than they are asked for, are interrupted, or fail.

use std::io::{self, ErrorKind, Read, Write};

/// How a stream behaves.
#[derive(Clone, Copy)]
pub struct Manner {
    /// How many bytes a call gives or takes at most.
    pub most: usize,
    /// How many bytes it gives or takes before it fails.
    pub left: usize,
    /// Whether every other call is interrupted.
    pub interrupts: bool,
}

/// A stream that never fails.
pub const SOUND: Manner = Manner {
    most: usize::MAX,
    left: usize::MAX,
    interrupts: false,
};

/// The calls of a stream so far, and how it behaves.
#[derive(Drop)]
pub struct Calls {
    manner: Manner,
    interrupts_next: bool,
}

impl Calls {
    /// No call yet.
    fn new(manner: Manner) -> Calls {
        Calls {
            manner,
            interrupts_next: manner.interrupts,
        }
    }

    /// How many bytes the next call may give or take of those wanted.
    fn next(&mut self, asked: usize) -> io::Result<usize> {
        if self.interrupts_next {
            self.interrupts_next = false;
            return Err(io::Error::from(ErrorKind::Interrupted));
        }
        self.interrupts_next = self.manner.interrupts;
        if self.manner.left == 0 {
            return Err(io::Error::other("the stream is broken"));
        }
        Ok(asked.min(self.manner.most).min(self.manner.left))
    }

    /// Records that this many bytes were given or taken.
    fn moved(&mut self, count: usize) {
        self.manner.left = self.manner.left.saturating_sub(count);
    }
}

/// A reader over memory.
#[derive(Drop)]
pub struct Source<'a> {
    rest: &'a [u8],
    calls: Calls,
}

impl<'a> Source<'a> {
    pub fn new(bytes: &'a [u8], manner: Manner) -> Source<'a> {
        Source {
            rest: bytes,
            calls: Calls::new(manner),
        }
    }
}

impl Read for Source<'_> {
    fn read(&mut self, buf: &mut [u8]) -> io::Result<usize> {
        let most = self.calls.next(buf.len())?.min(buf.len());
        let count = self.rest.read(&mut buf[..most])?;
        self.calls.moved(count);
        Ok(count)
    }
}

/// A writer to memory.
#[derive(Drop)]
pub struct Sink {
    taken: Vec<u8>,
    calls: Calls,
}

impl Sink {
    pub fn new(taken: Vec<u8>, manner: Manner) -> Sink {
        Sink {
            taken,
            calls: Calls::new(manner),
        }
    }

    /// What it took.
    pub fn taken(&self) -> &[u8] {
        self.taken.as_slice()
    }
}

impl Write for Sink {
    fn write(&mut self, buf: &[u8]) -> io::Result<usize> {
        let most = self.calls.next(buf.len())?.min(buf.len());
        self.taken.extend_from_slice(&buf[..most])?;
        self.calls.moved(most);
        Ok(most)
    }

    fn flush(&mut self) -> io::Result<()> {
        Ok(())
    }
}
