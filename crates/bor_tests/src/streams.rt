//! A reader and a writer over memory that give and take little, and fail.

use std::alloc::Global;
use std::io;
use std::io::{ErrorKind, Read, Write};

/// Gives bytes in pieces, and fails where it is told to.
#[derive(Drop)]
pub(crate) struct Drip<'a> {
    /// The bytes that are left to give.
    pub(crate) bytes: &'a [u8],
    /// The most bytes of a piece.
    pub(crate) size: usize,
    /// The error of the first read.
    pub(crate) first: Option<ErrorKind>,
    /// The error of a read where nothing is left; where there is none, the bytes end.
    pub(crate) last: Option<ErrorKind>,
}

impl<'a> Drip<'a> {
    /// A reader of the bytes that ends behind them.
    pub(crate) fn new(bytes: &'a [u8], size: usize) -> Drip<'a> {
        let (first, last) = (None, None);
        Drip {
            bytes,
            size,
            first,
            last,
        }
    }

    /// A reader of the bytes that fails behind them.
    pub(crate) fn failing(bytes: &'a [u8], size: usize, fault: ErrorKind) -> Drip<'a> {
        let (first, last) = (None, Some(fault));
        Drip {
            bytes,
            size,
            first,
            last,
        }
    }
}

impl<'a> Read for Drip<'a> {
    fn read(&mut self, buf: &mut [u8]) -> io::Result<usize> {
        if let Some(kind) = self.first.take() {
            return Err(io::Error::from(kind));
        }
        match self.last {
            Some(kind) if self.bytes.is_empty() => return Err(io::Error::from(kind)),
            _ => {}
        }
        let count = self.size.min(buf.len()).min(self.bytes.len());
        buf[..count].copy_from_slice(&self.bytes[..count]);
        self.bytes = &self.bytes[count..];
        Ok(count)
    }
}

/// Takes so many bytes in small pieces, and then fails or takes nothing.
#[derive(Drop)]
pub(crate) struct Gate {
    /// The bytes that it has taken.
    pub(crate) taken: Vec<u8>,
    /// How many bytes more it takes.
    pub(crate) room: usize,
    /// The error of the first write.
    pub(crate) first: Option<ErrorKind>,
    /// Whether it fails where there is no room; else it takes nothing.
    pub(crate) fails: bool,
    /// Whether it hands on what it took.
    pub(crate) flushes: bool,
}

impl Gate {
    /// A writer that takes so many bytes, and then fails.
    pub(crate) fn new(alloc: Global, room: usize) -> Gate {
        Gate {
            taken: Vec::new(alloc),
            room,
            first: None,
            fails: true,
            flushes: true,
        }
    }

    /// A writer that takes all.
    pub(crate) fn open(alloc: Global) -> Gate {
        Gate::new(alloc, usize::MAX)
    }

    /// Whether this is what it has taken.
    pub(crate) fn has(&self, wanted: &[u8]) -> bool {
        self.taken.as_slice() == wanted
    }
}

impl Write for Gate {
    fn write(&mut self, buf: &[u8]) -> io::Result<usize> {
        if let Some(kind) = self.first.take() {
            return Err(io::Error::from(kind));
        }
        if self.room == 0 && self.fails {
            return Err(io::Error::from(ErrorKind::BrokenPipe));
        }
        let count = self.room.min(buf.len()).min(7);
        if self.taken.extend_from_slice(&buf[..count]).is_err() {
            return Err(io::Error::from(ErrorKind::OutOfMemory));
        }
        self.room -= count;
        Ok(count)
    }

    fn flush(&mut self) -> io::Result<()> {
        if self.flushes {
            Ok(())
        } else {
            Err(io::Error::from(ErrorKind::StorageFull))
        }
    }
}
