//! A reader or a writer that counts its faults.

ghost use Rattle.std.specs.Prelude.{◌≡◌, false, if◌then◌else◌, is_ok};
ghost use Rattle.std.specs.Io.{ReadsAtMost, WritesAtMost};
ghost use Rattle.std.specs.Io.KnownBytes.{ReadConsumes, WriteAppends};
ghost use Rattle.bor_http.specs.Incoming.Counted.{after_fault, gives_nothing, takes_nothing};

use std::io;
use std::io::{Read, Write};

/// A reader or a writer, with the number of its faults so far, modulo 2^64. A fault is a call that
/// failed, an interruption too, or a write that took nothing of bytes. Of a reader it knows whether
/// its last read gave nothing, as at its end, and how often it was asked again then.
#[derive(Drop)]
pub struct Counted<T> {
    inner: T,
    faults: u64,
    is_over: bool,
    late: u64,
}

impl<T> Counted<T> {
    /// The reader or writer, with no fault so far.
    pub fn new(inner: T) -> Counted<T>
        ensures inner { result.inner ≡ inner }
        ensures faults { result.faults ≡ 0 }
        ensures on { result.is_over ≡ false }
        ensures late { result.late ≡ 0 }
    {
        Counted {
            inner,
            faults: 0,
            is_over: false,
            late: 0,
        }
    }

    /// How many faults there were, modulo 2^64.
    pub fn faults(&self) -> u64
        ensures { result ≡ self.now.faults }
    {
        self.faults
    }

    /// How often a reader was asked again when its last read had given nothing, modulo 2^64.
    pub fn late(&self) -> u64
        ensures { result ≡ self.now.late }
    {
        self.late
    }
}

impl<R: Read> Counted<R> {
    /// Reads once, and hands on what the reader answers.
    ///
    /// # Errors
    ///
    /// The reader's.
    pub fn read(&mut self, buf: &mut [u8]) -> io::Result<usize>
        ensures bound { ReadsAtMost result buf.new }
        ensures bytes { ReadConsumes (R.remaining self.old.inner)
            (R.remaining self.new.inner) result buf.new }
        ensures faults { self.new.faults
            ≡ (if is_ok result then self.old.faults else after_fault self.old.faults) }
        ensures over { self.new.is_over ≡ gives_nothing result }
        ensures late { self.new.late
            ≡ (if self.old.is_over then after_fault self.old.late else self.old.late) }
    {
        if self.is_over {
            self.late = self.late.wrapping_add(1);
        }
        let result = self.inner.read(buf);
        self.is_over = match &result {
            Ok(n) => *n == 0,
            Err(_) => true,
        };
        if result.is_err() {
            self.faults = self.faults.wrapping_add(1);
        }
        result
    }
}

impl<W: Write> Counted<W> {
    /// Writes once, and hands on what the writer answers.
    ///
    /// # Errors
    ///
    /// The writer's. That it takes nothing is no error, but a fault.
    pub fn write(&mut self, buf: &[u8]) -> io::Result<usize>
        ensures bound { WritesAtMost result buf.now }
        ensures bytes { WriteAppends (W.contents self.old.inner)
            (W.contents self.new.inner) result buf.now }
        ensures faults { self.new.faults
            ≡ (if takes_nothing result buf.now then after_fault self.old.faults
            else self.old.faults) }
    {
        let result = self.inner.write(buf);
        let fault = match &result {
            Ok(n) => *n == 0 && !buf.is_empty(),
            Err(_) => true,
        };
        if fault {
            self.faults = self.faults.wrapping_add(1);
        }
        result
    }
}
