//! Which clients may be read or written on, and waiting until one may.

ghost use Rattle.std.specs.Prelude.{◌≡◌, ◌<◌, ℕ, None, Ok, Err, false, true, set};
ghost use Rattle.std.specs.IoError.{error_kind};
ghost use Rattle.bor_program.specs.Connections.Streams.{IsBlocked};
ghost use Rattle.std.specs.Result.{is_err};
ghost use Rattle.bor_program.specs.Connections.Places.{is_ready, place_count};
ghost use Rattle.bor_program.specs.Connections.Watching.{Act, Accepts, Listens, Notes, Waits, Watches, coming};

use crate::connections::reading::is_blocked;
use crate::log::Note;
use std::io;
use std::net::{OpenListener, OpenStream};
use std::time::Duration;

/// How many clients are served at once.
pub const PLACES: usize = 256;

/// The places of clients: where something may be read or written, and whether a client may be
/// waiting to come in.
#[derive(Clone, Copy, PartialEq, Eq)]
pub struct Places {
    ready: [bool; PLACES],
    is_called: bool,
}

impl Places {
    /// Nothing may be read or written, and a client may be waiting to come in.
    pub fn new() -> Places
        ensures called { result.is_called ≡ true }
    {
        Places {
            ready: [false; PLACES],
            is_called: true,
        }
    }

    /// Something may be read or written at this place.
    pub fn wake(&mut self, place: usize)
        ensures ready { self.new.ready ≡ set self.old.ready place true }
        ensures called { self.new.is_called ≡ self.old.is_called }
    {
        if place < PLACES {
            self.ready[place] = true;
        }
    }

    /// A client may be waiting to come in.
    pub fn call(&mut self)
        ensures ready { self.new.ready ≡ self.old.ready }
        ensures called { self.new.is_called ≡ true }
    {
        self.is_called = true;
    }

    /// Something may be read or written anywhere.
    pub(crate) fn wake_all(&mut self)
        ensures ready { (place : ℕ) → place < place_count → is_ready self.new place ≡ true }
        ensures called { self.new.is_called ≡ true }
    {
        *self = Places {
            ready: [true; PLACES],
            is_called: true,
        };
    }

    /// Whether a client may be waiting to come in.
    pub(crate) fn is_called(&self) -> bool
        ensures { result ≡ self.now.is_called }
    {
        self.is_called
    }

    /// No client is waiting to come in.
    pub(crate) fn answer_call(&mut self)
        ensures ready { self.new.ready ≡ self.old.ready }
        ensures called { self.new.is_called ≡ false }
    {
        self.is_called = false;
    }

    /// Whether something may be read or written at this place. The mark is taken away.
    pub(crate) fn is_woken(&mut self, place: usize) -> bool
        ensures woken { result ≡ is_ready self.old place }
        ensures ready { self.new.ready ≡ set self.old.ready place false }
        ensures called { self.new.is_called ≡ self.old.is_called }
    {
        if place < PLACES && self.ready[place] {
            self.ready[place] = false;
            return true;
        }
        false
    }
}

/// The watch, which says where something may be read or written.
///
/// It reports a change: a client that was read or written on until nothing more could be is
/// reported again once something can. It may report more than there is.
pub trait Watch<L: OpenListener> {
    /// This call leads from one state of it to another.
    ghost does: { Self → Act → Self → Type 0 };

    /// Watches for clients that come in.
    ///
    /// # Errors
    ///
    /// They can't be watched for.
    fn watch_listener(&mut self, listener: &L) -> io::Result<()>
        ensures { does self.old (Listens (is_err result)) self.new };

    /// Lets a client in that waits for it, if there is one ([`accepted`]).
    ///
    /// # Errors
    ///
    /// A client can't be let in, and is lost.
    fn accept(&mut self, listener: &L) -> io::Result<Option<L::Stream>>
        ensures { does self.old (Accepts (coming result)) self.new };

    /// Watches a client at this place, until its stream is dropped.
    ///
    /// # Errors
    ///
    /// It can't be watched.
    fn watch(&mut self, stream: &L::Stream, place: usize) -> io::Result<()>
        ensures { does self.old (Watches (is_err result)) self.new };

    /// Waits until something may be read or written, or a client may be waiting, or the time is up,
    /// and marks where. Without a limit it waits for ever.
    ///
    /// # Errors
    ///
    /// Waiting failed.
    fn wait(&mut self, limit: Option<Duration>, places: &mut Places) -> io::Result<()>
        ensures { does self.old (Waits limit (is_err result)) self.new };

    /// Whether requests that were answered are to be noted.
    fn is_noting(&self) -> bool {
        false
    }

    /// Notes a request that was answered since the last wait.
    fn note(&mut self, note: Note)
        ensures { does self.old (Notes note) self.new };
}

/// A client that waits to come in at a listener that doesn't block, if there is one. Its stream
/// doesn't either.
///
/// # Errors
///
/// The client can't be accepted, or its stream can't be kept from blocking.
pub fn accepted<L: OpenListener>(listener: &L) -> io::Result<Option<L::Stream>>
where
    L::Stream: OpenStream,
{
    match listener.accept() {
        Ok((stream, _)) => {
            stream.set_nonblocking(true)?;
            Ok(Some(stream))
        }
        Err(error) => nobody(error),
    }
}

// Nobody waits to come in where accepting one fails because it would block. Else one is lost.
fn nobody<S>(error: io::Error) -> io::Result<Option<S>>
    ensures nobody { IsBlocked (error_kind error) → result ≡ Ok None }
    ensures lost { (IsBlocked (error_kind error) → ⊥) → result ≡ Err error }
{
    if is_blocked(&error) {
        Ok(None)
    } else {
        Err(error)
    }
}
