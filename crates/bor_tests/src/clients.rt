//! Clients without sockets, a listener that they wait at, and a clock that goes on by being read.

ghost use Rattle.std.specs.Prelude.{⊤};

use bor_program::connections::{PLACES, Places, Watch, accepted};
use bor_program::log::Note;
use std::alloc::Global;
use std::cell::Cell;
use std::io;
use std::io::{ErrorKind, Read, Write};
use std::net::{OpenListener, OpenStream, Shutdown, SocketAddr};
use std::time::{Clock, Duration};

/// A clock that is so many milliseconds on each time that it is read, or can't be read.
#[derive(Drop)]
pub(crate) struct Ticking {
    now: Cell<u64>,
    step: Option<u64>,
}

impl Ticking {
    pub(crate) fn new(step: Option<u64>) -> Ticking {
        Ticking {
            now: Cell::new(0),
            step,
        }
    }
}

impl Clock for Ticking {
    fn monotonic(&self) -> io::Result<Duration> {
        let Some(step) = self.step else {
            return Err(io::Error::from(ErrorKind::Unsupported));
        };
        let now = self.now.get();
        self.now.set(now.saturating_add(step));
        Ok(Duration::from_millis(now))
    }

    fn since_1970(&self) -> io::Result<Duration> {
        self.monotonic()
    }
}

/// A client that sends its bytes in pieces, and takes its reply in pieces: one each time that it is waited for.
#[derive(Drop)]
pub(crate) struct Client<'a> {
    pub(crate) sends: &'a [u8],
    pub(crate) piece: usize,
    pub(crate) takes: usize,
    /// It takes no more once it has so much of its reply.
    pub(crate) stops: usize,
    /// It ends its input behind its bytes; else it sends no more.
    pub(crate) ends: bool,
    pub(crate) sent: Cell<usize>,
    /// How much was sent when it was told that no more is written.
    pub(crate) ended: Cell<Option<usize>>,
    // The reply that it wants, how much of it was taken, and whether anything else was.
    wants: &'a [u8],
    taken: Cell<usize>,
    differs: Cell<bool>,
    may_send: Cell<bool>,
    may_take: Cell<bool>,
}

impl<'a> Client<'a> {
    /// A client that sends the bytes in pieces of this size, takes all that it is told, and wants this reply.
    pub(crate) fn new(sends: &'a [u8], piece: usize, wants: &'a [u8]) -> Client<'a> {
        Client {
            sends,
            piece,
            takes: usize::MAX,
            stops: usize::MAX,
            ends: true,
            sent: Cell::new(0),
            ended: Cell::new(None),
            wants,
            taken: Cell::new(0),
            differs: Cell::new(false),
            may_send: Cell::new(true),
            may_take: Cell::new(true),
        }
    }

    /// One that sends the bytes in pieces of this size, and then waits.
    pub(crate) fn waiting(sends: &'a [u8], piece: usize, wants: &'a [u8]) -> Client<'a> {
        let mut client = Client::new(sends, piece, wants);
        client.ends = false;
        client
    }

    /// Whether what it has is so much of the reply that it wants, and nothing else.
    pub(crate) fn has_front(&self, length: usize) -> bool {
        self.taken.get() == length && !self.differs.get()
    }

    /// Whether it has the reply that it wants, and nothing else.
    pub(crate) fn has_all(&self) -> bool {
        self.has_front(self.wants.len())
    }

    // Takes the bytes.
    fn take(&self, bytes: &[u8]) {
        let begin = self.taken.get();
        let end = begin.saturating_add(bytes.len());
        let is_wanted = match self.wants.get(begin..end) {
            Some(part) => part == bytes,
            None => false,
        };
        if !is_wanted {
            self.differs.set(true);
        }
        self.taken.set(end);
    }
}

/// A connection of a client.
#[derive(Clone, Copy)]
pub(crate) struct Line<'a>(&'a Client<'a>);

impl<'a> Read for Line<'a> {
    fn read(&mut self, buf: &mut [u8]) -> io::Result<usize> {
        let rest = self.0.sends.get(self.0.sent.get()..).unwrap_or(&[]);
        if !self.0.may_send.get() || rest.is_empty() && !self.0.ends {
            return Err(io::Error::from(ErrorKind::WouldBlock));
        }
        // A piece may be larger than what is read at once.
        self.0.may_send.set(self.0.piece == usize::MAX);
        let count = self.0.piece.min(buf.len()).min(rest.len());
        buf[..count].copy_from_slice(&rest[..count]);
        self.0.sent.set(self.0.sent.get().saturating_add(count));
        Ok(count)
    }
}

impl<'a> Write for Line<'a> {
    fn write(&mut self, buf: &[u8]) -> io::Result<usize> {
        if !self.0.may_take.get() || self.0.taken.get() >= self.0.stops {
            return Err(io::Error::from(ErrorKind::WouldBlock));
        }
        self.0.may_take.set(self.0.takes == usize::MAX);
        let count = self.0.takes.min(buf.len());
        self.0.take(&buf[..count]);
        Ok(count)
    }

    fn flush(&mut self) -> io::Result<()> {
        Ok(())
    }
}

impl<'a> OpenStream for Line<'a> {
    fn shutdown(&self, _how: Shutdown) -> io::Result<()> {
        self.0.ended.set(Some(self.0.sent.get()));
        Ok(())
    }

    fn set_nonblocking(&self, nonblocking: bool) -> io::Result<()> {
        if nonblocking {
            Ok(())
        } else {
            Err(io::Error::from(ErrorKind::InvalidInput))
        }
    }
}

/// Clients in the order in which they are accepted; in place of one that is none, an accept fails. Behind the
/// last nobody comes.
#[derive(Drop)]
pub(crate) struct Queue<'a> {
    clients: &'a [Option<&'a Client<'a>>],
    pub(crate) accepted: Cell<usize>,
}

impl<'a> Queue<'a> {
    pub(crate) fn new(clients: &'a [Option<&'a Client<'a>>]) -> Queue<'a> {
        Queue {
            clients,
            accepted: Cell::new(0),
        }
    }
}

impl<'a> OpenListener for Queue<'a> {
    type Stream = Line<'a>;

    fn accept(&self) -> io::Result<(Line<'a>, SocketAddr)> {
        let place = self.accepted.get();
        if place < self.clients.len() {
            self.accepted.set(place.saturating_add(1));
        }
        match self.clients.get(place) {
            Some(Some(client)) => Ok((Line(client), SocketAddr::from(([127, 0, 0, 1], 0)))),
            Some(None) => Err(io::Error::from(ErrorKind::ConnectionAborted)),
            None => Err(io::Error::from(ErrorKind::WouldBlock)),
        }
    }
}

/// Each wait ends at once: each client of the queue may send a piece and take one, wherever it has its place.
#[derive(Drop)]
pub(crate) struct Waits<'a> {
    /// Where the clients wait to be accepted.
    pub(crate) queue: &'a Queue<'a>,
    /// How long each might last.
    pub(crate) limits: Vec<Option<Duration>>,
    /// None can be waited for.
    pub(crate) fails: bool,
    /// After so many waits the queue begins with its first client.
    pub(crate) turns: usize,
}

impl<'a> Waits<'a> {
    pub(crate) fn new(alloc: Global, queue: &'a Queue<'a>) -> Waits<'a> {
        Waits {
            queue,
            limits: Vec::new(alloc),
            fails: false,
            turns: usize::MAX,
        }
    }
}

impl<'a> Watch<Queue<'a>> for Waits<'a> {
    ghost does = { λ _ _ _. ⊤ };

    fn watch_listener(&mut self, _listener: &Queue<'a>) -> io::Result<()> {
        Ok(())
    }

    fn accept(&mut self, listener: &Queue<'a>) -> io::Result<Option<Line<'a>>> {
        accepted(listener)
    }

    fn watch(&mut self, _stream: &Line<'a>, _place: usize) -> io::Result<()> {
        Ok(())
    }

    fn wait(&mut self, limit: Option<Duration>, places: &mut Places) -> io::Result<()> {
        if self.fails {
            return Err(io::Error::from(ErrorKind::Unsupported));
        }
        self.limits.push(limit)?;
        if self.limits.len() == self.turns {
            self.queue.accepted.set(0);
        }
        for client in self.queue.clients.iter().flatten() {
            client.may_send.set(true);
            client.may_take.set(true);
        }
        for place in 0..PLACES {
            places.wake(place);
        }
        places.call();
        Ok(())
    }

    fn note(&mut self, _note: Note) {}
}
