//! Waiting for sockets, and the log of what was answered meanwhile.

ghost use Rattle.std.specs.Prelude.{◌≡◌, ⊤};

use bor_program::connections::{PLACES, Places, Watch, accepted};
use bor_program::log::{Entry, Moment, Note, write_entry};
use mio::unix::SourceFd;
use mio::{Events, Interest, Poll, Token};
use std::alloc::Global;
use std::io::{self, ErrorKind};
use std::net::{TcpListener, TcpStream};
use std::os::fd::{AsRawFd, RawFd};
use std::time::{Clock, Duration};

// The number of a listener among the sockets that are waited for: the first that is no client's
// place.
const LISTENER: usize = PLACES;

/// Waits for the sockets of a listener and its clients, and logs on standard error what was
/// answered, where that is asked for. What it needs is made when it is first asked for.
#[derive(Drop)]
pub struct Waiting<'r> {
    rt: &'r HostRuntime,
    log: bool,
    woken: Duration,
    poll: Option<Poll>,
    events: Option<Events<Global>>,
}

impl<'r> Waiting<'r> {
    /// Waits for nothing yet.
    pub(crate) fn new(rt: &'r HostRuntime, log: bool) -> Waiting<'r>
        ensures { result.log ≡ log }
    {
        Waiting {
            rt,
            log,
            woken: Duration::ZERO,
            poll: None,
            events: None,
        }
    }

    // Has a socket reported under this number when it becomes ready.
    fn register(&mut self, socket: RawFd, number: usize, interest: Interest) -> io::Result<()> {
        if self.poll.is_none() {
            self.poll = Some(Poll::new(self.rt)?);
        }
        match &self.poll {
            Some(poll) => poll
                .registry()
                .register(&mut SourceFd(&socket), Token(number), interest),
            None => Err(io::Error::from(ErrorKind::NotFound)),
        }
    }
}

/// How long the clock has run; zero where it can't be read.
pub(crate) fn time(rt: &HostRuntime) -> Duration {
    rt.monotonic().unwrap_or(Duration::ZERO)
}

impl Watch<TcpListener> for Waiting<'_> {
    // The system's answers on sockets have no model.
    ghost does = { λ _ _ _. ⊤ };

    fn watch_listener(&mut self, listener: &TcpListener) -> io::Result<()> {
        self.register(listener.as_raw_fd(), LISTENER, Interest::READABLE)
    }

    fn accept(&mut self, listener: &TcpListener) -> io::Result<Option<TcpStream>> {
        accepted(listener)
    }

    fn watch(&mut self, stream: &TcpStream, place: usize) -> io::Result<()> {
        let both = Interest::READABLE | Interest::WRITABLE;
        self.register(stream.as_raw_fd(), place, both)
    }

    fn wait(&mut self, limit: Option<Duration>, places: &mut Places) -> io::Result<()> {
        if self.events.is_none() {
            self.events = Some(Events::with_capacity(self.rt.alloc(), PLACES)?);
        }
        let (Some(poll), Some(events)) = (&mut self.poll, &mut self.events) else {
            return Err(io::Error::from(ErrorKind::NotFound));
        };
        poll.poll(events, limit)?;
        self.woken = time(self.rt);
        for event in events.iter() {
            let Token(number) = event.token();
            if number == LISTENER {
                places.call();
            } else {
                places.wake(number);
            }
        }
        Ok(())
    }

    fn is_noting(&self) -> bool {
        self.log
    }

    fn note(&mut self, note: Note) {
        let millis = time(self.rt).saturating_sub(self.woken).as_millis();
        let entry = Entry {
            at: Moment::now(self.rt),
            asked: note.asked,
            status: note.status,
            bytes: note.bytes,
            millis: u64::try_from(millis).unwrap_or(u64::MAX),
            agent: note.agent.as_ref(),
        };
        write_entry(self.rt.alloc(), &entry, &mut self.rt.stderr());
    }
}
