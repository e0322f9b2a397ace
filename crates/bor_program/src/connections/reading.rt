//! A client whose request is read.

ghost use Rattle.std.specs.Prelude.{◌≡◌, ◌≢◌, ◌↔◌, IsTrue, [], ◌≤◌, ◌<◌, ◌+◌, ◌⊎◌, length, IfOk, MatchResult, vec_len, vec_capacity};
ghost use Rattle.std.specs.IoError.{error_kind};
ghost use Rattle.std.specs.Io.KnownBytes.{IsAtEnd, Keeps};
ghost use Rattle.bor_http.specs.Incoming.Message.{request_limit};
ghost use Rattle.bor_http.specs.Incoming.Progress.{IsProgress, IsWhole};
ghost use Rattle.bor_program.specs.declared.connections.reading.Taken.TheVariants.{Blocked, Failed, More, Whole};
ghost use Rattle.bor_program.specs.Connections.Streams.{Came, IsBlocked, IsReading, KeepsAll, Received};

use bor_http::incoming::Progress;
use std::alloc::{AllocError, Global};
use std::io::{ErrorKind, Read};
use std::{io, mem};

// The most bytes that are read at once.
const PART: usize = 16_384;

// The first room for a request, in which most heads fit.
const FIRST_ROOM: usize = 960;

/// A client whose request is read: the bytes that have come, and what is known of them.
#[derive(Drop)]
pub(crate) struct Reading<S> {
    pub(crate) stream: S,
    pub(crate) received: Vec<u8>,
    pub(crate) progress: Progress,
}

/// The result of one read of a request.
#[derive(Clone, Copy, PartialEq, Eq)]
pub(crate) enum Taken {
    /// Bytes, and some are still missing.
    More,
    /// Nothing yet.
    Blocked,
    /// The rest: the request is whole, or its client has ended it.
    Whole,
    /// Memory was wanting, for the bytes or to look at them.
    Unfit,
    /// The stream failed.
    Failed,
}

impl<S: Read> Reading<S> {
    /// A client of which nothing was read.
    pub(crate) fn new(alloc: Global, stream: S) -> Reading<S>
        ensures held { IsReading S.remaining result.stream result.received.items result.progress }
        ensures stream { result.stream ≡ stream }
        ensures nothing { result.received.items ≡ [] }
    {
        Reading {
            stream,
            received: Vec::new(alloc),
            progress: Progress::none(),
        }
    }

    /// Reads once, as much as is missing at most.
    pub(crate) fn read(&mut self, alloc: Global) -> Taken
        requires { IsReading S.remaining self.old.stream self.old.received.items self.old.progress }
        ensures came { Came S.remaining self.new.stream self.new.received.items }
        ensures all { KeepsAll S.remaining self.old.stream self.old.received.items
            self.new.stream self.new.received.items }
        ensures fits { length self.new.received.items ≤ request_limit }
        ensures held { (result ≡ More) ⊎ ((result ≡ Blocked) ⊎ (result ≡ Failed)) →
            IsReading S.remaining self.new.stream self.new.received.items self.new.progress }
        ensures whole { result ≡ Whole
            → IsWhole self.new.received.items ⊎ IsAtEnd (S.remaining self.new.stream) }
        ensures known { result ≡ Whole → IsProgress self.new.received.items self.new.progress }
        ensures on { length self.old.received.items ≤ length self.new.received.items }
        ensures more { result ≡ More
            → length self.old.received.items < length self.new.received.items }
        ensures blocked { result ≡ Blocked → self.new.received.items ≡ self.old.received.items }
    {
        let wanted = self.progress.wanted(self.received.len());
        let Ok(room) = make_room(&mut self.received, wanted) else {
            return Taken::Unfit;
        };
        match receive(&mut self.stream, &mut self.received, room) {
            Ok(0) => Taken::Whole,
            Ok(_) => self.look(alloc),
            Err(error) if is_blocked(&error) => Taken::Blocked,
            Err(_) => Taken::Failed,
        }
    }

    // Looks whether the bytes that have come are a whole request.
    fn look(&mut self, alloc: Global) -> Taken
        requires came { Came S.remaining self.old.stream self.old.received.items }
        requires known { IsProgress self.old.received.items self.old.progress }
        requires fits { length self.old.received.items ≤ request_limit }
        ensures came { Came S.remaining self.new.stream self.new.received.items }
        ensures all { KeepsAll S.remaining self.old.stream self.old.received.items
            self.new.stream self.new.received.items }
        ensures fits { length self.new.received.items ≤ request_limit }
        ensures held { (result ≡ More) ⊎ ((result ≡ Blocked) ⊎ (result ≡ Failed)) →
            IsReading S.remaining self.new.stream self.new.received.items self.new.progress }
        ensures whole { result ≡ Whole → IsWhole self.new.received.items }
        ensures known { result ≡ Whole → IsProgress self.new.received.items self.new.progress }
        ensures same { self.new.received.items ≡ self.old.received.items }
        ensures judged { result ≢ Blocked }
    {
        let known = mem::replace(&mut self.progress, Progress::none());
        let Ok(progress) = known.after(alloc, &self.received) else {
            return Taken::Unfit;
        };
        self.progress = progress;
        if self.progress.is_whole(self.received.len()) {
            Taken::Whole
        } else {
            Taken::More
        }
    }
}

/// Whether nothing can be read or written at the moment, and nothing failed.
pub(crate) fn is_blocked(error: &io::Error) -> bool
    ensures { IsTrue result ↔ IsBlocked (error_kind error.now) }
{
    matches!(error.kind(), ErrorKind::WouldBlock | ErrorKind::Interrupted)
}

// Makes room for bytes that are wanted, and gives for how many there is room now, PART at most.
// Where there is none it is doubled, but never beyond what is wanted.
fn make_room(received: &mut Vec<u8>, wanted: usize) -> Result<usize, AllocError>
    requires { 0 < wanted }
    ensures items { received.new.items ≡ received.old.items }
    ensures some { IfOk result (λ n. 0 < n) }
    ensures within { IfOk result (λ n. (n ≤ wanted) × (n ≤ 16384)) }
    ensures room { IfOk result (λ n. vec_len received.new + n ≤ vec_capacity received.new) }
{
    let len = received.len();
    if received.capacity() <= len {
        received.reserve_exact(wanted.min(len.max(FIRST_ROOM)))?;
    }
    Ok((received.capacity() - len).min(wanted).min(PART))
}

// Reads once, behind the bytes that were received, at most as many as there is room for. The room is
// cleared before, and what didn't come is cut off again.
fn receive<S: Read>(stream: &mut S, received: &mut Vec<u8>, room: usize) -> io::Result<usize>
    requires some { 0 < room }
    requires within { room ≤ 16384 }
    requires room { vec_len received.old + room ≤ vec_capacity received.old }
    ensures { MatchResult result
        (λ n. Received (S.remaining stream.old)
        (S.remaining stream.new) received.old.items received.new.items room n)
        (λ _. Keeps (S.remaining stream.old) (S.remaining stream.new)
        × (received.new.items ≡ received.old.items)) }
{
    let len = received.len();
    received.resize(len + room, 0)?;
    match stream.read(&mut received[len..]) {
        Ok(count) => {
            received.truncate(len + count);
            Ok(count)
        }
        Err(error) => {
            received.truncate(len);
            Err(error)
        }
    }
}
