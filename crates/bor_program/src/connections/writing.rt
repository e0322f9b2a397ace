//! A client to whom its reply is written, and what it still sends behind it.

ghost use Rattle.std.specs.Prelude.{◌≡◌, ◌≢◌, ◌↔◌, ◌≤◌, ◌<◌, IsTrue, length, MatchOption, None, Some, unwrap_or};
ghost use Rattle.bor_http.specs.Incoming.Message.{request_limit};
ghost use Rattle.bor_wire.specs.Sent.{bytes_sent, status_sent};
ghost use Rattle.bor_program.specs.declared.connections.writing.Drained.TheVariants as Drained;
ghost use Rattle.bor_program.specs.declared.connections.writing.Written.TheVariants as Written;
ghost use Rattle.bor_program.specs.Connections.Serving.{Told, given_reply, has_failed};
ghost use Rattle.bor_program.specs.Connections.Streams.{Came, Drops, IsDraining, IsReady, IsWriting, MayBeUnread, wire_of};
ghost use Rattle.bor_program.specs.Connections.Times.{IsReplyLeft, IsSlow, begun, taking_after};

use crate::connections::limits::Limits;
use crate::connections::reading::is_blocked;
use crate::connections::taking::Taking;
use bor_wire::Reply;
use std::io::{Read, Write};
use std::net::{OpenStream, Shutdown};
use std::snapshot::Snapshot;
use std::time::Duration;

/// A client to whom its reply is written: its request, which clauses alone see, the reply, how much
/// of that it was handed, and how it takes it, once a clock was read since the reply was made.
#[derive(Drop)]
pub(crate) struct Writing<S> {
    stream: S,
    request: Snapshot<Vec<u8>>,
    reply: Reply,
    sent: usize,
    taking: Option<Taking>,
}

impl<S> Writing<S> {
    /// The clock is read, before anything more is written.
    pub(crate) fn look(&mut self, now: Duration)
        ensures stream { self.new.stream ≡ self.old.stream }
        ensures request { self.new.request ≡ self.old.request }
        ensures reply { self.new.reply ≡ self.old.reply }
        ensures sent { self.new.sent ≡ self.old.sent }
        ensures taking { self.new.taking ≡ Some (taking_after self.old.taking self.old.sent now) }
    {
        self.taking = Some(Taking::seen(self.taking, self.sent, now));
    }

    /// For how long it may be waited for at this time, unless it takes its reply too slowly. Where
    /// something was taken since the clock was read, that is to be read again at once.
    pub(crate) fn left(&self, limits: Limits, now: Duration) -> Option<Duration>
        ensures { let taking = unwrap_or self.now.taking (begun self.now.sent now) in
            MatchOption result (IsSlow limits taking self.now.sent now)
            (λ left. (IsSlow limits taking self.now.sent now → ⊥)
            × IsReplyLeft limits self.now.taking self.now.sent now left) }
    {
        let taking = self.taking.unwrap_or(Taking::begun(self.sent, now));
        if taking.is_slow(limits, self.sent, now) {
            return None;
        }
        if self.taking.is_some() && taking.taken() == self.sent {
            Some(taking.left(limits, now))
        } else {
            Some(Duration::ZERO)
        }
    }
}

/// The result of one write of a reply.
#[derive(Clone, Copy, PartialEq, Eq)]
pub(crate) enum Written {
    /// Bytes were written.
    More,
    /// Nothing yet.
    Blocked,
    /// All was written before.
    Whole,
    /// The stream failed.
    Failed,
}

impl<S: Read + Write + OpenStream> Writing<S> {
    /// A client whose request has come, and of whose reply nothing was written.
    #[tactic(auto, using(crate::proofs::OnConnections::Streams::begins_writing))]
    pub(crate) fn new(stream: S, request: Snapshot<Vec<u8>>, reply: Reply) -> Writing<S>
        requires came { Came S.remaining stream request.value.items }
        requires fits { length request.value.items ≤ request_limit }
        requires ready { IsReady S.remaining stream (given_reply request.value.items reply) }
        ensures held { IsWriting (wire_of S.remaining S.contents) result.stream
            (given_reply result.request.value.items result.reply) result.sent }
        ensures request { result.request ≡ request }
        ensures reply { result.reply ≡ reply }
        ensures taking { result.taking ≡ None }
        ensures nothing { result.sent ≡ 0 }
    {
        Writing {
            stream,
            request,
            reply,
            sent: 0,
            taking: None,
        }
    }

    /// Writes once.
    pub(crate) fn write(&mut self) -> Written
        requires { IsWriting (wire_of S.remaining S.contents) self.old.stream
            (given_reply self.old.request.value.items self.old.reply) self.old.sent }
        ensures held { IsWriting (wire_of S.remaining S.contents) self.new.stream
            (given_reply self.new.request.value.items self.new.reply) self.new.sent }
        ensures request { self.new.request ≡ self.old.request }
        ensures reply { self.new.reply ≡ self.old.reply }
        ensures taking { self.new.taking ≡ self.old.taking }
        ensures whole { result ≡ Written.Whole
            → self.new.sent ≡ length (bytes_sent self.new.reply) }
        ensures more { result ≡ Written.More → self.old.sent < self.new.sent }
        ensures other { result ≢ Written.More → self.new.sent ≡ self.old.sent }
    {
        let rest = &self.reply.bytes()[self.sent..];
        if rest.is_empty() {
            return Written::Whole;
        }
        match self.stream.write(rest) {
            Ok(0) => Written::Failed,
            Ok(count) => {
                self.sent += count;
                Written::More
            }
            Err(error) if is_blocked(&error) => Written::Blocked,
            Err(_) => Written::Failed,
        }
    }

    /// Whether its connection has failed, where it ends now.
    pub(crate) fn has_failed(&self) -> bool
        ensures { result ≡ has_failed
            (Told (given_reply self.now.request.value.items self.now.reply) self.now.sent) }
    {
        self.reply.status() == 503 || self.sent < self.reply.bytes().len()
    }

    /// Tells the client, to whom all was written, that no more is.
    pub(crate) fn end(self) -> Draining<S>
        requires whole { self.sent ≡ length (bytes_sent self.reply) }
        requires held { IsWriting (wire_of S.remaining S.contents) self.stream
            (given_reply self.request.value.items self.reply) self.sent }
        ensures held { IsDraining (wire_of S.remaining S.contents) result.stream
            (given_reply result.request.value.items result.reply) result.left }
        ensures request { result.request ≡ self.request }
        ensures reply { result.reply ≡ self.reply }
        ensures waited { IsTrue result.is_waited_for ↔ MayBeUnread (status_sent self.reply) }
    {
        let _ = self.stream.shutdown(Shutdown::Write);
        Draining {
            is_waited_for: may_be_unread(self.reply.status()),
            stream: self.stream,
            request: self.request,
            reply: self.reply,
            left: REST,
        }
    }
}

// Whether a reply with this status may be written before its request is read to its end: to a head
// that is none or too large, to a body that is too large, and where memory was wanting for them.
fn may_be_unread(status: u16) -> bool
    ensures { IsTrue result ↔ MayBeUnread status }
{
    matches!(status, 400 | 413 | 431 | 503)
}

// How many bytes are read behind a reply, and dropped.
const REST: usize = 16_777_216;

// How many of them at once. Most clients send none, and a part is cleared before it is read into.
const DROPPED: usize = 1_024;

/// A client that was handed its reply, and may still be sending: how much of that is read, and
/// whether it is waited for.
#[derive(Drop)]
pub(crate) struct Draining<S> {
    stream: S,
    request: Snapshot<Vec<u8>>,
    reply: Reply,
    left: usize,
    is_waited_for: bool,
}

/// The result of one read behind a reply.
#[derive(Clone, Copy, PartialEq, Eq)]
pub(crate) enum Drained {
    /// Bytes, and more are read.
    More,
    /// Nothing yet.
    Blocked,
    /// Nothing more is read.
    Over,
}

impl<S: Read + Write> Draining<S> {
    /// Whether its connection has failed: the reply is the one that says that the store failed.
    pub(crate) fn has_failed(&self) -> bool
        ensures { result ≡ has_failed
            (Told (given_reply self.now.request.value.items self.now.reply)
            (length (bytes_sent self.now.reply))) }
    {
        self.reply.status() == 503
    }

    /// Reads once, and drops what comes.
    pub(crate) fn drain(&mut self) -> Drained
        ensures request { self.new.request ≡ self.old.request }
        ensures reply { self.new.reply ≡ self.old.reply }
        ensures dropped { Drops (S.remaining self.old.stream)
            (S.remaining self.new.stream) self.old.left self.new.left }
        ensures more { result ≡ Drained.More → self.new.left < self.old.left }
        ensures blocked { result ≡ Drained.Blocked → self.new.left ≡ self.old.left }
    {
        let mut part = [0; DROPPED];
        let room = self.left.min(DROPPED);
        match self.stream.read(&mut part[..room]) {
            Ok(0) => Drained::Over,
            Ok(count) => {
                self.left = self.left.saturating_sub(count);
                Drained::More
            }
            Err(error) if is_blocked(&error) && self.is_waited_for => Drained::Blocked,
            Err(_) => Drained::Over,
        }
    }
}
