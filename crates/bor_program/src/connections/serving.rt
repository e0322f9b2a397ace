//! Connections of a listener, many at once.

ghost use Rattle.bor_program.specs.Connections.Serving.{IsServed, IsServedOver};
ghost use Rattle.bor_program.specs.Connections.Streams.{EndedOn, wire_of};
ghost use Rattle.std.specs.Prelude.{◌<◌, ◌≡◌, []};
ghost use Rattle.bor_program.specs.Connections.Servers.{AreHeld, AreSeated, Becomes, Runs};
ghost use Rattle.bor_program.specs.Hosting.{AreOfServer};
ghost use Rattle.bor_program.specs.Connections.Times.{IsPatient};
ghost use Rattle.bor_program.specs.Connections.Watching.{WaitsOnce};

use crate::connections::limits::Limits;
use crate::connections::server::Server;
use crate::connections::watch::Watch;
use bor_desk::operations::Keep;
use std::io::{Read, Write};
use std::net::{OpenListener, OpenStream};
use std::time::{Clock, Duration};

// After so many waits that failed, one after the other, a server gives up.
const FAULT_LIMIT: u32 = 1_000;

/// Serves this many connections of a listener, many at once, as [`serve_within`] does with the
/// limits of a server.
pub fn serve_on<R: Clock + AllocGlobal, K: Keep, L: OpenListener, W: Watch<L>>(
    rt: &R,
    keep: &mut K,
    listener: &L,
    watch: &mut W,
    connections: u32,
) -> u8
where
    L::Stream: Read + Write + OpenStream,
    ensures served { IsServed K.meaning keep.old keep.new connections result }
    ensures streams { (limits : Limits) × AreOfServer limits × IsServedOver K.meaning
        (EndedOn (wire_of L.Stream.remaining L.Stream.contents))
        (record { does = W.does; begun = watch.old; ended = watch.new })
        limits keep.old keep.new connections result }
{
    serve_within(
        rt,
        keep,
        listener,
        watch,
        connections,
        Limits::of_a_server(),
    )
}

/// Serves this many connections of a listener, up to 256 at once, and gives 0, or 3 where one
/// failed: it couldn't be let in, its request didn't come in time, its reply was taken too slowly,
/// or the reply was 503. A connection that fails is one of them. Where a client comes in and all
/// places are taken, the one that was idle for the longest gives way.
///
/// A request is answered as soon as it is whole, or its client has ended it. The listener doesn't
/// block. A wait for a client may last for ever, where no other is there. Nothing else waits for
/// longer than the limits.
pub fn serve_within<R: Clock + AllocGlobal, K: Keep, L: OpenListener, W: Watch<L>>(
    rt: &R,
    keep: &mut K,
    listener: &L,
    watch: &mut W,
    connections: u32,
    limits: Limits,
) -> u8
where
    L::Stream: Read + Write + OpenStream,
    ensures served { IsServed K.meaning keep.old keep.new connections result }
    ensures streams { IsServedOver K.meaning
        (EndedOn (wire_of L.Stream.remaining L.Stream.contents))
        (record { does = W.does; begun = watch.old; ended = watch.new })
        limits keep.old keep.new connections result }
{
    let mut server = Server::new(rt.alloc(), limits, connections, watch.is_noting());
    run(rt, keep, listener, watch, &mut server);
    server.tell(watch);
    server.finish();
    server.status
}

// Serves clients until all connections have ended, or it can't be waited for them.
fn run<R: Clock, K: Keep, L: OpenListener, W: Watch<L>>(
    rt: &R,
    keep: &mut K,
    listener: &L,
    watch: &mut W,
    server: &mut Server<L::Stream>,
)
where
    L::Stream: Read + Write + OpenStream,
    requires held { AreHeld (wire_of L.Stream.remaining L.Stream.contents) server.old.queue.items }
    requires seated { AreSeated server.old.seats.taken server.old.queue.items }
    requires wait { IsPatient server.old.limits server.old.wait }
    ensures { Runs K.meaning W.does (wire_of L.Stream.remaining L.Stream.contents)
        (record { keep = keep.old; watch = watch.old; server = server.old })
        (record { keep = keep.new; watch = watch.new; server = server.new }) }
{
    if watch.watch_listener(listener).is_err() {
        return;
    }
    let mut faults = 0;
    for _ in 0..u64::MAX {
        if server.is_done() {
            return;
        }
        if faults >= FAULT_LIMIT {
            return;
        }
        faults = wait(rt, watch, server, faults);
        let now = rt.monotonic().ok();
        server.let_in(listener, watch, now.unwrap_or(Duration::ZERO));
        server.serve_all(keep, now);
    }
}

// Waits, and tells how many waits have failed now, one after the other, where so many had before.
// After one that failed it sleeps for a little.
fn wait<R: Clock, L: OpenListener, W: Watch<L>>(
    rt: &R,
    watch: &mut W,
    server: &mut Server<L::Stream>,
    faults: u32,
) -> u32
where
    L::Stream: Read + Write + OpenStream,
    requires { faults < 1000 }
    ensures becomes { Becomes server.old server.new }
    ensures seats { server.new.seats ≡ server.old.seats }
    ensures waits { WaitsOnce W.does watch.old watch.new faults result
        server.old.service.notes.items server.old.wait }
    ensures none { server.new.service.notes.items ≡ [] }
{
    match server.wait(watch) {
        Ok(()) => 0,
        Err(_) => {
            rt.sleep(Duration::from_millis(1));
            faults + 1
        }
    }
}
