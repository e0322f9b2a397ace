//! The time of each client of a server, the one of many that gives way, and the server's status.

use crate::asking::{keep_of_two, request};
use crate::checks::{all_hold, counts, ends, holds};
use crate::clients::{Client, Queue, Ticking, Waits};
use crate::exchanges::{CREATED, LODGING};
use crate::failing_keep::FailingKeep;
use bor_desk::operations::{Keep, StoreFault};
use bor_program::connections::{Limits, PLACES, serve_on, serve_within};
use bor_wire::UNAVAILABLE;
use std::alloc::Global;
use std::process::Abort;
use std::time::Duration;

// The reply that tells of no filings.
const NONE_LISTED: &[u8] =
    b"HTTP/1.1 200 OK\r\nContent-Type: application/json\r\nContent-Length: 2\r\nConnection: close\r\n\r\n[]";

// The bytes that alder sends to list its filings, and to withdraw its filing f1.
const LISTING: &[u8] = b"GET /filings HTTP/1.1\r\nAuthorization: Bearer alder-token-000001\r\n\r\n";

const WITHDRAWAL: &[u8] =
    b"DELETE /filings/f1 HTTP/1.1\r\nAuthorization: Bearer alder-token-000001\r\n\r\n";

const CONFLICT: &[u8] =
    b"HTTP/1.1 409 Conflict\r\nContent-Type: application/json\r\nContent-Length: 23\r\nConnection: close\r\n\r\n{\"refusal\":\"Published\"}";

// So many, as a number of connections.
fn count_of<T>(clients: &[T]) -> u32 {
    let mut count: u32 = 0;
    for _ in clients {
        count = count.wrapping_add(1);
    }
    count
}

// The status of a server of these clients and no more, by a clock that is so many milliseconds on each time
// that it is read, which is once for each wait.
fn served<K: Keep>(
    alloc: Global,
    keep: &mut K,
    step: Option<u64>,
    clients: &[Option<&Client<'_>>],
) -> u8 {
    let clock = Ticking::new(step);
    let queue = Queue::new(clients);
    let mut waits = Waits::new(alloc, &queue);
    serve_on(&(clock, alloc), keep, &queue, &mut waits, count_of(clients))
}

// Serves over a register with alder and no filings.
fn served_to_alder(
    rt: &impl Abort,
    alloc: Global,
    step: u64,
    clients: &[Option<&Client<'_>>],
) -> u8 {
    served(alloc, &mut keep_of_two(rt, alloc), Some(step), clients)
}

// Serves within limits, by waits that may fail or have the queue begin anew, and for so many
// connections.
fn served_within<'a>(
    rt: &impl Abort,
    alloc: Global,
    (step, connections): (u64, u32),
    waits: &mut Waits<'a>,
    limits: Limits,
) -> u8 {
    let clock = Ticking::new(Some(step));
    let mut keep = keep_of_two(rt, alloc);
    let queue = waits.queue;
    serve_within(
        &(clock, alloc),
        &mut keep,
        queue,
        waits,
        connections,
        limits,
    )
}

// A piece comes each second: eleven come until the ten seconds are up, and no more. The others don't wait.
#[test]
fn a_request_has_ten_seconds(rt: HostRuntime) {
    let alloc = rt.alloc();
    let lodging = request(&rt, alloc, LODGING);
    let (twelfth, eleventh) = (lodging.len().div_ceil(12), lodging.len().div_ceil(11));
    let slow = Client::waiting(&lodging, twelfth, b"");
    let asking = Client::waiting(LISTING, 1000, NONE_LISTED);
    let in_time = Client::waiting(&lodging, eleventh, CREATED);
    let clients = [Some(&slow), Some(&asking), Some(&in_time)];
    ends(&rt, "slow", served_to_alder(&rt, alloc, 1000, &clients), 3);
    counts(&rt, "pieces", slow.sent.get(), twelfth.saturating_mul(11));
    let have = [slow.has_all(), asking.has_all(), in_time.has_all()];
    all_hold(&rt, "replies", &have);
}

// A client takes its reply in pieces, one at each turn, of at least ten bytes a second by this clock: so much is
// taken, after so many waits. The clock is read again at once when the first piece was taken.
fn is_taken(
    rt: &impl Abort,
    alloc: Global,
    step: u64,
    client: &Client<'_>,
    (taken, count): (usize, usize),
) {
    let clients = [Some(client)];
    let queue = Queue::new(&clients);
    let mut waits = Waits::new(alloc, &queue);
    let limits = Limits {
        floor: 10,
        ..Limits::of_a_server()
    };
    let status = if taken == CREATED.len() { 0 } else { 3 };
    ends(
        rt,
        "a reply",
        served_within(rt, alloc, (step, 1), &mut waits, limits),
        status,
    );
    holds(rt, "what is taken", client.has_front(taken));
    counts(rt, "waits", waits.limits.len(), count);
    holds(
        rt,
        "a wait",
        waits.limits.get(1) == Some(&Some(Duration::ZERO)),
    );
}

// A client that lodges, and takes its reply in pieces of this size, and no more once it has so much.
fn taking(lodging: &[u8], piece: usize, stops: usize) -> Client<'_> {
    let mut client = Client::waiting(lodging, 1000, CREATED);
    client.takes = piece;
    client.stops = stops;
    client
}

// One that takes a few bytes a second has little more than ten seconds, and the lodging is made. By a floor of ten
// bytes a second one that takes 60 at once and then none has ten seconds, and one that takes ten has all its reply.
// So has one whose reply takes eleven seconds until it is made.
#[test]
fn a_reply_is_taken_in_time(rt: HostRuntime) {
    let alloc = rt.alloc();
    let lodging = request(&rt, alloc, LODGING);
    let slow = taking(&lodging, 8, usize::MAX);
    let asking = Client::waiting(WITHDRAWAL, 1000, CONFLICT);
    let clients = [Some(&slow), Some(&asking)];
    ends(&rt, "slow", served_to_alder(&rt, alloc, 1000, &clients), 3);
    let have = [
        slow.has_front(104),
        slow.ended.get().is_none(),
        asking.has_all(),
    ];
    all_hold(&rt, "replies", &have);
    let whole = CREATED.len();
    is_taken(&rt, alloc, 1000, &taking(&lodging, 60, 60), (60, 12));
    let (tenth, third) = (whole.div_ceil(10), whole.div_ceil(3));
    is_taken(
        &rt,
        alloc,
        1000,
        &taking(&lodging, 10, whole),
        (whole, tenth),
    );
    is_taken(
        &rt,
        alloc,
        11_000,
        &taking(&lodging, third, whole),
        (whole, 3),
    );
}

// A client that sends its request in three pieces is waited for so, within these limits.
fn waits_for(rt: &impl Abort, alloc: Global, limits: Limits, wanted: &[u64]) {
    let bad = b"GET /filings HTTP/1.1\r\nAuthorization Bearer\r\n\r\n";
    let client = Client::waiting(bad, bad.len().div_ceil(3), b"");
    let clients = [Some(&client)];
    let queue = Queue::new(&clients);
    let mut waits = Waits::new(alloc, &queue);
    ends(
        rt,
        "refused",
        served_within(rt, alloc, (100, 1), &mut waits, limits),
        0,
    );
    for (place, millis) in wanted.iter().enumerate() {
        let limit = Some(Duration::from_millis(*millis));
        holds(rt, "a wait", waits.limits.get(place) == Some(&limit));
    }
}

// The first wait ends at once, and the others after what is left to the client: of the time for its request,
// and where the request is refused before it is read, of that for the rest.
#[test]
fn a_wait_lasts_for_what_is_left(rt: HostRuntime) {
    let own = Limits {
        request: Duration::from_millis(700),
        reply: Duration::from_millis(500),
        floor: 1_000,
        rest: Duration::from_millis(300),
    };
    waits_for(&rt, rt.alloc(), own, &[0, 700, 600, 300, 200]);
    let servers = Limits::of_a_server();
    waits_for(&rt, rt.alloc(), servers, &[0, 10_000, 9_900, 1_000, 900]);
}

// Nobody is there yet: the wait for the first client has no limit.
#[test]
fn a_client_is_waited_for_without_a_limit(rt: HostRuntime) {
    let alloc = rt.alloc();
    let client = Client::new(LISTING, 1000, NONE_LISTED);
    let clients = [Some(&client)];
    let queue = Queue::new(&clients);
    queue.accepted.set(1);
    let mut waits = Waits::new(alloc, &queue);
    waits.turns = 3;
    let limits = Limits::of_a_server();
    ends(
        &rt,
        "served",
        served_within(&rt, alloc, (1, 1), &mut waits, limits),
        0,
    );
    holds(&rt, "a reply", client.has_all());
    holds(&rt, "no limit", waits.limits.get(1) == Some(&None));
}

// It is one of the connections, and no other is accepted in its place.
#[test]
fn an_accept_that_fails_is_one_of_the_connections(rt: HostRuntime) {
    let alloc = rt.alloc();
    let client = Client::new(LISTING, 100, NONE_LISTED);
    let beyond = Client::new(LISTING, 100, NONE_LISTED);
    let clients = [None, Some(&client), Some(&beyond)];
    let queue = Queue::new(&clients);
    let mut waits = Waits::new(alloc, &queue);
    let limits = Limits::of_a_server();
    ends(
        &rt,
        "an accept",
        served_within(&rt, alloc, (1, 2), &mut waits, limits),
        3,
    );
    holds(&rt, "a reply", client.has_all());
    counts(&rt, "accepted", queue.accepted.get(), 2);
    counts(&rt, "sent", beyond.sent.get(), 0);
}

#[test]
fn a_store_or_a_clock_that_fails_raises_the_status(rt: HostRuntime) {
    let alloc = rt.alloc();
    let list = keep_of_two(&rt, alloc);
    let mut keep = FailingKeep::new(alloc, list, 0, StoreFault::Store);
    let client = Client::new(LISTING, 100, UNAVAILABLE);
    ends(
        &rt,
        "store",
        served(alloc, &mut keep, Some(1), &[Some(&client)]),
        3,
    );
    holds(&rt, "a reply", client.has_all());
    let unread = Client::new(LISTING, 100, b"");
    ends(
        &rt,
        "clock",
        served(alloc, &mut keep.keep, None, &[Some(&unread)]),
        3,
    );
    holds(&rt, "no reply", unread.has_all());
    counts(&rt, "sent", unread.sent.get(), 0);
}

// The server goes on for a while, and then ends.
#[test]
fn waits_that_fail_raise_the_status(rt: HostRuntime) {
    let alloc = rt.alloc();
    let silent = Client::waiting(LISTING, 20, b"");
    let clients = [Some(&silent), None];
    let queue = Queue::new(&clients);
    let mut waits = Waits::new(alloc, &queue);
    waits.fails = true;
    let limits = Limits::of_a_server();
    ends(
        &rt,
        "waits",
        served_within(&rt, alloc, (0, 2), &mut waits, limits),
        3,
    );
    holds(&rt, "no reply", silent.has_all());
    counts(&rt, "sent", silent.sent.get(), 20);
}

const TOO_LARGE: &[u8] =
    b"HTTP/1.1 413 Payload Too Large\r\nContent-Type: application/json\r\nContent-Length: 26\r\nConnection: close\r\n\r\n{\"refusal\":\"BodyTooLarge\"}";

// A body that is too large by its length is refused before it is read; at most 16,777,216 bytes of it are
// read then, and dropped.
#[test]
fn what_is_still_sent_after_a_refusal_is_read(rt: HostRuntime) {
    let alloc = rt.alloc();
    let head = b"PUT /filings/f1?due=2024-02-01 HTTP/1.1\r\nContent-Length: 90000000\r\n\r\n";
    let mut input = Vec::from_slice(alloc, head).expect(&rt, "memory");
    for size in [3_000_000, 20_000_000] {
        input.resize(size, b' ').expect(&rt, "memory");
        let client = Client::new(&input, usize::MAX, TOO_LARGE);
        ends(
            &rt,
            "refused",
            served_to_alder(&rt, alloc, 0, &[Some(&client)]),
            0,
        );
        holds(&rt, "a reply", client.has_all());
        let before = client.ended.get().unwrap_or(size);
        holds(&rt, "refused before it is read", before < 20_000);
        let rest = size.saturating_sub(before).min(16_777_216);
        counts(&rt, "read", client.sent.get().saturating_sub(before), rest);
    }
}

// The client is not waited for then.
#[test]
fn after_a_whole_request_what_is_there_is_read(rt: HostRuntime) {
    let alloc = rt.alloc();
    let mut input = request(&rt, alloc, LODGING);
    input.extend_from_slice(b"\r\n").expect(&rt, "memory");
    let client = Client::waiting(&input, usize::MAX, CREATED);
    let clients = [Some(&client)];
    let queue = Queue::new(&clients);
    let mut waits = Waits::new(alloc, &queue);
    let limits = Limits::of_a_server();
    ends(
        &rt,
        "served",
        served_within(&rt, alloc, (1, 1), &mut waits, limits),
        0,
    );
    holds(&rt, "a reply", client.has_all());
    counts(&rt, "sent", client.sent.get(), input.len());
    counts(&rt, "waits", waits.limits.len(), 1);
}

// So many clients that send nothing, and wait.
fn silent_clients<'a>(rt: &impl Abort, alloc: Global, count: usize) -> Vec<Client<'a>> {
    let mut clients = Vec::new(alloc);
    for _ in 0..count {
        clients
            .push(Client::waiting(b"", 1, b""))
            .expect(rt, "memory");
    }
    clients
}

// The first of these clients, the others behind it, and the last.
fn in_order<'a>(
    rt: &impl Abort,
    alloc: Global,
    first: &'a Client<'a>,
    others: &'a [Client<'a>],
    last: &'a Client<'a>,
) -> Vec<Option<&'a Client<'a>>> {
    let mut clients = Vec::new(alloc);
    clients.push(Some(first)).expect(rt, "memory");
    for client in others {
        clients.push(Some(client)).expect(rt, "memory");
    }
    clients.push(Some(last)).expect(rt, "memory");
    clients
}

// A client more than there are places: the one that was idle for the longest gives way, which is the second,
// since the first sends a piece each time. All but the one that gives way end, so the connections end with it.
#[test]
fn the_longest_idle_gives_way(rt: HostRuntime) {
    let alloc = rt.alloc();
    let lodging = request(&rt, alloc, LODGING);
    let slow = Client::waiting(&lodging, 10, CREATED);
    let asking = Client::new(LISTING, 1000, NONE_LISTED);
    let silent = silent_clients(&rt, alloc, PLACES.saturating_sub(1));
    let clients = in_order(&rt, alloc, &slow, &silent, &asking);
    let queue = Queue::new(&clients);
    let mut waits = Waits::new(alloc, &queue);
    let short = Duration::from_millis(200);
    let limits = Limits {
        request: short,
        reply: short,
        floor: 1_000,
        rest: short,
    };
    let count = count_of(&clients);
    ends(
        &rt,
        "idle",
        served_within(&rt, alloc, (1, count), &mut waits, limits),
        3,
    );
    all_hold(&rt, "replies", &[asking.has_all(), slow.has_all()]);
}
