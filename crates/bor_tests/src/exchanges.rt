//! Readers and writers that give and take little, end and fail.

use crate::asking::{Ask, keep_of_two, request};
use crate::checks::{holds, holds_at};
use crate::files::FIRST;
use crate::streams::{Drip, Gate};
use bor_desk::operations::{Keep, ListKeep};
use bor_wire::{Counted, Outcome, exchange};
use std::alloc::Global;
use std::io::{ErrorKind, Read};
use std::process::Abort;

/// The lodging of the first file.
pub(crate) const LODGING: Ask<'static> = ("alder PUT /filings/f1?due=2024-02-01", FIRST);

/// Its reply, where it is new.
pub(crate) const CREATED: &[u8] =
    b"HTTP/1.1 201 Created\r\nContent-Type: application/json\r\nContent-Length: 51\r\nConnection: close\r\n\r\n{\"due\":\"2024-02-01\",\"filing\":1,\"state\":\"published\"}";

// How the exchange of an input ended where its reply is written there, and the faults of its writer.
fn exchanged_with<K: Keep, R: Read>(
    alloc: Global,
    keep: &mut K,
    reader: &mut Counted<R>,
    gate: &mut Gate,
) -> (Outcome, u64) {
    let mut writer = Counted::new(gate);
    let outcome = exchange(alloc, keep, reader, &mut writer);
    (outcome, writer.faults())
}

/// How the exchange of an input ended, and what it wrote.
pub(crate) fn exchanged<K: Keep>(
    alloc: Global,
    keep: &mut K,
    input: Drip<'_>,
) -> (Outcome, Vec<u8>) {
    let mut gate = Gate::open(alloc);
    let (outcome, _) = exchanged_with(alloc, keep, &mut Counted::new(input), &mut gate);
    (outcome, gate.taken)
}

// The lodging is answered in a new register.
fn is_created(rt: &impl Abort, alloc: Global, input: Drip<'_>) {
    let size = input.size;
    let mut keep = keep_of_two(rt, alloc);
    let (outcome, out) = exchanged(alloc, &mut keep, input);
    holds_at(rt, "status", size, outcome == Outcome::Replied(201));
    holds_at(rt, "reply", size, out.as_slice() == CREATED);
}

// No read is made once the request is there.
#[test]
fn a_request_comes_in_any_pieces(rt: HostRuntime) {
    let alloc = rt.alloc();
    let input = request(&rt, alloc, LODGING);
    for size in [1, 2, 3, 100, 119, 120, 121, 4096] {
        let fault = ErrorKind::ConnectionReset;
        is_created(&rt, alloc, Drip::failing(&input, size, fault));
    }
}

// The reply to alder's question for its filings ends so.
fn lists(rt: &impl Abort, alloc: Global, keep: &mut ListKeep, end: &[u8]) {
    let input = request(rt, alloc, ("alder GET /filings", ""));
    let (_, out) = exchanged(alloc, keep, Drip::new(&input, 100));
    holds(rt, "filings", out.ends_with(end));
}

// An input that fails behind these bytes, or ends there, is answered nothing or refused.
fn is_cut_off(rt: &impl Abort, alloc: Global, keep: &mut ListKeep, bytes: &[u8]) {
    let failing = Drip::failing(bytes, 40, ErrorKind::ConnectionReset);
    let (outcome, out) = exchanged(alloc, keep, failing);
    let is_unanswered = outcome == Outcome::ReadFailed && out.is_empty();
    holds_at(rt, "failed", bytes.len(), is_unanswered);
    let (outcome, out) = exchanged(alloc, keep, Drip::new(bytes, 40));
    let is_refused = outcome == Outcome::Replied(400)
        && out.ends_with(b"\r\n\r\n{\"refusal\":\"CutShort\"}");
    holds_at(rt, "ended", bytes.len(), is_refused);
}

#[test]
fn an_input_that_ends_or_fails_anywhere_changes_nothing(rt: HostRuntime) {
    let alloc = rt.alloc();
    let mut keep = keep_of_two(&rt, alloc);
    let input = request(&rt, alloc, LODGING);
    for length in 0..input.len() {
        is_cut_off(&rt, alloc, &mut keep, &input[..length]);
    }
    lists(&rt, alloc, &mut keep, b"\r\n\r\n[]");
}

// In a new register, the reply to the lodging is cut off after so many bytes, and the filing is there.
fn is_cut_short(rt: &impl Abort, alloc: Global, input: &[u8], (room, fails): (usize, bool)) {
    let mut keep = keep_of_two(rt, alloc);
    let mut gate = Gate::new(alloc, room);
    gate.fails = fails;
    let mut reader = Counted::new(Drip::new(input, 4096));
    let told = exchanged_with(alloc, &mut keep, &mut reader, &mut gate);
    holds_at(rt, "status", room, told == (Outcome::WriteFailed(201), 1));
    let front = CREATED.get(..room).unwrap_or(&[]);
    holds_at(rt, "reply", room, gate.has(front));
    lists(rt, alloc, &mut keep, b"\"state\":\"published\"}]");
}

#[test]
fn a_writer_that_fails_has_a_front_of_the_reply(rt: HostRuntime) {
    let alloc = rt.alloc();
    let input = request(&rt, alloc, LODGING);
    for fails in [false, true] {
        for room in 0..CREATED.len() {
            is_cut_short(&rt, alloc, &input, (room, fails));
        }
    }
}

// A reader that has ended is asked no more, and one that is asked again counts it.
#[test]
fn an_end_is_met_once(rt: HostRuntime) {
    let alloc = rt.alloc();
    let mut keep = keep_of_two(&rt, alloc);
    let mut reader = Counted::new(Drip::new(b"GET /filings", 5));
    let mut gate = Gate::open(alloc);
    let told = exchanged_with(alloc, &mut keep, &mut reader, &mut gate);
    holds(&rt, "refused", told == (Outcome::Replied(400), 0));
    holds(&rt, "once", reader.late() == 0);
    let _ = exchanged_with(alloc, &mut keep, &mut reader, &mut gate);
    holds(&rt, "again", reader.late() == 1);
}

// A reader and a writer that fail once and go on: nothing is read or written a second time.
#[test]
fn a_fault_is_counted_once(rt: HostRuntime) {
    let alloc = rt.alloc();
    let input = request(&rt, alloc, LODGING);
    let mut keep = keep_of_two(&rt, alloc);
    let mut drip = Drip::new(&input, 40);
    drip.first = Some(ErrorKind::Interrupted);
    let mut reader = Counted::new(drip);
    let mut gate = Gate::open(alloc);
    gate.first = Some(ErrorKind::Interrupted);
    let told = exchanged_with(alloc, &mut keep, &mut reader, &mut gate);
    let is_failed = told == (Outcome::ReadFailed, 0) && reader.faults() == 1;
    holds(&rt, "a read", is_failed && gate.first.is_some());
    let told = exchanged_with(alloc, &mut keep, &mut reader, &mut gate);
    let is_failed = told == (Outcome::WriteFailed(201), 1) && reader.faults() == 1;
    holds(&rt, "a write", is_failed && gate.has(b""));
}
