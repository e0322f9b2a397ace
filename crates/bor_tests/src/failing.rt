//! Each kind of fault at each call that an answer, a reply or a report makes of a keep: it is told as what
//! it is, and the register is as before.

use crate::asking::{ALDER, Ask, BIRCH, answered, day, keep_after, node, read, request};
use crate::checks::{holds, holds_at};
use crate::exchanges::{LODGING, exchanged};
use crate::failing_keep::FailingKeep;
use crate::streams::Drip;
use bor_desk::operations::{Keep, ListKeep, StoreFault};
use bor_desk::{DeskReply, report_text};
use bor_wire::{Outcome, UNAVAILABLE, render, replay};
use std::alloc::Global;
use std::process::Abort;

const FAULTS: [StoreFault; 3] = [StoreFault::Memory, StoreFault::Store, StoreFault::Damaged];

// The requests that are asked in turn, of a register in which those before have been answered.
const ASKS: [Ask<'static>; 14] = [
    ALDER,
    BIRCH,
    LODGING,
    LODGING,
    ("alder PUT /filings/f2?due=2024-03-01", "E s4 e1; E s5 e2"),
    ("alder DELETE /filings/f2", ""),
    ("alder GET /filings", ""),
    ("alder GET /filings/f1/file", ""),
    ("birch GET /published", ""),
    ("birch GET /snapshot?agent=alder&declaration=c1", ""),
    ("birch GET /chains?agent=alder&declaration=c1&record=e1", ""),
    (
        "birch GET /chains?agent=alder&declaration=c1&record=e1&date=2024-01-10",
        "",
    ),
    ("registrar POST /day?date=2024-03-01", ""),
    ("alder GET /filings", ""),
];

// The requests whose replies show the register.
const LOOKS: [Ask<'static>; 4] = [
    ("alder GET /filings", ""),
    ("birch GET /published", ""),
    ("birch GET /snapshot?agent=alder&declaration=c1", ""),
    (
        "alder GET /chains?agent=alder&declaration=c1&record=e1&date=2024-02-01",
        "",
    ),
];

fn seen(rt: &impl Abort, alloc: Global, keep: &mut ListKeep) -> Vec<u8> {
    let mut out = Vec::new(alloc);
    for ask in LOOKS {
        let reply = answered(rt, alloc, keep, ask);
        let bytes = render(alloc, &reply).expect(rt, "memory");
        out.extend_from_slice(&bytes).expect(rt, "memory");
    }
    out
}

// Asks the desk with so many calls left, and tells whether there was a fault: then it is told.
fn is_answered_failed(
    rt: &impl Abort,
    alloc: Global,
    failing: &mut FailingKeep<ListKeep>,
    ask: Ask<'_>,
) -> bool {
    let told = answered(rt, alloc, failing, ask);
    let faults = failing.faults();
    let is_told = matches!(&told, DeskReply::Failed(met) if *met == failing.fault);
    holds(rt, ask.0, faults == 0 || is_told && faults == 1);
    faults > 0
}

// Asks twice more with so many calls left, by an exchange and in a run, and has the one reply of a keep
// that fails.
fn is_replied_unavailable(
    rt: &impl Abort,
    alloc: Global,
    failing: &mut FailingKeep<ListKeep>,
    ask: Ask<'_>,
    calls: u32,
) {
    let input = request(rt, alloc, ask);
    failing.left = calls;
    let (outcome, out) = exchanged(alloc, failing, Drip::new(&input, 40));
    let is_told = outcome == Outcome::Replied(503) && out.as_slice() == UNAVAILABLE;
    holds(rt, ask.0, is_told);
    failing.left = calls;
    let replies = replay(alloc, failing, &[input]).expect(rt, "memory");
    let is_told = match replies.as_slice() {
        [reply] => reply.status() == 503 && reply.bytes() == UNAVAILABLE,
        _ => false,
    };
    holds(rt, ask.0, is_told && failing.faults() == 3);
}

// Makes an ask with so many calls left, and tells whether there was a fault: then it is told each way that
// it can be asked, and the register is as before.
fn is_failed(
    rt: &impl Abort,
    alloc: Global,
    place: usize,
    (calls, fault): (u32, StoreFault),
    before: &[u8],
) -> bool {
    let ask = *ASKS.get(place).expect(rt, "no ask");
    let keep = keep_after(rt, alloc, &ASKS, place);
    let mut failing = FailingKeep::new(alloc, keep, calls, fault);
    if !is_answered_failed(rt, alloc, &mut failing, ask) {
        return false;
    }
    is_replied_unavailable(rt, alloc, &mut failing, ask, calls);
    let after = seen(rt, alloc, &mut failing.keep);
    holds(rt, ask.0, after.as_slice() == before);
    true
}

// How many calls of the keep an ask makes: each of them was made to answer the fault in turn.
fn failed_calls(rt: &impl Abort, alloc: Global, place: usize, fault: StoreFault) -> u32 {
    let before = seen(rt, alloc, &mut keep_after(rt, alloc, &ASKS, place));
    for calls in 0..100 {
        if !is_failed(rt, alloc, place, (calls, fault), &before) {
            return calls;
        }
    }
    panic!(rt; "too many calls at {place}")
}

#[test]
fn each_call_that_fails_is_told_and_leaves_the_register(rt: HostRuntime) {
    for fault in FAULTS {
        for place in 0..ASKS.len() {
            let calls = failed_calls(&rt, rt.alloc(), place, fault);
            holds_at(&rt, "calls", place, calls > 1);
        }
    }
}

// Whether a report with so many calls left is told as the fault, or there was none.
fn is_report_failed(rt: &impl Abort, alloc: Global, calls: u32, fault: StoreFault) -> bool {
    let keep = keep_after(rt, alloc, &ASKS, 3);
    let mut failing = FailingKeep::new(alloc, keep, calls, fault);
    let entity = node(rt, alloc, "e1");
    let viewer = read(rt, alloc, "birch");
    let told = report_text(alloc, &mut failing, &viewer, &entity, day(rt, "2024-02-01"));
    let faults = failing.faults();
    match told {
        Ok(text) => {
            holds(rt, "a report", faults == 0 && !text.refused);
            false
        }
        Err(met) => {
            holds(rt, "a fault", faults == 1 && met == fault);
            true
        }
    }
}

// It asks for the entity, its class and its links, and for the person.
#[test]
fn each_call_of_a_report_that_fails_is_told(rt: HostRuntime) {
    for fault in FAULTS {
        for calls in 0..5 {
            let is_failed = is_report_failed(&rt, rt.alloc(), calls, fault);
            holds(&rt, "calls", is_failed == (calls < 4));
        }
    }
}
