//! The calls to a keep: none twice, and none that the request doesn't need.

use crate::asking::{ALDER, Ask, answered, day, keep_after, keep_of_two, node, read};
use crate::checks::{counts, holds};
use crate::failing_keep::FailingKeep;
use bor_chains::persons_of;
use bor_desk::operations::{Keep, KeepSource, ListKeep, StoreFault};
use std::alloc::Global;
use std::process::Abort;

// The requests that are asked one after the other, and the calls that they make.
const CALLS: [(Ask<'static>, &str); 27] = [
    (ALDER, "who has_agent who add_agent"),
    (
        ("registrar POST /agents?name=alder", "birch-token-000001"),
        "who has_agent",
    ),
    (
        ("registrar POST /agents?name=birch", "alder-token-000001"),
        "who has_agent who",
    ),
    (
        ("registrar PUT /agents/birch", "birch-token-000001"),
        "who has_agent",
    ),
    (
        ("registrar PUT /agents/alder", "alder-token-000001"),
        "who has_agent who",
    ),
    (("nobody GET /published", ""), "who"),
    (("registrar GET /published", ""), "who"),
    (("alder POST /day?date=2024-03-01", ""), "who"),
    (("alder GET /filings", ""), "who filings"),
    (
        (
            "alder PUT /filings/k1?due=2024-03-01",
            "E s1 e1; E s2 e1; E s3 e2",
        ),
        "who line filing_count day has_statement last has_statement has_statement last add_filing",
    ),
    (
        (
            "alder PUT /filings/k1?due=2024-03-01",
            "E s1 e1; E s2 e1; E s3 e2",
        ),
        "who line has_file",
    ),
    (
        ("alder PUT /filings/k1?due=2024-03-01", "[]"),
        "who line has_file",
    ),
    (("alder PUT /filings/k1?due=2024-03-02", "[]"), "who line"),
    (
        ("alder PUT /filings/k2?due=2024-01-31", "E s9 e9"),
        "who line filing_count day",
    ),
    (
        ("alder PUT /filings/k2?due=2024-03-01", "[]"),
        "who line filing_count day",
    ),
    (
        ("alder PUT /filings/k2?due=2024-03-01", "E s1 e9"),
        "who line filing_count day has_statement",
    ),
    (("alder GET /filings/k1/file", ""), "who filing"),
    (("alder GET /published", ""), "who published"),
    (
        ("alder GET /snapshot?agent=alder&declaration=c1", ""),
        "who day rows_of",
    ),
    (
        (
            "alder GET /snapshot?agent=alder&declaration=c1&date=2024-01-10",
            "",
        ),
        "who rows_of",
    ),
    (
        ("alder GET /chains?agent=alder&declaration=c1&record=e1", ""),
        "who day node:e1 same:e1 links_into:e1",
    ),
    (
        (
            "alder GET /chains?agent=alder&declaration=c1&record=e1&date=2024-01-10",
            "",
        ),
        "who node:e1 same:e1 links_into:e1",
    ),
    (
        ("alder DELETE /filings/k1", ""),
        "who line has_successor withdraw",
    ),
    (("alder DELETE /filings/k1", ""), "who line"),
    (
        ("registrar POST /day?date=2024-03-01", ""),
        "who day set_day",
    ),
    (("registrar GET /register", ""), "who day agents"),
    (
        ("registrar PUT /agents/alder", "cedar-token-000001"),
        "who has_agent who set_token",
    ),
];

// An ask makes these calls of the keep.
fn asks_for(
    rt: &impl Abort,
    alloc: Global,
    keep: &mut FailingKeep<ListKeep>,
    ask: Ask<'_>,
    calls: &str,
) {
    keep.calls.clear();
    let _ = answered(rt, alloc, keep, ask);
    holds(rt, ask.0, keep.calls.as_str().trim() == calls);
}

#[test]
fn a_keep_is_asked_for_no_more_than_is_needed(rt: HostRuntime) {
    let alloc = rt.alloc();
    let new = keep_after(&rt, alloc, &[], 0);
    let mut keep = FailingKeep::new(alloc, new, u32::MAX, StoreFault::Store);
    for (ask, calls) in CALLS {
        asks_for(&rt, alloc, &mut keep, ask, calls);
    }
    holds(&rt, "no fault", keep.faults() == 0);
}

// A register in which alder has lodged files of statements in words, whose calls are noted from here on.
fn noting(rt: &impl Abort, alloc: Global, files: &[&str]) -> FailingKeep<ListKeep> {
    let mut keep = keep_of_two(rt, alloc);
    for (i, words) in files.iter().enumerate() {
        let ask = format!(in alloc; "alder PUT /filings/k{i}?due=2024-02-01").expect(rt, "memory");
        let _ = answered(rt, alloc, &mut keep, (ask.as_str(), *words));
    }
    FailingKeep::new(alloc, keep, u32::MAX, StoreFault::Store)
}

// A chain of entities, each the next one's, and the last one a person's, whose number comes after theirs;
// `x` begins each name.
fn chain(rt: &impl Abort, alloc: Global, x: &str, entities: u32) -> String {
    let person = entities.wrapping_add(1);
    let mut words = format!(in alloc; "P {x}s {x}e{person}").expect(rt, "memory");
    for i in 1..=entities {
        let next = i.wrapping_add(1);
        write!(
            words,
            "; E {x}s{i} {x}e{i}; R {x}t{i} {x}r{i} {x}e{i} {x}e{next}"
        )
        .expect(rt, "memory");
    }
    words
}

// How many persons stand behind a record of alder's declaration c1, as alder sees it.
fn count_behind<K: Keep>(rt: &impl Abort, alloc: Global, keep: &mut K, rec: &str) -> usize {
    let viewer = read(rt, alloc, "alder");
    let target = node(rt, alloc, rec);
    let mut source = KeepSource::new(keep, &viewer, day(rt, "2024-02-01"));
    let persons = persons_of(alloc, &mut source, &target).expect(rt, "no report");
    persons.len()
}

// The keep of these files once it was asked who stands behind a record of alder's declaration c1, as alder
// sees it: one person.
fn reported(rt: &impl Abort, alloc: Global, files: &[&str], rec: &str) -> FailingKeep<ListKeep> {
    let mut keep = noting(rt, alloc, files);
    counts(rt, rec, count_behind(rt, alloc, &mut keep, rec), 1);
    keep
}

// So many calls were made in all.
fn has_made(rt: &impl Abort, keep: &FailingKeep<ListKeep>, calls: usize) {
    counts(
        rt,
        "calls",
        keep.calls.as_str().split_whitespace().count(),
        calls,
    );
}

// Three calls for each entity, and one for the person, whatever else there is.
#[test]
fn a_report_asks_for_what_its_chains_meet(rt: HostRuntime) {
    let alloc = rt.alloc();
    for (entities, others, calls) in [(1, 1, 4), (10, 1, 31), (10, 40, 31), (40, 10, 121)] {
        let one = chain(&rt, alloc, "a", entities);
        let other = chain(&rt, alloc, "b", others);
        let keep = reported(&rt, alloc, &[one.as_str(), other.as_str()], "ae1");
        has_made(&rt, &keep, calls);
    }
}

// A call was made so often.
fn is_called(rt: &impl Abort, keep: &FailingKeep<ListKeep>, call: &str, wanted: usize) {
    let mut times: usize = 0;
    for one in keep.calls.as_str().split(' ') {
        if one == call {
            times = times.wrapping_add(1);
        }
    }
    counts(rt, call, times, wanted);
}

// Of a class: the target and the person, the class, and the links into each of it.
#[test]
fn a_class_is_asked_for_once_and_links_at_most_twice(rt: HostRuntime) {
    let alloc = rt.alloc();
    let mut words = String::from_str(alloc, "P s p; R t r e997 p").expect(&rt, "memory");
    for i in 0..998_u32 {
        write!(words, "; E s{i} e{i} 1").expect(&rt, "memory");
    }
    let keep = reported(&rt, alloc, &[words.as_str()], "e0");
    has_made(&rt, &keep, 1001);
    is_called(&rt, &keep, "same:e0", 1);
    is_called(&rt, &keep, "links_into:e997", 1);
    // e1 is met as the target and in the middle.
    let words = "E s1 e1; E s2 a1; P s3 p1; R s4 x1 e1 a1; R s5 x2 a1 e1; R s6 x3 a1 p1";
    let keep = reported(&rt, alloc, &[words], "e1");
    is_called(&rt, &keep, "links_into:e1", 2);
    is_called(&rt, &keep, "links_into:a1", 1);
}
