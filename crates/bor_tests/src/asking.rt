//! A register in memory that is asked by requests.

use crate::files::{file, put};
use bor_chains::Node;
use bor_desk::operations::{Keep, ListKeep};
use bor_desk::{DeskReply, answer};
use bor_terms::{Day, Form, Text};
use bor_wire::{message_in, parse};
use std::alloc::Global;
use std::process::Abort;

/// Who asks with which method and target, as `alder GET /filings`, and the body of the request, or the
/// words of its file.
pub(crate) type Ask<'a> = (&'a str, &'a str);

/// The enrolment of alder.
pub(crate) const ALDER: Ask<'static> = ("registrar POST /agents?name=alder", "alder-token-000001");

/// The enrolment of birch.
pub(crate) const BIRCH: Ask<'static> = ("registrar POST /agents?name=birch", "birch-token-000001");

pub(crate) fn day(rt: &impl Abort, text: &str) -> Day {
    Day::read(text).expect(rt, "no day")
}

pub(crate) fn read<F: Form>(rt: &impl Abort, alloc: Global, text: &str) -> Text<F> {
    Text::read(alloc, text)
        .expect(rt, "memory")
        .expect(rt, "not of the form")
}

/// A record of alder's declaration c1.
pub(crate) fn node(rt: &impl Abort, alloc: Global, rec: &str) -> Node {
    Node {
        agent: read(rt, alloc, "alder"),
        declaration: read(rt, alloc, "c1"),
        rec: read(rt, alloc, rec),
    }
}

/// The request of an ask. The token of each caller is its name and `-token-000001`.
pub(crate) fn request(rt: &impl Abort, alloc: Global, ask: Ask<'_>) -> Vec<u8> {
    let (asked, words) = ask;
    let (caller, line) = asked.split_once(' ').expect(rt, "no caller");
    let is_in_words = line.starts_with("PUT /filings/") && !words.starts_with("[");
    let body = if is_in_words {
        file(rt, alloc, words)
    } else {
        String::from_str(alloc, words).expect(rt, "memory")
    };
    let length = body.len();
    let length = format!(in alloc; "{length}").expect(rt, "memory");
    let mut text = String::new(alloc);
    let parts = [
        line,
        " HTTP/1.1\r\nHost: localhost\r\nAuthorization: Bearer ",
        caller,
        "-token-000001\r\nContent-Length: ",
        length.as_str(),
        "\r\n\r\n",
        body.as_str(),
    ];
    put(rt, &mut text, &parts);
    text.into_bytes()
}

/// The desk's answer to an ask.
pub(crate) fn answered<K: Keep>(
    rt: &impl Abort,
    alloc: Global,
    keep: &mut K,
    ask: Ask<'_>,
) -> DeskReply {
    let input = request(rt, alloc, ask);
    let raw = message_in(alloc, &input).expect(rt, "no request");
    let asking = parse(alloc, &raw).expect(rt, "no request");
    answer(alloc, keep, &asking.token, &asking.request)
}

/// A new register on 2024-02-01 that was asked the first so many of these.
pub(crate) fn keep_after(
    rt: &impl Abort,
    alloc: Global,
    asks: &[Ask<'_>],
    count: usize,
) -> ListKeep {
    let registrar = read(rt, alloc, "registrar-token-000001");
    let mut keep = ListKeep::new(alloc, registrar, day(rt, "2024-02-01"));
    for ask in asks.iter().take(count) {
        let _ = answered(rt, alloc, &mut keep, *ask);
    }
    keep
}

/// A new register on 2024-02-01 with the agents alder and birch and no filings.
pub(crate) fn keep_of_two(rt: &impl Abort, alloc: Global) -> ListKeep {
    keep_after(rt, alloc, &[ALDER, BIRCH], 2)
}
