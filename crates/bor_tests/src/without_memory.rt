//! Calls that take no memory, made while none is left.
//!
//! Each test reads `/dev/zero` once before its calls and once behind them. By itself it has memory all the
//! while. `tests/lib/check_starved.py` runs it with a stand-in for the C library's allocator, which refuses
//! all memory between the two reads, and tells how often it was asked for some: never, but by the one
//! test that asks.
//!
//! The calls of a test stand in functions of their own, which tell whether each was answered as it should be.

use crate::asking::{answered, day, keep_of_two, node, read, request};
use crate::checks::{all_hold, holds};
use crate::files::FIRST;
use crate::pages::{add, interests_of, open_node, rows, statements};
use bods_read::{
    Directness, EntityKind, Fault, Field, FileFault, InterestKind, PersonKind, ReadFault,
    RecordType, Statement, Status, read_file,
};
use bor_chains::LinkSource;
use bor_desk::operations::{
    AdvanceFault, Keep, KeepSource, ListKeep, State, WithdrawFault, advance, withdraw,
};
use bor_desk::{DeskReply, Refusal};
use bor_http::incoming::{self, Counted, Name, Path, Progress, RawRequest, message_in, send};
use bor_http::routes::{Paths, Route, allow_of, route_at};
use bor_program::connections::{Limits, Places};
use bor_program::log::{Asked, Moment, Note, asked_by};
use bor_records::links::{Class, OpenNode, holding_of, stake_of};
use bor_records::{Last, RecordFault, Row, admit, latest};
use bor_register::{Member, enrol_member, is_enrolled, is_filed, own_filings, withdraw_of};
use bor_terms::{AgentName, Day, Ident, Listed, LodgeKey, Span, Token};
use bor_wire::rendering::{
    RESERVED, desk_status, is_long, refusal_status, render_refusal, render_short,
};
use bor_wire::{Reply, UNAVAILABLE, replay};
use bor_words::Source;
use std::alloc::Global;
use std::fs;
use std::io::Read;
use std::process::Abort;
use std::rt::Files;
use std::time::Duration;

// The data that is read before the calls and behind them.
const MARKS: &str = "/dev/zero";

// Reads a mark.
fn mark<F: Read>(rt: &impl Abort, marks: &mut F) {
    let mut byte = [1_u8];
    let count = marks.read(&mut byte).expect(rt, "nothing to read");
    holds(rt, "a mark", count == 1 && byte[0] == 0);
}

// Says that the calls begin.
fn begin<R: Files + Abort>(rt: &R) -> R::File {
    let mut marks = fs::open(rt, MARKS).expect(rt, "no marks");
    mark(rt, &mut marks);
    marks
}

// Says that the calls have been made, each of which was answered as it should be.
fn end<F: Read + Drop>(rt: &impl Abort, mut marks: F, are_answered: &[bool]) {
    mark(rt, &mut marks);
    all_hold(rt, "a call", are_answered);
}

// It asks for memory, so that it is seen that none is left.
#[test]
fn a_file_is_read(rt: HostRuntime) {
    let marks = begin(&rt);
    let is_told = match read_file(rt.alloc(), FIRST.as_bytes()) {
        Ok(statements) => statements.len() == 3,
        Err(fault) => fault == ReadFault::Memory,
    };
    end(&rt, marks, &[is_told]);
}

// Whether each word is the one that it should be.
fn are_words(words: &[(&str, &str)]) -> bool {
    for (told, wanted) in words {
        if *told != *wanted {
            return false;
        }
    }
    true
}

// 2024-02-01 comes 19,754 days after 1970-01-01.
fn are_days_read() -> bool {
    let february = Day::read("2024-02-01T09:00:00Z");
    let end = match Day::read_end("2024-02") {
        Some(end) => end.text() == *b"2024-02-29",
        None => false,
    };
    end && february.map(Day::number) == Some(19_754)
        && Day::read("2024-02-30").is_none()
        && Day::from_number(19_754) == february
        && Day::read_start("2024-02") == february
}

fn are_shares_told() -> bool {
    let Some(share) = Span::new(50, true, 75, false) else {
        return false;
    };
    let (low, high) = (share.low(), share.high());
    let ends = (share.low_is_open(), share.high_is_open());
    (low, high) == (50, 75)
        && ends == (true, false)
        && share.above_half()
        && share.above_zero()
        && Span::new(50, true, 50, false).is_none()
}

fn are_texts_fit() -> bool {
    let names = AgentName::fits("alder") && !AgentName::fits("Acme Ltd");
    let keys = LodgeKey::fits("K.1") && !LodgeKey::fits("");
    let tokens = Token::fits("alder-token-000001") && !Token::fits("alder");
    let idents = Ident::fits("e1") && !Ident::fits("");
    names && keys && tokens && idents
}

fn is_copied(alloc: Global, name: &AgentName) -> bool {
    match name.copy(alloc) {
        Ok(copied) => copied == *name && copied.as_str() == "alder",
        Err(_) => false,
    }
}

// The second item of a list of two is changed.
fn is_changed(items: Vec<u32>) -> bool {
    let mut list = Listed::new(items);
    if list.as_slice().len() == 2 {
        *list.item_mut(1) = 9;
    }
    let is_seen = list.as_slice() == [7, 9].as_slice();
    is_seen && list.into_vec().as_slice() == [7, 9].as_slice()
}

#[test]
fn days_shares_texts_and_lists(rt: HostRuntime) {
    let alloc = rt.alloc();
    let alder = read(&rt, alloc, "alder");
    let items = vec![in alloc; 7, 8].expect(&rt, "memory");
    let marks = begin(&rt);
    let told = [
        are_days_read(),
        are_shares_told(),
        are_texts_fit(),
        is_copied(alloc, &alder),
        is_changed(items),
    ];
    end(&rt, marks, &told);
}

fn are_words_of_statements_told() -> bool {
    are_words(&[
        (RecordType::Relationship.as_str(), "relationship"),
        (Status::Closed.as_str(), "closed"),
        (State::Draft.as_str(), "draft"),
        (EntityKind::StateBody.as_str(), "stateBody"),
        (PersonKind::KnownPerson.as_str(), "knownPerson"),
        (InterestKind::VotingRights.as_str(), "votingRights"),
        (Directness::Unknown.as_str(), "unknown"),
        (Field::RecordId.as_str(), "recordId"),
        (RecordFault::DateBack.name(), "DateBack"),
    ])
}

fn are_faults_of_files_told() -> bool {
    let fault = Fault::Missing(Field::StatementDate);
    let at = FileFault::At { place: 2, fault };
    are_words(&[(fault.name(), "Missing"), (at.name(), "Missing")])
        && fault.field() == Some(Field::StatementDate)
        && at.field() == Some(Field::StatementDate)
        && at.place() == Some(2)
        && FileFault::NotJson.place().is_none()
}

fn are_words_of_requests_told() -> bool {
    are_words(&[
        (Name::Declaration.as_str(), "declaration"),
        (allow_of(Path::Filing), "DELETE, PUT"),
        (Source::StandardInput.name(), "standard input"),
    ])
}

fn are_refusals_told() -> bool {
    let fault = RecordFault::RecordClosed;
    let record = Refusal::Record { place: 3, fault };
    let query = incoming::Refusal::BadQuery(Name::Due);
    are_words(&[
        (record.name(), "RecordClosed"),
        (query.as_str(), "BadQuery"),
    ]) && record.place() == Some(3)
        && record.field().is_none()
        && Refusal::KeyReused.place().is_none()
        && query.name() == Some(Name::Due)
}

#[test]
fn words(rt: HostRuntime) {
    let marks = begin(&rt);
    let told = [
        are_words_of_statements_told(),
        are_faults_of_files_told(),
        are_words_of_requests_told(),
        are_refusals_told(),
    ];
    end(&rt, marks, &told);
}

fn are_statements_admitted(entity: &Statement, last: Last, due: Day) -> bool {
    admit(None, entity, due) == Ok(Status::New)
        && admit(Some(last), entity, due) == Err(RecordFault::RecordClosed)
}

fn is_latest_found(rows: &[Row], before: Day, stated: Day) -> bool {
    latest(rows, before).is_none() && latest(rows, stated) == Some(1)
}

// Shares of 60 percent of the votes, and of 10 percent of the capital.
fn are_stakes_told(votes: &Statement, shares: &Statement, due: Day) -> bool {
    let (votes, shares) = (interests_of(votes), interests_of(shares));
    stake_of(votes, due)
        && holding_of(votes, due)
        && !stake_of(shares, due)
        && holding_of(shares, due)
}

#[test]
fn records_and_stakes(rt: HostRuntime) {
    let alloc = rt.alloc();
    let (before, stated) = (day(&rt, "2024-01-09"), day(&rt, "2024-01-10"));
    let due = day(&rt, "2024-02-01");
    let words = "E s1 e1; R s2 r1 e1 a1; R s3 r2 e1 a1 10";
    let statements = statements(&rt, alloc, words);
    let [entity, votes, shares] = statements.as_slice() else {
        panic!(rt; "not three statements");
    };
    let rows = rows(&rt, alloc, "E s1 e1; E s2 e1");
    let marks = begin(&rt);
    let last = Last {
        kind: entity.record_type(),
        status: Status::Closed,
        day: stated,
        due,
    };
    let told = [
        are_statements_admitted(entity, last, due),
        is_latest_found(&rows, before, stated),
        are_stakes_told(votes, shares, due),
    ];
    end(&rt, marks, &told);
}

fn are_aliases_told(e1: &OpenNode, a1: &OpenNode, b1: &OpenNode) -> bool {
    e1.info.is_entity() && e1.is_alias(a1) && !e1.is_alias(b1)
}

// The class has the one node and not the other.
fn is_class_told(class: Class, one: &OpenNode, other: &OpenNode) -> bool {
    let is_told = class.has(&one.node) && !class.has(&other.node) && class.len() == 1;
    is_told && class.into_nodes().len() == 1
}

#[test]
fn nodes_and_classes(rt: HostRuntime) {
    let alloc = rt.alloc();
    let rows = rows(&rt, alloc, "E s1 e1 7; E s2 a1 7; E s3 b1");
    let [first, second, third] = rows.as_slice() else {
        panic!(rt; "not three rows");
    };
    let (e1, a1) = (open_node(&rt, alloc, first), open_node(&rt, alloc, second));
    let b1 = open_node(&rt, alloc, third);
    let mut class = Class::new(alloc);
    class.add(node(&rt, alloc, "e1")).expect(&rt, "memory");
    let marks = begin(&rt);
    let told = [
        are_aliases_told(&e1, &a1, &b1),
        is_class_told(class, &e1, &a1),
        Class::new(alloc).len() == 0,
    ];
    end(&rt, marks, &told);
}

// Names and keys.
#[derive(Drop)]
struct Names {
    alder: AgentName,
    birch: AgentName,
    f1: LodgeKey,
    f2: LodgeKey,
    c1: Ident,
    e1: Ident,
    s1: Ident,
    s2: Ident,
}

fn named(rt: &impl Abort, alloc: Global) -> Names {
    Names {
        alder: read(rt, alloc, "alder"),
        birch: read(rt, alloc, "birch"),
        f1: read(rt, alloc, "f1"),
        f2: read(rt, alloc, "f2"),
        c1: read(rt, alloc, "c1"),
        e1: read(rt, alloc, "e1"),
        s1: read(rt, alloc, "s1"),
        s2: read(rt, alloc, "s2"),
    }
}

// Alder with the draft f1, which states e1 as s1.
fn members_of_alder(rt: &impl Abort, alloc: Global, alder: &AgentName, due: Day) -> Vec<Member> {
    let token = read(rt, alloc, "alder-token-000001");
    let mut members = Vec::new(alloc);
    enrol_member(alloc, &mut members, alder, &token).expect(rt, "memory");
    add(rt, alloc, &mut members, alder, due);
    members
}

fn are_agents_told(members: &[Member], named: &Names) -> bool {
    is_enrolled(members, &named.alder)
        && !is_enrolled(members, &named.birch)
        && own_filings(members, &named.birch).is_empty()
}

fn are_filings_told(members: &[Member], named: &Names) -> bool {
    let own = own_filings(members, &named.alder);
    own.len() == 1 && is_filed(own, &named.f1, b"[]") && !is_filed(own, &named.f1, b"[ ]")
}

fn is_filing_withdrawn(alloc: Global, members: &mut [Member], named: &Names) -> bool {
    withdraw_of(alloc, members, &named.alder, 1);
    let own = own_filings(members, &named.alder);
    own.iter().all(|filing| filing.withdrawn)
}

#[test]
fn agents_and_filings(rt: HostRuntime) {
    let alloc = rt.alloc();
    let (today, due) = (day(&rt, "2024-02-01"), day(&rt, "2024-02-02"));
    let named = named(&rt, alloc);
    let mut members = members_of_alder(&rt, alloc, &named.alder, due);
    let marks = begin(&rt);
    let told = [
        are_agents_told(&members, &named),
        are_filings_told(&members, &named),
        State::of_live(due, today) == State::Draft,
        is_filing_withdrawn(alloc, &mut members, &named),
    ];
    end(&rt, marks, &told);
}

// A register in which alder has lodged e1 twice, as drafts.
fn keep_of_drafts(rt: &impl Abort, alloc: Global) -> ListKeep {
    let mut keep = keep_of_two(rt, alloc);
    for ask in [
        ("alder PUT /filings/f1?due=2024-03-01", "E s1 e1"),
        ("alder PUT /filings/f2?due=2024-03-01", "[]"),
        ("alder PUT /filings/f2?due=2024-03-01", "E s2 e1"),
    ] {
        let _ = answered(rt, alloc, &mut keep, ask);
    }
    keep
}

fn are_agents_kept(keep: &mut ListKeep, named: &Names) -> bool {
    matches!(keep.has_agent(&named.alder), Ok(true))
        && matches!(keep.filing_count(&named.alder), Ok(2))
        && matches!(keep.filing_count(&named.birch), Ok(0))
        && matches!(keep.has_file(&named.alder, &named.f1, b"[]"), Ok(false))
}

fn are_records_kept(keep: &mut ListKeep, named: &Names) -> bool {
    let Names { alder, c1, e1, .. } = named;
    matches!(keep.last(alder, c1, e1), Ok(Some(_)))
        && matches!(keep.last(alder, e1, c1), Ok(None))
        && matches!(keep.has_statement(alder, &named.s1), Ok(true))
        && matches!(keep.has_statement(alder, &named.s2), Ok(true))
        && matches!(keep.has_successor(alder, 1), Ok(true))
        && matches!(keep.has_successor(alder, 2), Ok(false))
}

fn is_withdrawn(keep: &mut ListKeep, named: &Names) -> bool {
    matches!(keep.withdraw(&named.alder, 2), Ok(()))
        && matches!(keep.has_statement(&named.alder, &named.s2), Ok(false))
        && matches!(keep.has_successor(&named.alder, 1), Ok(false))
}

fn is_day_set(keep: &mut ListKeep, today: Day, tomorrow: Day) -> bool {
    keep.day() == Ok(today)
        && matches!(keep.set_day(tomorrow), Ok(()))
        && keep.day() == Ok(tomorrow)
        && keep.faults() == 0
}

// A new register has its day and no agent.
fn is_new(alloc: Global, registrar: Token, today: Day, named: &Names) -> bool {
    let mut new = ListKeep::new(alloc, registrar, today);
    new.day() == Ok(today) && matches!(new.has_agent(&named.alder), Ok(false))
}

#[test]
fn a_register_in_memory(rt: HostRuntime) {
    let alloc = rt.alloc();
    let named = named(&rt, alloc);
    let registrar = read(&rt, alloc, "registrar-token-0001");
    let (today, tomorrow) = (day(&rt, "2024-02-01"), day(&rt, "2024-02-02"));
    let mut keep = keep_of_drafts(&rt, alloc);
    let marks = begin(&rt);
    let told = [
        is_new(alloc, registrar, tomorrow, &named),
        are_agents_kept(&mut keep, &named),
        are_records_kept(&mut keep, &named),
        is_withdrawn(&mut keep, &named),
        is_day_set(&mut keep, today, tomorrow),
    ];
    end(&rt, marks, &told);
}

fn are_withdrawals_refused(keep: &mut ListKeep, named: &Names) -> bool {
    let Names {
        alder,
        birch,
        f1,
        ..
    } = named;
    matches!(withdraw(keep, birch, f1), Err(WithdrawFault::NoSuchFiling))
        && matches!(withdraw(keep, alder, f1), Err(WithdrawFault::HasSuccessor))
}

fn is_withdrawal_told(keep: &mut ListKeep, named: &Names) -> bool {
    match withdraw(keep, &named.alder, &named.f2) {
        Ok(line) => { line.number == 2 && line.state == State::Withdrawn && line.key == named.f2 }
        Err(_) => false,
    }
}

fn are_days_moved_on(keep: &mut ListKeep, today: Day, tomorrow: Day) -> bool {
    advance(keep, tomorrow) == Ok(tomorrow) && advance(keep, today) == Err(AdvanceFault::DayBack)
}

#[test]
fn withdrawals_and_days(rt: HostRuntime) {
    let alloc = rt.alloc();
    let named = named(&rt, alloc);
    let (today, tomorrow) = (day(&rt, "2024-02-01"), day(&rt, "2024-02-02"));
    let mut keep = keep_of_drafts(&rt, alloc);
    let marks = begin(&rt);
    let told = [
        are_withdrawals_refused(&mut keep, &named),
        is_withdrawal_told(&mut keep, &named),
        are_days_moved_on(&mut keep, today, tomorrow),
        KeepSource::new(&mut keep, &named.birch, tomorrow).faults() == 0,
    ];
    end(&rt, marks, &told);
}

fn is_request_told(raw: &RawRequest<'_>) -> bool {
    raw.method() == b"GET".as_slice()
        && raw.target() == b"/filings/f1/file".as_slice()
        && raw.only(b"HOST") == Some(b"localhost")
        && raw.body().is_empty()
}

fn are_routes_found(paths: &Paths) -> bool {
    paths.find("/filings/f1/file") == Some(Path::File)
        && paths.find("/nothing").is_none()
        && route_at(Path::File, b"GET") == Some(Route::File)
        && route_at(Path::Day, b"GET").is_none()
}

fn are_notes_made(paths: &Paths, input: &[u8]) -> bool {
    let asked = asked_by(paths, b"GET /day HTTP/1.1\r\n");
    let note = Note::of(asked, None, &Reply::unavailable());
    asked_by(paths, input) == Asked::Route(Route::File)
        && note.asked == Asked::Path(Path::Day)
        && note.status == 503
}

fn is_input_read(input: &[u8]) -> bool {
    let mut buf = [0; 3];
    let mut reader = Counted::new(input);
    matches!(reader.read(&mut buf), Ok(3))
        && buf == *b"GET"
        && reader.faults() == 0
        && reader.late() == 0
}

#[test]
fn requests_and_routes(rt: HostRuntime) {
    let alloc = rt.alloc();
    let input = request(&rt, alloc, ("alder GET /filings/f1/file", ""));
    let raw = message_in(alloc, &input).expect(&rt, "refused");
    let paths = Paths::new(alloc).expect(&rt, "memory");
    let marks = begin(&rt);
    let told = [
        is_request_told(&raw),
        Progress::none().wanted(84) == 16_300 && !Progress::none().is_whole(84),
        are_routes_found(&paths),
        are_notes_made(&paths, &input),
        is_input_read(&input),
    ];
    end(&rt, marks, &told);
}

const MOVED: &[u8] =
    b"HTTP/1.1 200 OK\r\nContent-Type: application/json\r\nContent-Length: 20\r\nConnection: close\r\n\r\n{\"day\":\"2024-02-02\"}";

const NO_TOKEN: &[u8] =
    b"HTTP/1.1 401 Unauthorized\r\nContent-Type: application/json\r\nContent-Length: 21\r\nWWW-Authenticate: Bearer\r\nConnection: close\r\n\r\n{\"refusal\":\"NoToken\"}";

// A reply to a change is written into room that was reserved.
fn is_reply_told(mut out: Vec<u8>, reply: &DeskReply) -> bool {
    if is_long(reply) || out.capacity() < RESERVED || !out.is_empty() {
        return false;
    }
    render_short(&mut out, reply);
    out.as_slice() == MOVED && desk_status(reply).as_u16() == 200
}

// So is a refusal.
fn is_refusal_told(mut out: Vec<u8>) -> bool {
    if out.capacity() < RESERVED || !out.is_empty() {
        return false;
    }
    render_refusal(&mut out, incoming::Refusal::NoToken);
    out.as_slice() == NO_TOKEN && refusal_status(incoming::Refusal::NoToken).as_u16() == 401
}

// The bytes that are sent are those that are handed on.
fn is_sent(mut out: Vec<u8>) -> bool {
    send(&mut Counted::new(&mut out), MOVED) && out.as_slice() == MOVED
}

// A reply tells its status and its bytes.
fn are_replies_sent(replies: &[Reply]) -> bool {
    let none = Reply::unavailable();
    let mut replies = replies.iter();
    replies.all(|reply| reply.status() == 401 && reply.bytes() == NO_TOKEN)
        && none.status() == 503
        && none.bytes() == UNAVAILABLE
}

#[test]
fn replies(rt: HostRuntime) {
    let alloc = rt.alloc();
    let reply = DeskReply::Day(day(&rt, "2024-02-02"));
    let short = Vec::with_capacity(alloc, RESERVED).expect(&rt, "memory");
    let refused = Vec::with_capacity(alloc, RESERVED).expect(&rt, "memory");
    let sent = Vec::with_capacity(alloc, RESERVED).expect(&rt, "memory");
    let mut keep = keep_of_drafts(&rt, alloc);
    let input = Vec::from_slice(alloc, b"GET /filings HTTP/1.1\r\n\r\n").expect(&rt, "memory");
    let run = replay(alloc, &mut keep, &[input]).expect(&rt, "memory");
    let marks = begin(&rt);
    let told = [
        is_reply_told(short, &reply),
        is_refusal_told(refused),
        is_sent(sent),
        are_replies_sent(&run),
    ];
    end(&rt, marks, &told);
}

fn are_places_marked() -> bool {
    let mut places = Places::new();
    places.wake(255);
    places.call();
    places != Places::new()
}

fn is_noon_told() -> bool {
    match Moment::of_seconds(19_754 * 86_400 + 43_200) {
        Some(noon) => noon.day.number() == 19_754 && noon.second == 43_200,
        None => false,
    }
}

fn are_statuses_told() -> bool {
    use bor_program::Status;
    Status::Usage.code() == 2 && Status::Done.worse(Status::Failed) == Status::Failed
}

#[test]
fn places_and_statuses(rt: HostRuntime) {
    let marks = begin(&rt);
    let told = [
        Limits::of_a_server().request == Duration::from_secs(10),
        are_places_marked(),
        is_noon_told(),
        are_statuses_told(),
    ];
    end(&rt, marks, &told);
}
