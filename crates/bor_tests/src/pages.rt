//! The examples of the first pages on files, records, chains and registers, each as it stands there.

use crate::asking::{day, node, read};
use crate::checks::{all_hold, counts, holds};
use crate::files::{FIRST, file};
use bods_read::{
    Details, Fault, Field, FileFault, Interest, ReadFault, RecordType, Statement, Status, read_file,
};
use bor_chains::{Evidence, ListSource, evidence_of, persons_of};
use bor_desk::operations::{
    FILINGS_LIMIT, Keep, ListKeep, LodgeFault, Lodged, State, StoreFault, advance, enrol, lodge,
};
use bor_records::links::{OpenNode, holding_of, node_of, stake_of};
use bor_records::{Last, Row, admit, open_rows};
use bor_register::{Member, all_published, enrol_member, is_enrolled, own_filings, push_filing};
use bor_terms::{AgentName, Day, LodgeKey, Token};
use std::alloc::Global;
use std::process::Abort;

#[test]
fn the_page_of_files(rt: HostRuntime) {
    let file =
        b"[{\"statementId\":\"s1\",\"statementDate\":\"2024-01-10\",\"declarationSubject\":\"c1\",\"recordId\":\"p1\",\"recordType\":\"person\",\"recordDetails\":{}}]";
    let statements = read_file(rt.alloc(), file).expect(&rt, "memory");
    let [statement] = statements.as_slice() else {
        panic!(rt; "not one statement");
    };
    let is_person = statement.record_type() == RecordType::Person;
    holds(&rt, "a person", is_person);
    let fault = FileFault::At {
        place: 1,
        fault: Fault::Missing(Field::StatementDate),
    };
    let refused = read_file(rt.alloc(), b"[{\"statementId\":\"s1\"}]").err();
    holds(&rt, "refused", refused == Some(ReadFault::File(fault)));
}

/// The statements of a file in words.
pub(crate) fn statements(rt: &impl Abort, alloc: Global, words: &str) -> Vec<Statement> {
    read_file(alloc, file(rt, alloc, words).as_bytes()).expect(rt, "not read")
}

#[test]
fn the_page_of_records(rt: HostRuntime) {
    let due = day(&rt, "2024-02-01");
    let statements = statements(&rt, rt.alloc(), "E s1 e1; E s2 e1");
    let [one, two] = statements.as_slice() else {
        panic!(rt; "not two statements");
    };
    let last = Last {
        kind: RecordType::Entity,
        status: Status::New,
        day: one.day,
        due,
    };
    let are_admitted = [
        admit(None, one, due) == Ok(Status::New),
        admit(Some(last), two, due) == Ok(Status::Updated),
        admit(None, two, due) == Ok(Status::New),
    ];
    all_hold(&rt, "admitted", &are_admitted);
}

/// The statements of a file in words as new rows of alder's.
pub(crate) fn rows(rt: &impl Abort, alloc: Global, words: &str) -> Vec<Row> {
    let mut rows = Vec::new(alloc);
    for statement in statements(rt, alloc, words) {
        let row = Row {
            agent: read(rt, alloc, "alder"),
            filing: 1,
            place: 1,
            status: Status::New,
            statement,
        };
        rows.push(row).expect(rt, "memory");
    }
    rows
}

/// The interests of a relationship.
pub(crate) fn interests_of(statement: &Statement) -> &[Interest] {
    match &statement.details {
        Details::Relationship { interests, .. } => interests.as_slice(),
        _ => &[],
    }
}

/// The node of a row.
pub(crate) fn open_node(rt: &impl Abort, alloc: Global, row: &Row) -> OpenNode {
    node_of(alloc, row)
        .expect(rt, "memory")
        .expect(rt, "no node")
}

#[test]
fn the_page_of_links(rt: HostRuntime) {
    let alloc = rt.alloc();
    let date = day(&rt, "2024-01-11");
    let rows = rows(&rt, alloc, "E s1 e1 7; E s2 a1 7; R s3 r1 e1 a1");
    let latest = open_rows(alloc, &rows, date).expect(&rt, "memory");
    let [first, second, third] = latest.as_slice() else {
        panic!(rt; "not three rows");
    };
    let e1 = open_node(&rt, alloc, *first);
    let a1 = open_node(&rt, alloc, *second);
    let votes = interests_of(&third.statement);
    let told = [
        e1.is_alias(&a1),
        stake_of(votes, date),
        holding_of(votes, date),
    ];
    all_hold(&rt, "told", &told);
}

#[test]
fn the_page_of_chains(rt: HostRuntime) {
    let alloc = rt.alloc();
    let words = "E s1 e1; E s2 a1; P s3 p1; R s4 r1 a1 p1; R s5 r2 e1 a1 10";
    let rows = rows(&rt, alloc, words);
    let e1 = node(&rt, alloc, "e1");
    let mut source = ListSource::from_rows(alloc, &rows, day(&rt, "2024-02-01")).expect(
        &rt, "memory",
    );
    let persons = persons_of(alloc, &mut source, &e1).expect(&rt, "no report");
    let [person] = persons.as_slice() else {
        panic!(rt; "not one person");
    };
    let is_person = person.node.rec.as_str() == "p1" && person.links == 2;
    holds(&rt, "p1", is_person);
    let evidence = evidence_of(alloc, &mut source, &e1).expect(&rt, "no evidence");
    holds(&rt, "r1, then r2", is_by_r1_and_r2(&evidence));
}

// One person is named, by r1 and then by r2, which is the last.
fn is_by_r1_and_r2(evidence: &Evidence) -> bool {
    match (evidence.persons.as_slice(), evidence.links.as_slice()) {
        ([person], [first, last]) => {
            let is_first = person.first == first.link && first.link.rec.as_str() == "r1";
            let is_last = last.link.rec.as_str() == "r2" && last.next.is_none();
            is_first && is_last && matches!(&first.next, Some(next) if *next == last.link)
        }
        _ => false,
    }
}

/// Adds a filing of one statement, due on a day, where there is room.
pub(crate) fn add(
    rt: &impl Abort,
    alloc: Global,
    members: &mut Vec<Member>,
    agent: &AgentName,
    due: Day,
) {
    assert!(rt; is_enrolled(members, agent), "not enrolled");
    assert!(rt;
        own_filings(members, agent).len() < FILINGS_LIMIT,
        "no room"
    );
    let (key, statements) = (read(rt, alloc, "f1"), statements(rt, alloc, "E s1 e1"));
    push_filing(alloc, members, agent, &key, due, b"[]", &statements).expect(rt, "memory");
}

#[test]
fn the_page_of_registers(rt: HostRuntime) {
    let alloc = rt.alloc();
    let (today, tomorrow) = (day(&rt, "2024-02-01"), day(&rt, "2024-02-02"));
    let (alder, token) = (
        read(&rt, alloc, "alder"),
        read(&rt, alloc, "alder-token-000001"),
    );
    let mut members = Vec::new(alloc);
    enrol_member(alloc, &mut members, &alder, &token).expect(&rt, "memory");
    add(&rt, alloc, &mut members, &alder, tomorrow);
    counts(&rt, "own", own_filings(&members, &alder).len(), 1);
    let published = all_published(alloc, &members, today).expect(&rt, "memory");
    counts(&rt, "today", published.len(), 0);
    let published = all_published(alloc, &members, tomorrow).expect(&rt, "memory");
    counts(&rt, "tomorrow", published.len(), 1);
}

// Enrols where the name and the token are free.
#[tactic(auto, using(bor_register::proofs::Callers::callers))]
fn enrol_new<K: Keep>(keep: &mut K, agent: &AgentName, token: &Token) -> Result<(), StoreFault> {
    if !keep.has_agent(agent)? && keep.who(token)?.is_none() {
        keep.add_agent(agent, token)?;
    }
    Ok(())
}

#[test]
fn the_page_of_keeps(rt: HostRuntime) {
    let alloc = rt.alloc();
    let registrar = read(&rt, alloc, "registrar-token-0001");
    let (alder, token) = (
        read(&rt, alloc, "alder"),
        read(&rt, alloc, "alder-token-000001"),
    );
    let mut keep = ListKeep::new(alloc, registrar, day(&rt, "2024-02-01"));
    enrol_new(&mut keep, &alder, &token).expect(&rt, "a fault");
    holds(&rt, "an agent", keep.has_agent(&alder) == Ok(true));
    let filings = keep.filings(&alder).expect(&rt, "a fault");
    counts(&rt, "filings", filings.len(), 0);
    holds(&rt, "no fault", keep.faults() == 0);
}

// Lodges where `lodge` may be called.
fn lodge_of<K: Keep>(
    rt: &impl Abort,
    alloc: Global,
    keep: &mut K,
    (agent, key): (&AgentName, &LodgeKey),
    due: Day,
    bytes: &[u8],
) -> Result<Lodged, LodgeFault> {
    match keep.has_agent(agent) {
        Ok(true) => lodge(alloc, keep, agent, key, due, bytes),
        _ => panic!(rt; "not enrolled"),
    }
}

#[test]
fn the_page_of_operations(rt: HostRuntime) {
    let alloc = rt.alloc();
    let registrar = read(&rt, alloc, "registrar-token-0001");
    let (alder, token) = (
        read(&rt, alloc, "alder"),
        read(&rt, alloc, "alder-token-000001"),
    );
    let (today, tomorrow) = (day(&rt, "2024-02-01"), day(&rt, "2024-02-02"));
    let mut keep = ListKeep::new(alloc, registrar, today);
    let alder = enrol(&mut keep, alder, token).expect(&rt, "not enrolled");
    let key = read(&rt, alloc, "f1");
    let file = FIRST.as_bytes();
    let lodged = lodge_of(&rt, alloc, &mut keep, (&alder, &key), tomorrow, file);
    let lodged = lodged.expect(&rt, "not lodged");
    let is_draft = lodged.number == 1 && lodged.state == State::Draft;
    holds(&rt, "a draft", is_draft);
    holds(
        &rt,
        "advanced",
        advance(&mut keep, tomorrow) == Ok(tomorrow),
    );
    let published = keep.published().expect(&rt, "a fault");
    counts(&rt, "published", published.len(), 1);
}
