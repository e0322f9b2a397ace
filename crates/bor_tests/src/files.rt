//! Files of statements.

use std::alloc::Global;
use std::process::Abort;

/// The first lodging, byte for byte: an entity, a person, and the person's voting rights in the entity.
pub(crate) const FIRST: &str =
    r#"[{"statementId":"s1","statementDate":"2024-01-10","declarationSubject":"c1","recordId":"e1","recordType":"entity","recordDetails":{"entityType":{"type":"registeredEntity"},"name":"Alder Ltd"}},{"statementId":"s2","statementDate":"2024-01-10","declarationSubject":"c1","recordId":"p1","recordType":"person","recordDetails":{"personType":"knownPerson","names":[{"fullName":"Ann Moss"}]}},{"statementId":"s3","statementDate":"2024-01-10","declarationSubject":"c1","recordId":"r1","recordType":"relationship","recordDetails":{"subject":"e1","interestedParty":"p1","interests":[{"type":"votingRights","share":{"exact":100}}]}}]"#;

// The text between the words of a statement.
const PERSON: &str = r#""person","recordDetails":{}}"#;

const ENTITY: &str = r#""entity","recordDetails":{"entityType":{"type":"registeredEntity"}"#;

const NUMBER: &str = r#","identifiers":[{"scheme":"X","id":""#;

const SUBJECT: &str = r#""relationship","recordDetails":{"subject":""#;

const PARTY: &str = r#"","interestedParty":""#;

const VOTES: &str = r#"","interests":[{"type":"votingRights","share":{"exact":60}}]}}"#;

const SHARES: &str = r#"","interests":[{"type":"shareholding","share":{"exact":"#;

/// Adds the parts to the text, one behind the other.
pub(crate) fn put(rt: &impl Abort, text: &mut String, parts: &[&str]) {
    for part in parts {
        text.push_str(part).expect(rt, "memory");
    }
}

// Adds the record type and the details of a statement of this kind: the words behind its record are an
// entity's number, or a relationship's subject and party, and a share that isn't 60 percent of the votes.
fn add_details(rt: &impl Abort, text: &mut String, kind: &str, words: (&str, &str, &str)) {
    let (first, party, share) = words;
    match (kind, first, share) {
        ("P", _, _) => put(rt, text, &[PERSON]),
        ("E", "", _) => put(rt, text, &[ENTITY, "}}"]),
        ("E", number, _) => put(rt, text, &[ENTITY, NUMBER, number, "\"}]}}"]),
        (_, subject, "") => put(rt, text, &[SUBJECT, subject, PARTY, party, VOTES]),
        (_, subject, share) => {
            let parts = [SUBJECT, subject, PARTY, party, SHARES, share, "}}]}}"];
            put(rt, text, &parts);
        }
    }
}

// Adds a statement in words.
fn add_statement(rt: &impl Abort, text: &mut String, statement: &str) {
    let mut words = statement.split(' ');
    let kind = words.next().unwrap_or("");
    let id = words.next().unwrap_or("");
    let rec = words.next().unwrap_or("");
    let first = words.next().unwrap_or("");
    let second = words.next().unwrap_or("");
    let share = words.next().unwrap_or("");
    let parts = [
        "{\"statementId\":\"",
        id,
        "\",\"statementDate\":\"2024-01-10\",\"declarationSubject\":\"c1\",\"recordId\":\"",
        rec,
        "\",\"recordType\":",
    ];
    put(rt, text, &parts);
    add_details(rt, text, kind, (first, second, share));
}

/// The file of statements in words, which are joined by `; `.
///
/// - `E s1 e1`: the entity e1, stated as s1; `E s1 e1 7` has the number 7.
/// - `P s2 p1`: the person p1.
/// - `R s3 r1 e1 p1`: p1's 60 percent of the votes of e1; `R s3 r1 e1 p1 10` is 10 percent of the shares.
pub(crate) fn file(rt: &impl Abort, alloc: Global, words: &str) -> String {
    let mut text = String::from_str(alloc, "[").expect(rt, "memory");
    for statement in words.split("; ") {
        if !text.ends_with("[") {
            put(rt, &mut text, &[","]);
        }
        add_statement(rt, &mut text, statement);
    }
    put(rt, &mut text, &["]"]);
    text
}
