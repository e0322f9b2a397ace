//! The records of a keep as a viewer sees them: a record's row, its aliases, and all rows.

use crate::asking::{answered, day, keep_of_two, node, read};
use crate::checks::{counts, holds};
use bor_chains::{LinkSource, ListSource, Node};
use bor_desk::operations::{Keep, KeepSource, ListKeep};
use std::alloc::Global;
use std::process::Abort;

// A register in which birch has published b1, and alder has a draft of e1 and of a1, which has b1's number.
fn joined(rt: &impl Abort, alloc: Global) -> ListKeep {
    let mut keep = keep_of_two(rt, alloc);
    for ask in [
        ("birch PUT /filings/x3?due=2024-02-01", "E s1 b1 1"),
        ("alder PUT /filings/g1?due=2024-03-01", "E s1 e1; E s2 a1 1"),
    ] {
        let _ = answered(rt, alloc, &mut keep, ask);
    }
    keep
}

// The record b1 of birch.
fn of_birch(rt: &impl Abort, alloc: Global) -> Node {
    let mut b1 = node(rt, alloc, "b1");
    b1.agent = read(rt, alloc, "birch");
    b1
}

// The aliases of a node, as the agent sees them: of a source over the keep, and of one over the rows
// that the agent sees, they are those of the keep.
fn aliases<K: Keep>(
    rt: &impl Abort,
    alloc: Global,
    keep: &mut K,
    viewer: &str,
    node: &Node,
) -> Vec<Node> {
    let viewer = read(rt, alloc, viewer);
    let today = day(rt, "2024-02-01");
    let rows = keep.visible_rows(&viewer).expect(rt, "no rows");
    let mut listed = ListSource::from_rows(alloc, &rows, today).expect(rt, "memory");
    let of_rows = listed.aliases(node).expect(rt, "no aliases of rows");
    let mut source = KeepSource::new(keep, &viewer, today);
    let of_source = source.aliases(node).expect(rt, "no aliases of a source");
    let of_keep = keep.aliases(&viewer, today, node).expect(rt, "no aliases");
    let is_alike = of_source.as_slice() == of_keep.as_slice();
    holds(rt, "a source over the keep", is_alike);
    let is_alike = of_rows.as_slice() == of_keep.as_slice();
    holds(rt, "a source over rows", is_alike);
    of_keep
}

// The filing, the place and the identifier of the statement that a record shows the agent on a day, as `1 2
// s2`; nothing where it shows none.
fn row<K: Keep>(rt: &impl Abort, alloc: Global, keep: &mut K, viewer: &str, date: &str) -> String {
    let viewer = read(rt, alloc, viewer);
    let told = keep.open_row(&viewer, day(rt, date), &node(rt, alloc, "a1"));
    match told.expect(rt, "no row") {
        Some(row) => {
            let id = row.statement.id.as_str();
            format!(in alloc; "{} {} {id}", row.filing, row.place).expect(rt, "memory")
        }
        None => String::new(alloc),
    }
}

// How many rows the agent sees.
fn row_count<K: Keep>(rt: &impl Abort, alloc: Global, keep: &mut K, viewer: &str) -> usize {
    let viewer = read(rt, alloc, viewer);
    keep.visible_rows(&viewer).expect(rt, "no rows").len()
}

#[test]
fn a_draft_is_an_alias_for_its_own_agent_alone(rt: HostRuntime) {
    let alloc = rt.alloc();
    let mut keep = joined(&rt, alloc);
    let (a1, b1) = (node(&rt, alloc, "a1"), of_birch(&rt, alloc));
    let of_a1 = aliases(&rt, alloc, &mut keep, "alder", &a1);
    holds(&rt, "b1 of a1", of_a1.len() == 1 && of_a1.contains(&b1));
    let of_b1 = aliases(&rt, alloc, &mut keep, "alder", &b1);
    holds(&rt, "a1 of b1", of_b1.len() == 1 && of_b1.contains(&a1));
    for node in [&a1, &b1] {
        let seen = aliases(&rt, alloc, &mut keep, "birch", node);
        counts(&rt, "aliases that birch sees", seen.len(), 0);
    }
}

#[test]
fn a_row_tells_where_its_statement_stands(rt: HostRuntime) {
    let alloc = rt.alloc();
    let mut keep = joined(&rt, alloc);
    for (viewer, date, wanted) in [
        ("alder", "2024-02-01", "1 2 s2"),
        ("alder", "2024-01-10", "1 2 s2"),
        ("alder", "2024-01-09", ""),
        ("birch", "2024-02-01", ""),
    ] {
        let told = row(&rt, alloc, &mut keep, viewer, date);
        holds(&rt, date, told.as_str() == wanted);
    }
    counts(&rt, "alder's", row_count(&rt, alloc, &mut keep, "alder"), 3);
    counts(&rt, "birch's", row_count(&rt, alloc, &mut keep, "birch"), 1);
}
