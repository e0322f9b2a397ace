//! Terms that nothing else asks for, and the example of their first page.

use crate::asking::read;
use crate::checks::{all_hold, holds};
use bor_terms::{AgentName, Day, Listed, Span};
use std::alloc::{AllocError, Global};

#[test]
fn the_page_of_terms(rt: HostRuntime) {
    let day = Day::read("2024-02-01T09:00:00Z");
    let share = Span::new(50, true, 100, false);
    let name = AgentName::read(rt.alloc(), "Acme Ltd").expect(&rt, "memory");
    let told = [
        day.map(Day::number) == Some(19_754),
        share.map(Span::above_half) == Some(true),
        name.is_none(),
    ];
    all_hold(&rt, "told", &told);
}

// Whether a name is given back as a text while there is a copy of it.
fn is_given_back(alloc: Global, name: AgentName) -> Result<bool, AllocError> {
    let copied = name.copy(alloc)?;
    let text = name.into_string()?;
    Ok(text.as_str() == "alder" && copied.as_str() == "alder")
}

// Whether a list of two grows, and a copy of it stays.
fn is_added(alloc: Global, items: Vec<u32>) -> Result<bool, AllocError> {
    let mut list = Listed::new(items);
    let copied = list.copy(alloc)?;
    list.push(3)?;
    Ok(list.as_slice() == [1, 2, 3].as_slice() && copied.as_slice() == [1, 2].as_slice())
}

#[test]
fn a_text_is_given_back_and_a_list_grows(rt: HostRuntime) {
    let alloc = rt.alloc();
    let name = read(&rt, alloc, "alder");
    let is_told = is_given_back(alloc, name).expect(&rt, "memory");
    holds(&rt, "a text", is_told);
    let items = vec![in alloc; 1, 2].expect(&rt, "memory");
    let is_told = is_added(alloc, items).expect(&rt, "memory");
    holds(&rt, "a list", is_told);
}
