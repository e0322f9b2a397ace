//! Tests of the crates that know nothing of SQLite, of what can't be asked of the built program: keeps,
//! streams, clients and clocks that fail, what a keep is asked for, and the examples on the pages of
//! crates and rooms. Those of `bor_program` and of its `connections` need the standard streams and a
//! socket, and aren't run.
//!
//! Nothing else is here, and no crate stands on this one. What can be asked from outside is asked of the
//! built program, by the files of `tests/`.
#![tactic(auto)]

#[cfg(test)]
mod asking;
#[cfg(test)]
mod calls;
#[cfg(test)]
mod checks;
#[cfg(test)]
mod clients;
#[cfg(test)]
mod exchanges;
#[cfg(test)]
mod failing;
#[cfg(test)]
mod failing_keep;
#[cfg(test)]
mod files;
#[cfg(test)]
mod machine;
#[cfg(test)]
mod pages;
#[cfg(test)]
mod programs;
#[cfg(test)]
mod reads;
#[cfg(test)]
mod request_pages;
#[cfg(test)]
mod serving;
#[cfg(test)]
mod streams;
#[cfg(test)]
mod terms;
#[cfg(test)]
mod without_memory;
