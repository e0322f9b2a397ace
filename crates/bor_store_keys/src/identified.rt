//! Which entities have an identifier.

ghost use Rattle.bor_records.specs.Links.Answers.{AreIdentified};
ghost use Rattle.bor_register.specs.Seen.{seen_at};
ghost use Rattle.bor_store_reads.specs.Answering.{ReadsIn};
ghost use Rattle.bor_store_keys.specs.Viewed.{seen};

use crate::lookup::Lookup;
use crate::seen::Seen;
use crate::view::View;
use crate::views::view_of;
use bods_read::Identifier;
use bor_records::links::{Node, identified};
use bor_store_reads::ReadError;
use bor_terms::{AgentName, Day};
use sqlite::Alter;
use std::alloc::Global;

// The open entities that have an identifier, each once.
fn identified_in<S: Alter + Drop>(
    lookup: &mut Lookup<S>,
    alloc: Global,
    view: &View,
    identifier: &Identifier,
) -> Result<Vec<Node>, ReadError>
    ensures { ReadsIn S.Store lookup.old lookup.new result (λ r nodes.
        AreIdentified (seen view.now r) identifier.now nodes.items) }
{
    let mut seen = Seen {
        lookup,
        alloc,
        view,
    };
    identified(&mut seen, alloc, identifier)
}

/// The open entities that have an identifier on a day, of what the viewer sees, each once and in
/// any order. Beside the records that name the identifier and their series nothing is read.
pub fn read_identified<S: Alter + Drop>(
    lookup: &mut Lookup<S>,
    alloc: Global,
    viewer: &AgentName,
    day: Day,
    identifier: &Identifier,
) -> Result<Vec<Node>, ReadError>
    ensures { ReadsIn S.Store lookup.old lookup.new result (λ r nodes.
        AreIdentified (seen_at viewer.now day r) identifier.now nodes.items) }
{
    let view = view_of(lookup, alloc, viewer, day)?;
    identified_in(lookup, alloc, &view, identifier)
}
