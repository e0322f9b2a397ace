//! A viewer's view, and which filings it has: what was found is not read again.

ghost use Rattle.std.specs.Prelude.{◌≡◌};
ghost use Rattle.bor_register.specs.Register.{filings_of};
ghost use Rattle.bor_store_reads.specs.Answering.{ReadsIn};
ghost use Rattle.bor_store_reads.specs.Asking.{is_number_seen};

use crate::lookup::Lookup;
use crate::view::View;
use bor_store_reads::ReadError;
use bor_store_sql::rows::FilingKey;
use bor_terms::{AgentName, Day};
use sqlite::Alter;
use std::alloc::Global;

// The viewer's view of the register on its day, as the tables have it.
fn view_read<S: Alter + Drop>(
    lookup: &mut Lookup<S>,
    alloc: Global,
    viewer: &AgentName,
    day: Day,
) -> Result<View, ReadError>
    ensures { ReadsIn S.Store lookup.old lookup.new result (λ r view.
        view ≡ record { viewer = viewer.now; today = r.day; day = day }) }
{
    let today = lookup.read_today(alloc)?;
    let viewer = viewer.copy(alloc)?;
    let view = View { viewer, today, day };
    lookup.begin(alloc, view.copy(alloc)?);
    Ok(view)
}

/// The viewer's view of the register on its day.
pub(crate) fn view_of<S: Alter + Drop>(
    lookup: &mut Lookup<S>,
    alloc: Global,
    viewer: &AgentName,
    day: Day,
) -> Result<View, ReadError>
    ensures { ReadsIn S.Store lookup.old lookup.new result (λ r view.
        view ≡ record { viewer = viewer.now; today = r.day; day = day }) }
{
    match lookup.today(viewer, day) {
        Some(today) => {
            let viewer = viewer.copy(alloc)?;
            Ok(View { viewer, today, day })
        }
        None => view_read(lookup, alloc, viewer, day),
    }
}

// Whether the viewer sees the agent's filing with this number, as the tables have it.
#[tactic(auto, using(bor_store_reads::proofs::Reading::read_fails, bor_store_reads::proofs::Reading::read_wants, crate::proofs::Holding::read_left))]
fn filing_read<S: Alter + Drop>(
    lookup: &mut Lookup<S>,
    alloc: Global,
    view: &View,
    key: FilingKey,
) -> Result<bool, ReadError>
    ensures { ReadsIn S.Store lookup.old lookup.new result (λ r seen.
        seen ≡ is_number_seen view.now.viewer view.now.today key.agent
        (filings_of key.agent r.members) key.number) }
{
    let seen = lookup.filing_seen(alloc, view, &key.agent, key.number)?;
    lookup.note_filing(view, key, seen);
    Ok(seen)
}

/// Whether the viewer sees the agent's filing with this number.
pub(crate) fn is_filing_seen<S: Alter + Drop>(
    lookup: &mut Lookup<S>,
    alloc: Global,
    view: &View,
    agent: &AgentName,
    number: u32,
) -> Result<bool, ReadError>
    ensures { ReadsIn S.Store lookup.old lookup.new result (λ r seen.
        seen ≡ is_number_seen view.now.viewer view.now.today agent.now
        (filings_of agent.now r.members) number) }
{
    let key = FilingKey {
        number,
        agent: agent.copy(alloc)?,
    };
    match lookup.is_seen(view, &key) {
        Some(seen) => Ok(seen),
        None => filing_read(lookup, alloc, view, key),
    }
}
