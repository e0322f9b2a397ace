//! The outward forms of the published filings, which all see.

ghost use Rattle.std.specs.Prelude.{◌≡◌, ◌++◌, IfOk, OnOk};
ghost use Rattle.bor_register.specs.Publication.{published, outwards_of};

use crate::filing::{AcceptedFiling, Outward};
use crate::member::Member;
use crate::statements::copied;
use bor_terms::{AgentName, Day};
use std::alloc::{AllocError, Global};

fn add_outwards(
    alloc: Global,
    outwards: &mut Vec<Outward>,
    name: &AgentName,
    filings: &[AcceptedFiling],
    day: Day,
) -> Result<(), AllocError>
    ensures { OnOk result
        (outwards.new.items ≡ outwards.old.items ++ outwards_of day name.now filings.now) }
{
    for filing in filings {
        if filing.is_published(day) {
            outwards.push(Outward {
                agent: name.copy(alloc)?,
                due: filing.due,
                statements: copied(alloc, filing.statements.as_slice())?,
            })?;
        }
    }
    Ok(())
}

/// The outward forms of the filings that are published on a day, which all see: by agent, those of
/// an agent in order of acceptance.
pub fn all_published(
    alloc: Global,
    members: &[Member],
    day: Day,
) -> Result<Vec<Outward>, AllocError>
    ensures { IfOk result (λ outwards. outwards.items ≡ published day members.now) }
{
    let mut outwards = Vec::new(alloc);
    for member in members {
        add_outwards(
            alloc,
            &mut outwards,
            &member.name,
            member.filings.as_slice(),
            day,
        )?;
    }
    Ok(outwards)
}
