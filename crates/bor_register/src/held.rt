//! How much a register holds.

ghost use Rattle.std.specs.Prelude.{◌≡◌, min};
ghost use Rattle.bor_register.specs.Held.{statement_count, statement_total};

use crate::filing::AcceptedFiling;
use crate::member::Member;

fn statements_in(filings: &[AcceptedFiling]) -> usize
    ensures { result ≡ min (statement_total filings.now) usize.MAX }
{
    let mut count = 0usize;
    for filing in filings {
        count = count.saturating_add(filing.statements.as_slice().len());
    }
    count
}

/// How many live statements a register of these members has; `usize::MAX` where there are more.
pub fn statement_count(members: &[Member]) -> usize
    ensures { result ≡ min (statement_count members.now) usize.MAX }
{
    let mut count = 0usize;
    for member in members {
        count = count.saturating_add(statements_in(member.filings.as_slice()));
    }
    count
}
