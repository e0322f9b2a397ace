//! Withdrawing a filing.

ghost use Rattle.std.specs.Prelude.{◌≡◌};
ghost use Rattle.bor_register.specs.Withdrawal.{with_withdrawn};

use crate::filing::AcceptedFiling;
use bor_terms::Listed;
use std::alloc::Global;

/// Withdraws the filing with this number, where there is one. It takes no memory.
pub(crate) fn withdraw_from(alloc: Global, filings: &mut Listed<AcceptedFiling>, number: u32)
    ensures { filings.new ≡ with_withdrawn number filings.old }
{
    for i in 0..filings.as_slice().len() {
        if filings.as_slice()[i].number == number {
            filings.item_mut(i).withdraw(alloc);
            return;
        }
    }
}
