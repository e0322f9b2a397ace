//! Why a part of a statement was not read, before its place is known.

ghost use Rattle.std.specs.Prelude.{◌≡◌};
ghost use Rattle.bods_read.specs.File.{fault_at};
ghost use Rattle.bods_read.specs.declared.trouble.Trouble.TheVariants.{Memory};

use crate::fault::{Fault, FileFault, ReadFault};
use std::alloc::{AllocError, AllocFailed};

#[derive(Drop)]
pub(crate) enum Trouble {
    /// Memory was wanting.
    Memory,
    /// A line of the table of faults fails.
    Fault(Fault),
}

impl Trouble {
    /// The answer for it at the place of its statement.
    pub(crate) fn at(self, place: u32) -> ReadFault
        ensures { result ≡ fault_at place self }
    {
        match self {
            Trouble::Memory => ReadFault::Memory,
            Trouble::Fault(fault) => ReadFault::File(FileFault::At { place, fault }),
        }
    }
}

impl From<AllocError> for Trouble {
    ghost from_gives = { λ _ e. e ≡ Memory };

    fn from(_error: AllocError) -> Trouble {
        Trouble::Memory
    }
}

impl<T: Drop> From<AllocFailed<T>> for Trouble {
    ghost from_gives = { λ _ e. e ≡ Memory };

    fn from(_error: AllocFailed<T>) -> Trouble {
        Trouble::Memory
    }
}
