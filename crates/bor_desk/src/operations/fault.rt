//! Why an operation was not done.

ghost use Rattle.std.specs.Prelude.{◌≡◌};
ghost use Rattle.bor_register.specs.declared.fault.StoreFault.TheVariants as store_faults;
ghost use Rattle.bor_desk.specs.declared.operations.fault.LodgeFault.TheVariants as lodge_faults;
ghost use Rattle.bor_desk.specs.declared.operations.fault.WithdrawFault.TheVariants as withdraw_faults;
ghost use Rattle.bor_desk.specs.declared.operations.fault.AdvanceFault.TheVariants as advance_faults;
ghost use Rattle.bor_desk.specs.declared.operations.fault.EnrolFault.TheVariants as enrol_faults;
ghost use Rattle.bor_desk.specs.declared.operations.fault.RenewFault.TheVariants as renew_faults;

use bods_read::FileFault;
use bor_records::RecordFault;
use bor_register::StoreFault;
use std::alloc::AllocError;

/// Why a file was not lodged. The register is as before, unless the store shut in its commit.
#[derive(Clone, Copy, Debug, PartialEq, Eq)]
pub enum LodgeFault {
    /// The agent has lodged another file under the key, or the same with another due day.
    KeyReused,
    /// The agent has [`FILINGS_LIMIT`](crate::operations::FILINGS_LIMIT) filings, withdrawn ones
    /// included.
    FilingsFull,
    /// The due day is before the register's day.
    DuePast,
    /// Something is wrong with the file.
    Read(FileFault),
    /// The identifier of the statement at this place, from 1, is that of a live statement of the
    /// agent, or of an earlier one of the file.
    StatementTwice(u32),
    /// The statement at this place, from 1, may not follow what its record has.
    Record { place: u32, fault: RecordFault },
    /// The keep failed, or memory was wanting.
    Store(StoreFault),
}

impl From<StoreFault> for LodgeFault {
    ghost from_gives = { λ fault given. given ≡ lodge_faults.Store fault };

    fn from(fault: StoreFault) -> Self {
        LodgeFault::Store(fault)
    }
}

impl From<AllocError> for LodgeFault {
    ghost from_gives = { λ _ given. given ≡ lodge_faults.Store store_faults.Memory };

    fn from(_error: AllocError) -> Self {
        LodgeFault::Store(StoreFault::Memory)
    }
}

/// Why a filing was not withdrawn. The register is as before, unless the store shut in its commit.
#[derive(Clone, Copy, Debug, PartialEq, Eq)]
pub enum WithdrawFault {
    /// The agent has no filing under the key.
    NoSuchFiling,
    /// The filing is published.
    Published,
    /// A later live filing of the agent has a statement of one of the filing's records.
    HasSuccessor,
    /// The keep failed, or memory was wanting.
    Store(StoreFault),
}

impl From<StoreFault> for WithdrawFault {
    ghost from_gives = { λ fault given. given ≡ withdraw_faults.Store fault };

    fn from(fault: StoreFault) -> Self {
        WithdrawFault::Store(fault)
    }
}

/// Why the register's day was not moved. The register is as before, unless the store shut in its
/// commit.
#[derive(Clone, Copy, Debug, PartialEq, Eq)]
pub enum AdvanceFault {
    /// The day is before the register's.
    DayBack,
    /// The keep failed, or memory was wanting.
    Store(StoreFault),
}

impl From<StoreFault> for AdvanceFault {
    ghost from_gives = { λ fault given. given ≡ advance_faults.Store fault };

    fn from(fault: StoreFault) -> Self {
        AdvanceFault::Store(fault)
    }
}

/// Why an agent was not enrolled. The register is as before, unless the store shut in its commit.
#[derive(Clone, Copy, Debug, PartialEq, Eq)]
pub enum EnrolFault {
    /// An agent has the name.
    NameTaken,
    /// An agent or the registrar has the token.
    TokenTaken,
    /// The keep failed, or memory was wanting.
    Store(StoreFault),
}

impl From<StoreFault> for EnrolFault {
    ghost from_gives = { λ fault given. given ≡ enrol_faults.Store fault };

    fn from(fault: StoreFault) -> Self {
        EnrolFault::Store(fault)
    }
}

/// Why an agent's token was not renewed. The register is as before, unless the store shut in its
/// commit.
#[derive(Clone, Copy, Debug, PartialEq, Eq)]
pub enum RenewFault {
    /// No agent has the name.
    NoSuchAgent,
    /// Another agent or the registrar has the token.
    TokenTaken,
    /// The keep failed, or memory was wanting.
    Store(StoreFault),
}

impl From<StoreFault> for RenewFault {
    ghost from_gives = { λ fault given. given ≡ renew_faults.Store fault };

    fn from(fault: StoreFault) -> Self {
        RenewFault::Store(fault)
    }
}
