//! The refusals of requests.

ghost use Rattle.std.specs.Prelude.{◌≡◌};
ghost use Rattle.bor_register.specs.declared.fault.StoreFault.TheVariants as stores;
ghost use Rattle.bor_desk.specs.declared.refusal.DeskFault.TheVariants as faults;
ghost use Rattle.bor_desk.specs.Refusals.{refusal_name, refusal_place, refusal_field, of_lodging, of_withdrawal, of_advance, of_enrolment, of_renewal, IsOfChains};

use crate::operations::{
    AdvanceFault, EnrolFault, LodgeFault, RenewFault, StoreFault, WithdrawFault,
};
use bods_read::{Field, FileFault};
use bor_chains::ChainFault;
use bor_records::RecordFault;
use std::alloc::AllocError;

/// Why a request is refused. The register is as before.
#[derive(Clone, Copy, Debug, PartialEq, Eq)]
pub enum Refusal {
    /// Nobody has the token.
    NoAgent,
    /// An agent asks for what only the registrar may ask.
    NotRegistrar,
    /// The registrar asks for anything else.
    NotAgent,
    /// The agent has lodged another file under the key, or the same with another due day.
    KeyReused,
    /// The agent has as many filings as one may have, withdrawn ones included.
    FilingsFull,
    /// The due day is before the register's day.
    DuePast,
    /// Something is wrong with the file.
    Read(FileFault),
    /// The identifier of the statement at this place, from 1, is that of a live statement of the
    /// agent, or of an earlier one of the file.
    StatementTwice(u32),
    /// The statement at this place, from 1, may not follow what its record has.
    Record { place: u32, fault: RecordFault },
    /// The agent has no filing under the key.
    NoSuchFiling,
    /// The filing is published, and can't be withdrawn.
    Published,
    /// A later live filing of the agent has a statement of one of the filing's records.
    HasSuccessor,
    /// The caller sees no open entity there on the day.
    NoEntity,
    /// The day is before the register's.
    DayBack,
    /// An agent has the name.
    NameTaken,
    /// An agent or the registrar has the token; of a renewal, another agent or the registrar.
    TokenTaken,
    /// No agent has the name.
    NoSuchAgent,
}

impl Refusal {
    /// The name that is shown for it.
    #[tactic(auto, unfolding(crate::specs::Refusals::refusal_name))]
    pub fn name(self) -> &'static str
        ensures { result.now ≡ refusal_name self }
    {
        match self {
            Refusal::NoAgent => "NoAgent",
            Refusal::NotRegistrar => "NotRegistrar",
            Refusal::NotAgent => "NotAgent",
            Refusal::KeyReused => "KeyReused",
            Refusal::FilingsFull => "FilingsFull",
            Refusal::DuePast => "DuePast",
            Refusal::Read(fault) => fault.name(),
            Refusal::StatementTwice(_) => "StatementTwice",
            Refusal::Record { fault, .. } => fault.name(),
            Refusal::NoSuchFiling => "NoSuchFiling",
            Refusal::Published => "Published",
            Refusal::HasSuccessor => "HasSuccessor",
            Refusal::NoEntity => "NoEntity",
            Refusal::DayBack => "DayBack",
            Refusal::NameTaken => "NameTaken",
            Refusal::TokenTaken => "TokenTaken",
            Refusal::NoSuchAgent => "NoSuchAgent",
        }
    }

    /// The place of the statement that is refused, from 1, where it is about one.
    pub fn place(self) -> Option<u32>
        ensures { result ≡ refusal_place self }
    {
        match self {
            Refusal::Read(fault) => fault.place(),
            Refusal::StatementTwice(place) | Refusal::Record { place, .. } => Some(place),
            _ => None,
        }
    }

    /// The member of the file that it is about, where it names one.
    pub fn field(self) -> Option<Field>
        ensures { result ≡ refusal_field self }
    {
        match self {
            Refusal::Read(fault) => fault.field(),
            _ => None,
        }
    }
}

/// Why there is no answer: a refusal, or a fault of the store.
#[derive(Clone, Copy, Debug, PartialEq, Eq)]
pub(crate) enum DeskFault {
    Refused(Refusal),
    Failed(StoreFault),
}

impl From<StoreFault> for DeskFault {
    ghost from_gives = { λ fault given. given ≡ faults.Failed fault };

    fn from(fault: StoreFault) -> Self {
        DeskFault::Failed(fault)
    }
}

impl From<AllocError> for DeskFault {
    ghost from_gives = { λ _ given. given ≡ faults.Failed stores.Memory };

    fn from(_error: AllocError) -> Self {
        DeskFault::Failed(StoreFault::Memory)
    }
}

impl From<LodgeFault> for DeskFault {
    ghost from_gives = { λ fault given. given ≡ of_lodging fault };

    fn from(fault: LodgeFault) -> Self {
        match fault {
            LodgeFault::KeyReused => DeskFault::Refused(Refusal::KeyReused),
            LodgeFault::FilingsFull => DeskFault::Refused(Refusal::FilingsFull),
            LodgeFault::DuePast => DeskFault::Refused(Refusal::DuePast),
            LodgeFault::Read(fault) => DeskFault::Refused(Refusal::Read(fault)),
            LodgeFault::StatementTwice(place) => DeskFault::Refused(Refusal::StatementTwice(place)),
            LodgeFault::Record { place, fault } => {
                DeskFault::Refused(Refusal::Record { place, fault })
            }
            LodgeFault::Store(fault) => DeskFault::Failed(fault),
        }
    }
}

impl From<WithdrawFault> for DeskFault {
    ghost from_gives = { λ fault given. given ≡ of_withdrawal fault };

    fn from(fault: WithdrawFault) -> Self {
        match fault {
            WithdrawFault::NoSuchFiling => DeskFault::Refused(Refusal::NoSuchFiling),
            WithdrawFault::Published => DeskFault::Refused(Refusal::Published),
            WithdrawFault::HasSuccessor => DeskFault::Refused(Refusal::HasSuccessor),
            WithdrawFault::Store(fault) => DeskFault::Failed(fault),
        }
    }
}

impl From<AdvanceFault> for DeskFault {
    ghost from_gives = { λ fault given. given ≡ of_advance fault };

    fn from(fault: AdvanceFault) -> Self {
        match fault {
            AdvanceFault::DayBack => DeskFault::Refused(Refusal::DayBack),
            AdvanceFault::Store(fault) => DeskFault::Failed(fault),
        }
    }
}

impl From<EnrolFault> for DeskFault {
    ghost from_gives = { λ fault given. given ≡ of_enrolment fault };

    fn from(fault: EnrolFault) -> Self {
        match fault {
            EnrolFault::NameTaken => DeskFault::Refused(Refusal::NameTaken),
            EnrolFault::TokenTaken => DeskFault::Refused(Refusal::TokenTaken),
            EnrolFault::Store(fault) => DeskFault::Failed(fault),
        }
    }
}

impl From<RenewFault> for DeskFault {
    ghost from_gives = { λ fault given. given ≡ of_renewal fault };

    fn from(fault: RenewFault) -> Self {
        match fault {
            RenewFault::NoSuchAgent => DeskFault::Refused(Refusal::NoSuchAgent),
            RenewFault::TokenTaken => DeskFault::Refused(Refusal::TokenTaken),
            RenewFault::Store(fault) => DeskFault::Failed(fault),
        }
    }
}

impl<F: Into<StoreFault>> From<ChainFault<F>> for DeskFault {
    ghost from_gives = { λ fault given. IsOfChains F.converts fault given };

    fn from(fault: ChainFault<F>) -> Self {
        match fault {
            ChainFault::NoEntity => DeskFault::Refused(Refusal::NoEntity),
            ChainFault::Source(fault) => DeskFault::Failed(fault.into()),
            ChainFault::Memory => DeskFault::Failed(StoreFault::Memory),
        }
    }
}
