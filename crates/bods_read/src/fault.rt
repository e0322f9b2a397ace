//! The faults that a file may have.

ghost use Rattle.std.specs.Prelude.{◌≡◌};
ghost use Rattle.bods_read.specs.Words.{field_word};
ghost use Rattle.bods_read.specs.Faults.{fault_word, fault_field, file_fault_word, file_fault_place, file_fault_field};
ghost use Rattle.bods_read.specs.declared.fault.ReadFault.TheVariants as read_faults;

use std::alloc::{AllocError, AllocFailed};

/// A member of a statement.
#[derive(Clone, Copy, Debug, PartialEq, Eq)]
pub enum Field {
    /// The statement itself, where it is no object.
    Statement,
    StatementId,
    StatementDate,
    DeclarationSubject,
    RecordId,
    RecordType,
    RecordStatus,
    RecordDetails,
    Identifiers,
    Subject,
    InterestedParty,
    Interests,
    Share,
    Exact,
    Minimum,
    Maximum,
    ExclusiveMinimum,
    ExclusiveMaximum,
}

impl Field {
    /// The member's name (BODS 0.4); `statement` for the statement itself.
    #[tactic(auto, unfolding(crate::specs::Words::field_word))]
    pub fn as_str(self) -> &'static str
        ensures { result.now ≡ field_word self }
    {
        match self {
            Field::Statement => "statement",
            Field::StatementId => "statementId",
            Field::StatementDate => "statementDate",
            Field::DeclarationSubject => "declarationSubject",
            Field::RecordId => "recordId",
            Field::RecordType => "recordType",
            Field::RecordStatus => "recordStatus",
            Field::RecordDetails => "recordDetails",
            Field::Identifiers => "identifiers",
            Field::Subject => "subject",
            Field::InterestedParty => "interestedParty",
            Field::Interests => "interests",
            Field::Share => "share",
            Field::Exact => "exact",
            Field::Minimum => "minimum",
            Field::Maximum => "maximum",
            Field::ExclusiveMinimum => "exclusiveMinimum",
            Field::ExclusiveMaximum => "exclusiveMaximum",
        }
    }
}

/// A fault of a statement.
#[derive(Clone, Copy, Debug, PartialEq, Eq)]
pub enum Fault {
    /// A required member is absent or null.
    Missing(Field),
    /// A member isn't of its form.
    Bad(Field),
    /// A number of a share isn't a whole number of 64 bits.
    Fraction,
    /// A whole number of a share is outside 0 to 100.
    ShareRange,
    /// No half percent lies in the range of a share.
    EmptyShare,
    /// An array has more than 100 items.
    TooLong(Field),
}

impl Fault {
    /// The fault's name, as in `Missing`.
    #[tactic(auto, unfolding(crate::specs::Faults::fault_word))]
    pub fn name(self) -> &'static str
        ensures { result.now ≡ fault_word self }
    {
        match self {
            Fault::Missing(_) => "Missing",
            Fault::Bad(_) => "Bad",
            Fault::Fraction => "Fraction",
            Fault::ShareRange => "ShareRange",
            Fault::EmptyShare => "EmptyShare",
            Fault::TooLong(_) => "TooLong",
        }
    }

    /// The member that it is about, where it names one.
    pub fn field(self) -> Option<Field>
        ensures { result ≡ fault_field self }
    {
        match self {
            Fault::Missing(field) | Fault::Bad(field) | Fault::TooLong(field) => Some(field),
            Fault::Fraction | Fault::ShareRange | Fault::EmptyShare => None,
        }
    }
}

/// A fault of a file.
#[derive(Clone, Copy, Debug, PartialEq, Eq)]
pub enum FileFault {
    /// The bytes are no JSON.
    NotJson,
    /// The value isn't an array.
    NotAList,
    /// The array is empty.
    NoStatements,
    /// The array has more than 1,000 items.
    TooMany,
    /// The first faulty statement, and the first thing wrong with it. Places count from 1.
    At { place: u32, fault: Fault },
}

impl FileFault {
    /// The name that is printed for it: of a faulty statement, the name of what is wrong with it.
    #[tactic(auto, unfolding(crate::specs::Faults::file_fault_word))]
    pub fn name(self) -> &'static str
        ensures { result.now ≡ file_fault_word self }
    {
        match self {
            FileFault::NotJson => "NotJson",
            FileFault::NotAList => "NotAList",
            FileFault::NoStatements => "NoStatements",
            FileFault::TooMany => "TooMany",
            FileFault::At { fault, .. } => fault.name(),
        }
    }

    /// The place of the faulty statement, from 1.
    pub fn place(self) -> Option<u32>
        ensures { result ≡ file_fault_place self }
    {
        match self {
            FileFault::At { place, .. } => Some(place),
            _ => None,
        }
    }

    /// The member that it is about, where it names one.
    pub fn field(self) -> Option<Field>
        ensures { result ≡ file_fault_field self }
    {
        match self {
            FileFault::At { fault, .. } => fault.field(),
            _ => None,
        }
    }
}

/// Why a file was not read.
#[derive(Clone, Copy, Debug, PartialEq, Eq)]
pub enum ReadFault {
    /// Something is wrong with the file.
    File(FileFault),
    /// Memory was wanting. Nothing is said of the file.
    Memory,
}

impl From<FileFault> for ReadFault {
    ghost from_gives = { λ fault e. e ≡ read_faults.File fault };

    fn from(fault: FileFault) -> ReadFault {
        ReadFault::File(fault)
    }
}

impl From<AllocError> for ReadFault {
    ghost from_gives = { λ _ e. e ≡ read_faults.Memory };

    fn from(_error: AllocError) -> ReadFault {
        ReadFault::Memory
    }
}

impl<T: Drop> From<AllocFailed<T>> for ReadFault {
    ghost from_gives = { λ _ e. e ≡ read_faults.Memory };

    fn from(_error: AllocFailed<T>) -> ReadFault {
        ReadFault::Memory
    }
}
