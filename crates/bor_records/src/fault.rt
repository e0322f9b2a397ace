//! Why a statement may not follow what its record has.

ghost use Rattle.std.specs.Prelude.{◌≡◌};
ghost use Rattle.bor_records.specs.Words.{fault_name};

/// Why a statement is refused by its record's live statements (this register's profile of BODS
/// 0.4, `recordStatus`). They are tested in this order.
#[derive(Clone, Copy, Debug, PartialEq, Eq)]
pub enum RecordFault {
    /// The record's last live statement is of another type.
    TypeChanged,
    /// The statement gives the status `new`, and the record has a live statement.
    RecordExists,
    /// The statement gives the status `updated` or `closed`, and the record has no live statement.
    RecordUnknown,
    /// The record's last live statement closes it.
    RecordClosed,
    /// The statement is dated before the record's last live statement.
    DateBack,
    /// The statement's filing is due before that of the record's last live statement.
    DueBeforeRecord,
}

impl RecordFault {
    /// The name of the refusal, as it is shown.
    #[tactic(auto, unfolding(crate::specs::Words::fault_name))]
    pub fn name(self) -> &'static str
        ensures { result.now ≡ fault_name self }
    {
        match self {
            RecordFault::TypeChanged => "TypeChanged",
            RecordFault::RecordExists => "RecordExists",
            RecordFault::RecordUnknown => "RecordUnknown",
            RecordFault::RecordClosed => "RecordClosed",
            RecordFault::DateBack => "DateBack",
            RecordFault::DueBeforeRecord => "DueBeforeRecord",
        }
    }
}
