//! Laws of what is read. Each function does nothing: its contract is the law, and it is proved for
//! all bytes.

ghost use Rattle.bods_read.specs.Laws.{ReadingGivesForms};

/// Whatever the bytes are, each statement that they are read to has its form: its identifiers, its
/// texts of UTF-8, its days of the calendar, and shares with points.
#[tactic(auto, using(crate::proofs::FormsRead::reading_formed))]
pub fn read_statements_have_their_forms()
    ensures { ReadingGivesForms }
{}
