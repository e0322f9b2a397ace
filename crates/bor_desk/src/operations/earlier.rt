//! The statements of a file that stand before one of them, found by identifier and by record, so
//! that none is compared with all of them.

ghost use Rattle.std.specs.Prelude.{◌≡◌, ◌++◌, ◌∷◌, [], List, IfOk, OnOk};
ghost use Rattle.bor_records.specs.Admission.{Live, last_of};
ghost use Rattle.bor_records.specs.Settling.{as_live, has_id};
ghost use Rattle.bor_desk.specs.Operations.Earlier.{AreFound, record_of};

use bods_read::Statement;
use bor_records::Last;
use bor_register::known;
use bor_terms::{Day, Ident};
use std::alloc::{AllocError, Global};
use std::collections::{BTreeMap, BTreeSet};

/// A record of a declaration. The record is compared first: most statements are of few
/// declarations.
#[derive(Drop, PartialEq, Eq, PartialOrd, Ord)]
pub(crate) struct RecordKey {
    rec: Ident,
    declaration: Ident,
}

impl RecordKey {
    /// The record that the statement is of.
    pub(crate) fn of(alloc: Global, statement: &Statement) -> Result<RecordKey, AllocError>
        ensures { IfOk result (λ key. key ≡ record_of statement.now) }
    {
        Ok(RecordKey {
            rec: statement.rec.copy(alloc)?,
            declaration: statement.declaration.copy(alloc)?,
        })
    }
}

/// The identifiers of settled statements, and of each of their records what is known of its last
/// one. Agents choose both, so they stand in trees.
#[derive(Drop)]
pub(crate) struct Earlier {
    ids: BTreeSet<Ident>,
    lasts: BTreeMap<RecordKey, Last>,
}

impl Earlier {
    /// No statement.
    pub(crate) fn new(alloc: Global) -> Earlier
        ensures { AreFound [] result }
    {
        Earlier {
            ids: BTreeSet::new(alloc),
            lasts: BTreeMap::new(alloc),
        }
    }

    /// Whether a statement has the identifier.
    pub(crate) fn has_id(&self, id: &Ident) -> bool
        ensures { (live : List Live) → AreFound live self.now → result ≡ has_id id.now live }
    {
        self.ids.contains(id)
    }

    /// The record's last statement, as far as the rules ask, where there is one.
    pub(crate) fn last(&self, key: &RecordKey) -> Option<Last>
        ensures { (live : List Live) → AreFound live self.now →
            result ≡ last_of key.now.declaration key.now.rec live }
    {
        self.lasts.get(key).copied()
    }

    /// One settled statement more, of this record.
    pub(crate) fn add(
        &mut self,
        alloc: Global,
        key: RecordKey,
        statement: &Statement,
        due: Day,
    ) -> Result<(), AllocError>
        requires { key ≡ record_of statement.now }
        ensures { OnOk result ((live : List Live) → AreFound live self.old →
            AreFound (live ++ as_live due statement.now ∷ []) self.new) }
    {
        let id = statement.id.copy(alloc)?;
        self.ids.insert(id)?;
        self.lasts.insert(key, known(statement, due))?;
        Ok(())
    }
}
