//! What a viewer sees over a connection, as records that are read by key.

ghost use Rattle.bor_store_keys.specs.Viewed.{Viewing, rows_on, shown_in};

use crate::links::stated_link;
use crate::lookup::Lookup;
use crate::nodes::{identifiers_in, is_node};
use crate::records::{records_into, records_with};
use crate::view::View;
use bods_read::Identifier;
use bor_records::links::{Link, Node, Records, Relationships, Sign};
use bor_store_reads::ReadError;
use sqlite::Alter;
use std::alloc::Global;

/// A connection to a register's tables, as a viewer sees it on a day.
#[derive(Drop)]
pub(crate) struct Seen<'a, S: Alter + Drop> {
    pub(crate) lookup: &'a mut Lookup<S>,
    pub(crate) alloc: Global,
    pub(crate) view: &'a View,
}

// A read changes no table. It reads over the same connection, for the same viewer and day.
impl<'a, S: Alter + Drop> Records for Seen<'a, S> {
    ghost use Rattle.std.specs.Prelude.{◌≡◌, refl};
    ghost use Rattle.std.proofs.Common.{◌∙◌, subst, sym};
    ghost use Rattle.sqlite.specs.Held.{state};
    ghost use Rattle.bor_store_sql.specs.Found.{ReadsOnly};
    ghost use Rattle.bor_store_sql.specs.Shown.{IsClean, ShowsIn, StaysUp};
    ghost use Rattle.bor_store_sql.proofs.Finding.{nothing_read, read_on};
    ghost use Rattle.bor_store_reads.specs.Answering.{IsNoDamage};
    ghost use Rattle.bor_store_reads.proofs.Found.{still_shows};

    type Fault = ReadError;

    type Nodes = Vec<Node>;

    type Identifiers = Vec<Identifier>;

    ghost Content = { Viewing };

    ghost shown = { shown_in };

    ghost reading = { record {
      shows = λ x m. (x.view.now ≡ m.view) × ShowsIn m.register (state S.Store x.lookup.now);
      is_clean = λ x. IsClean (state S.Store x.lookup.now);
      leads = λ a b. (a.lookup.ghost_name ≡ b.lookup.ghost_name) × (a.view.now ≡ b.view.now)
          × ReadsOnly (state S.Store a.lookup.now) (state S.Store b.lookup.now);
      lasts = λ a b. StaysUp (state S.Store a.lookup.now) (state S.Store b.lookup.now);
      may_tell = IsNoDamage;
    } };

    fn identifiers(&mut self, node: &Node) -> Result<Option<Vec<Identifier>>, ReadError> {
        identifiers_in(self.lookup, self.alloc, self.view, node)
    }

    fn signed(&mut self, sign: &Sign) -> Result<Vec<Node>, ReadError> {
        records_with(self.lookup, self.alloc, sign)
    }

    ghost goes_on = { record {
      none = λ a. (refl, refl, nothing_read);
      more = λ a b c first second.
          (first.0 ∙ second.0, first.1 ∙ second.1, read_on first.2 second.2);
      lasts_none = λ a clean was. was;
      lasts_more = λ a b c leads first second clean was.
          second clean (first (leads.2.clean clean) was);
      began = λ a b leads clean. leads.2.began clean;
      kept = λ a b m leads clean shown.
          (sym leads.1 ∙ shown.0, still_shows m.register _ _ (leads.2.kept clean) shown.1);
    } };

    ghost tells_memory = { λ error fault gives.
        subst IsNoDamage (sym gives) (λ same. let no = same in Prim.cc) };
}

impl<'a, S: Alter + Drop> Relationships for Seen<'a, S> {
    ghost use Rattle.std.specs.Prelude.{refl};

    fn naming(&mut self, subject: &Node) -> Result<Vec<Node>, ReadError> {
        records_into(self.lookup, self.alloc, subject)
    }

    fn stated(&mut self, subject: &Node, rec: &Node) -> Result<Option<Link>, ReadError> {
        stated_link(self.lookup, self.alloc, self.view, subject, rec)
    }

    fn is_open(&mut self, node: &Node) -> Result<bool, ReadError> {
        is_node(self.lookup, self.alloc, self.view, node)
    }

    ghost of_rows = { λ m. (rows_on m.view m.register, refl) };
}
