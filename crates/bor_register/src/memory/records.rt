//! What a viewer sees of a register in memory, as records that are read by key.

use crate::memory::index::Index;
use crate::memory::sight::{Sight, identifiers_told, is_node, stated_link};
use bods_read::Identifier;
use bor_records::links::{Link, Node, Records, Relationships, Sign};
use std::alloc::AllocError;
use std::marker::Model;

/// The part of a register in memory that a viewer sees on a day.
#[derive(Drop)]
pub(crate) struct Sighted<'a> {
    pub(crate) sight: Sight<'a>,
}

impl<'a> Model for Sighted<'a> {
    ghost use Rattle.bor_records.specs.Links.Relationships.{RowsOn};
    ghost use Rattle.bor_register.specs.Memory.Sighted.{IsIndexed, rows_told};

    ghost Value = { RowsOn };

    ghost view = { λ x. rows_told x.sight };

    ghost invariant = { λ x. IsIndexed x.sight };
}

// A read leaves all as it is, and fails for want of memory alone.
impl<'a> Records for Sighted<'a> {
    ghost use Rattle.std.specs.Prelude.{◌≡◌, refl};
    ghost use Rattle.std.proofs.Common.{◌∙◌, sym};
    ghost use Rattle.bor_records.specs.Links.Relationships.{RowsOn, shown_on};

    type Fault = AllocError;

    type Nodes = &'a [Node];

    type Identifiers = &'a [Identifier];

    ghost Content = { RowsOn };

    ghost shown = { shown_on };

    ghost reading = { record {
      shows = λ x m. x ≡ m;
      is_clean = λ x. Unit {0};
      leads = λ a b. a ≡ b;
      lasts = λ a b. Unit {0};
      may_tell = λ fault. Unit {0};
    } };

    fn identifiers(&mut self, node: &Node) -> Result<Option<&'a [Identifier]>, AllocError> {
        Ok(identifiers_told(&self.sight, node))
    }

    fn signed(&mut self, sign: &Sign) -> Result<&'a [Node], AllocError> {
        let index: &'a Index = self.sight.index;
        Ok(index.signed(sign))
    }

    ghost goes_on = { record {
      none = λ a. refl;
      more = λ a b c first second. first ∙ second;
      lasts_none = λ a. tt;
      lasts_more = λ a b c leads first second. tt;
      began = λ a b leads clean. tt;
      kept = λ a b m leads clean shown. sym leads ∙ shown;
    } };

    ghost tells_memory = { λ error fault gives. tt };
}

impl<'a> Relationships for Sighted<'a> {
    ghost use Rattle.std.specs.Prelude.{refl};

    fn naming(&mut self, subject: &Node) -> Result<&'a [Node], AllocError> {
        let index: &'a Index = self.sight.index;
        Ok(index.naming(subject))
    }

    fn stated(&mut self, subject: &Node, rec: &Node) -> Result<Option<Link>, AllocError> {
        stated_link(&self.sight, subject, rec)
    }

    fn is_open(&mut self, node: &Node) -> Result<bool, AllocError> {
        Ok(is_node(&self.sight, node))
    }

    ghost of_rows = { λ m. (m, refl) };
}
