//! The words of `bor report`.

ghost use Rattle.std.specs.Prelude.{◌≡◌, None, IfErr, IfOk, OnOk};
ghost use Rattle.clap.specs.Words.{found_of, rows_of};
ghost use Rattle.bor_words.specs.Asked.{AsksReport};
ghost use Rattle.bor_words.specs.Unread.{IsUnfitAmong};
ghost use Rattle.bor_words.specs.Values.{first_unfit, report_values};

use crate::matches::{given, is_set};
use crate::unread::Unread;
use crate::values::{agent_name, date, ident};
use bor_terms::{AgentName, Day, Ident};
use clap::ArgMatches;
use std::alloc::Global;

/// The request of `bor report`: to print who stands behind an entity, as an agent sees it.
#[derive(Drop, PartialEq, Eq)]
pub struct Report<'a> {
    /// The register's file.
    pub db: &'a str,
    /// Who asks: its own filings and the published ones are seen.
    pub viewer: AgentName,
    /// The agent that lodged the entity.
    pub agent: AgentName,
    /// The declaration that the entity stands in.
    pub declaration: Ident,
    /// The entity's record.
    pub rec: Ident,
    /// The day; the register's where it is left out.
    pub date: Option<Day>,
    /// Whether the links of the chains are printed too.
    pub evidence: bool,
}

impl<'a> Report<'a> {
    /// Reads the words that were found behind the command's name.
    pub(crate) fn read(alloc: Global, found: &ArgMatches<'a>) -> Result<Self, Unread<'a>>
        ensures ok { IfOk result (AsksReport (rows_of (found_of found.now))) }
        ensures fits { OnOk result
            (first_unfit (report_values (rows_of (found_of found.now))) ≡ None) }
        ensures err { IfErr result
            (IsUnfitAmong (rows_of (found_of found.now))
            (report_values (rows_of (found_of found.now)))) }
    {
        let viewer = agent_name(alloc, found, "viewer")?;
        let agent = agent_name(alloc, found, "agent")?;
        let declaration = ident(alloc, found, "declaration")?;
        let rec = ident(alloc, found, "record")?;
        let date = date(found, "date")?;
        Ok(Report {
            db: given(found, "db"),
            viewer,
            agent,
            declaration,
            rec,
            date,
            evidence: is_set(found, "evidence"),
        })
    }
}
