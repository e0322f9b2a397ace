//! Filings and statements as callers see them, from their rows.

ghost use Rattle.std.specs.Prelude.{◌≡◌};
ghost use Rattle.bor_store_sql.specs.Rows.Seen.{is_line_published, is_line_visible, line_shown, row_placed};

use crate::rows::typed::{FilingRow, Placed};
use bods_read::Status;
use bor_records::Row;
use bor_register::{FilingLine, State};
use bor_terms::{AgentName, Day};

impl FilingRow {
    /// Whether the filing is published on a day.
    pub(crate) fn is_published(&self, day: Day) -> bool
        ensures { result ≡ is_line_published day self.now }
    {
        !self.withdrawn && self.due <= day
    }

    /// Whether the viewer sees the filing on a day: its own where it is live, another's where it is
    /// published.
    pub fn is_visible(&self, viewer: &AgentName, day: Day) -> bool
        ensures { result ≡ is_line_visible viewer.now day self.now }
    {
        if *viewer == self.agent {
            !self.withdrawn
        } else {
            self.is_published(day)
        }
    }

    /// Its line in its agent's list on a day. It takes no memory.
    pub fn into_line(self, day: Day) -> FilingLine
        ensures { result ≡ line_shown day self }
    {
        FilingLine {
            key: self.key,
            number: self.number,
            due: self.due,
            state: if self.withdrawn {
                State::Withdrawn
            } else {
                State::of_live(self.due, day)
            },
        }
    }
}

impl Placed {
    /// Its row, as a viewer reads it. It takes no memory.
    pub fn into_row(self) -> Row
        ensures { result ≡ row_placed self }
    {
        let Placed { at, statement } = self;
        let status = statement.status.unwrap_or(Status::New);
        Row {
            agent: at.agent,
            filing: at.filing,
            place: at.place as usize,
            status,
            statement,
        }
    }
}
