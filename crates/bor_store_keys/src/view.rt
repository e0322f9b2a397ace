//! Who sees what, and on which day.

ghost use Rattle.std.specs.Prelude.{◌≡◌, true, IfOk};

use bor_terms::{AgentName, Day};
use std::alloc::{AllocError, Global};

/// The part of the register that a viewer sees on the register's day, as it stands on a day.
#[derive(Drop)]
pub(crate) struct View {
    pub(crate) viewer: AgentName,
    /// The register's day: it says what is published.
    pub(crate) today: Day,
    /// The day of the answer: of the statements that are seen, those dated at or before it count.
    pub(crate) day: Day,
}

impl View {
    /// Whether it is this viewer's, on this day.
    pub(crate) fn is_of(&self, viewer: &AgentName, day: Day) -> bool
        ensures { result ≡ true → (self.now.viewer ≡ viewer.now) × (self.now.day ≡ day) }
    {
        self.day == day && self.viewer == *viewer
    }

    /// Whether it is this view.
    pub(crate) fn is(&self, view: &View) -> bool
        ensures { result ≡ true → self.now ≡ view.now }
    {
        self.today == view.today && self.day == view.day && self.viewer == view.viewer
    }

    /// Another copy of the view.
    pub(crate) fn copy(&self, alloc: Global) -> Result<View, AllocError>
        ensures { IfOk result (λ copied. copied ≡ self.now) }
    {
        Ok(View {
            viewer: self.viewer.copy(alloc)?,
            today: self.today,
            day: self.day,
        })
    }
}
