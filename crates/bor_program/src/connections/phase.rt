//! How far a client has come.

use crate::connections::reading::Reading;
use crate::connections::writing::{Draining, Writing};

/// The phase of a client.
#[derive(Drop)]
pub(crate) enum Phase<S> {
    /// Its request is read.
    Reading(Reading<S>),
    /// Its reply is written.
    Writing(Writing<S>),
    /// The reply is written, and what it still sends is read and dropped.
    Draining(Draining<S>),
}

/// How a phase went on.
#[derive(Clone, Copy, PartialEq, Eq)]
pub(crate) enum Pace {
    /// Bytes were read or written.
    Moved,
    /// Nothing can be read or written at the moment.
    Blocked,
    /// The next phase began.
    Turned,
}

/// The state of a client after one step.
#[derive(Drop)]
pub(crate) enum Step<S> {
    /// It is in this phase.
    Goes(Phase<S>, Pace),
    /// Its connection ends in this phase.
    Ends(Phase<S>),
}
