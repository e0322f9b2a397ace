//! Since when a client is in its phase, since when it is idle, and for how long it is waited for.

ghost use Rattle.std.specs.Prelude.{◌≡◌, ◌≢◌, ◌<◌, ◌≤◌, ◌||◌, None, Some, false, set, unwrap_or, MatchOption};
ghost use Rattle.std.specs.Duration.{as_nanos};
ghost use Rattle.bor_program.specs.declared.connections.phase.Pace.TheVariants.{Blocked, Turned};
ghost use Rattle.bor_program.specs.Connections.Places.{is_ready};
ghost use Rattle.bor_program.specs.Connections.Times.{IsTimeLeft, IsTimeUp, fresh, left_of};

use crate::connections::limits::Limits;
use crate::connections::phase::{Pace, Phase};
use crate::connections::watch::Places;
use std::time::Duration;

/// Since when a client's request is read, or what it sends behind its reply, once a clock was read
/// for that; since when it is idle; and whether something may be read or written.
#[derive(Clone, Copy, PartialEq, Eq)]
pub(crate) struct Timing {
    since: Option<Duration>,
    idle_since: Duration,
    is_ready: bool,
}

impl Timing {
    /// That of a client that comes now.
    pub(crate) fn new(now: Duration) -> Timing
        ensures { result ≡ fresh now }
    {
        Timing {
            since: None,
            idle_since: now,
            is_ready: true,
        }
    }

    /// Whether something may be read or written.
    pub(crate) fn is_ready(&self) -> bool
        ensures { result ≡ self.now.is_ready }
    {
        self.is_ready
    }

    /// Since when nothing was read or written.
    pub(crate) fn idle_since(&self) -> Duration
        ensures { result ≡ self.now.idle_since }
    {
        self.idle_since
    }

    /// The turn of a client at this place has come: something may be read or written where it
    /// might before, or its place was named since.
    pub(crate) fn rouse(&mut self, places: &mut Places, place: usize)
        ensures ready { self.new.is_ready ≡ (self.old.is_ready || is_ready places.old place) }
        ensures idle { self.new.idle_since ≡ self.old.idle_since }
        ensures begun { self.new.since ≡ self.old.since }
        ensures heeded { places.new.ready ≡ set places.old.ready place false }
        ensures called { places.new.is_called ≡ places.old.is_called }
    {
        if places.is_woken(place) {
            self.is_ready = true;
        }
    }

    /// A step was made at this time.
    pub(crate) fn pass(&mut self, pace: Pace, now: Duration)
        ensures idle { pace ≡ Blocked → self.new.idle_since ≡ self.old.idle_since }
        ensures busy { pace ≢ Blocked → self.new.idle_since ≡ now }
        ensures waits { pace ≡ Blocked → self.new.is_ready ≡ false }
        ensures ready { pace ≢ Blocked → self.new.is_ready ≡ self.old.is_ready }
        ensures begins { pace ≡ Turned → self.new.since ≡ None }
        ensures begun { pace ≢ Turned → self.new.since ≡ self.old.since }
    {
        match pace {
            Pace::Blocked => self.is_ready = false,
            Pace::Moved => self.idle_since = now,
            Pace::Turned => {
                self.since = None;
                self.idle_since = now;
            }
        }
    }

    /// For how long a client in this phase may be waited for at this time, unless its time is up.
    pub(crate) fn left<S>(
        &mut self,
        limits: Limits,
        phase: &Phase<S>,
        now: Duration,
    ) -> Option<Duration>
        ensures idle { self.new.idle_since ≡ self.old.idle_since }
        ensures ready { self.new.is_ready ≡ self.old.is_ready }
        ensures begun { self.new.since ≡ Some (unwrap_or self.old.since now) }
        ensures up { MatchOption result (IsTimeUp limits self.old phase.now now)
            (λ left. (IsTimeUp limits self.old phase.now now → ⊥)
            × IsTimeLeft limits self.old.since phase.now now left) }
    {
        let since = self.since.unwrap_or(now);
        self.since = Some(since);
        match phase {
            Phase::Reading(_) => some_left(limits.request, since, now),
            Phase::Writing(writing) => writing.left(limits, now),
            Phase::Draining(_) => some_left(limits.rest, since, now),
        }
    }
}

// How much of a limit is left at this time, where some is and its time began then.
fn some_left(limit: Duration, since: Duration, now: Duration) -> Option<Duration>
    ensures { MatchOption result (left_of limit (Some since) now ≡ 0)
        (λ left. (as_nanos left ≡ left_of limit (Some since) now) × (as_nanos left ≢ 0)) }
{
    let left = limit.saturating_sub(now.saturating_sub(since));
    if left.is_zero() { None } else { Some(left) }
}

/// The shorter of two times.
pub(crate) fn shorter(one: Duration, other: Duration) -> Duration
    ensures one { as_nanos one ≤ as_nanos other → result ≡ one }
    ensures other { as_nanos other < as_nanos one → result ≡ other }
{
    if other.as_nanos() < one.as_nanos() {
        other
    } else {
        one
    }
}
