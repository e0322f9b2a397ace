//! How a client takes its reply, as a clock tells that is read now and then.

ghost use Rattle.std.specs.Prelude.{◌≡◌, ◌↔◌, ◌<◌, ◌≤◌, ◌+◌, ℕ, IsTrue};
ghost use Rattle.std.specs.Duration.{as_nanos, max_nanos};
ghost use Rattle.bor_program.specs.Connections.Limits.{IsBelowFloor};
ghost use Rattle.bor_program.specs.Connections.Times.{IsSlow, IsSlowBehind, begun, taking_after};

use crate::connections::limits::Limits;
use crate::connections::timing::shorter;
use std::time::Duration;

/// The times of the clock, each time that it was read since the reply was made.
#[derive(Clone, Copy, PartialEq, Eq)]
pub(crate) struct Taking {
    // When it was first read.
    since: Duration,
    // How much had been taken before it was last read.
    taken: usize,
    // When it was first read with so much taken.
    idle_since: Duration,
}

impl Taking {
    /// The clock is read for the first time, and so many bytes have been taken before.
    pub(crate) fn begun(sent: usize, now: Duration) -> Taking
        ensures { result ≡ begun sent now }
    {
        Taking {
            since: now,
            taken: sent,
            idle_since: now,
        }
    }

    /// The clock is read, and so many bytes have been taken before.
    pub(crate) fn seen(taking: Option<Taking>, sent: usize, now: Duration) -> Taking
        ensures { result ≡ taking_after taking sent now }
    {
        match taking {
            None => Taking::begun(sent, now),
            Some(before) => before.seen_again(sent, now),
        }
    }

    // The clock is read again, and so many bytes have been taken before.
    fn seen_again(self, sent: usize, now: Duration) -> Taking
        ensures { result ≡ taking_after (Some self) sent now }
    {
        if sent == self.taken {
            return self;
        }
        Taking {
            since: self.since,
            taken: sent,
            idle_since: now,
        }
    }

    /// How much had been taken before the clock was last read.
    pub(crate) fn taken(&self) -> usize
        ensures { result ≡ self.now.taken }
    {
        self.taken
    }

    /// Whether a client that has taken so many bytes now takes nothing for too long, or in all less
    /// than the floor.
    pub(crate) fn is_slow(&self, limits: Limits, sent: usize, now: Duration) -> bool
        ensures { IsTrue result ↔ IsSlow limits self.now sent now }
    {
        if is_below(limits, sent, now.saturating_sub(self.since)) {
            return true;
        }
        let idle = now.saturating_sub(self.idle_since);
        sent == self.taken && limits.reply.saturating_sub(idle).is_zero()
    }

    /// How long it may be waited for at this time, where it takes nothing more.
    pub(crate) fn left(&self, limits: Limits, now: Duration) -> Duration
        ensures { IsSlowBehind limits self.now now result }
    {
        let idle = now.saturating_sub(self.idle_since);
        let in_all = now.saturating_sub(self.since);
        shorter(
            limits.reply.saturating_sub(idle),
            above_floor(limits, self.taken, in_all),
        )
    }
}

// For how long a client that took so many bytes in all this time may take nothing more, before that
// is below the floor.
fn above_floor(limits: Limits, taken: usize, in_all: Duration) -> Duration
    ensures before { (more : ℕ) → more < as_nanos result
        → IsBelowFloor limits.floor (as_nanos limits.reply) taken (as_nanos in_all + more) → ⊥ }
    ensures behind { (more : ℕ) → as_nanos result < more → more ≤ max_nanos
        → IsBelowFloor limits.floor (as_nanos limits.reply) taken (as_nanos in_all + more) }
{
    let behind = in_all.saturating_sub(limits.reply);
    let spare = Duration::from_secs(taken as u64)
        .saturating_sub(behind.saturating_mul(limits.floor))
        .checked_div(limits.floor)
        .unwrap_or(Duration::MAX);
    limits.reply.saturating_sub(in_all).saturating_add(spare)
}

// Whether so many bytes are less than the floor of all this time. (A byte is counted as a second,
// and a time as often as the floor has bytes.)
fn is_below(limits: Limits, taken: usize, in_all: Duration) -> bool
    ensures { IsTrue result
        ↔ IsBelowFloor limits.floor (as_nanos limits.reply) taken (as_nanos in_all) }
{
    let behind = in_all.saturating_sub(limits.reply);
    let least = behind.saturating_mul(limits.floor);
    Duration::from_secs(taken as u64).as_nanos() < least.as_nanos()
}
