//! The time that a client has for each phase.

ghost use Rattle.std.specs.Prelude.{◌≡◌};
ghost use Rattle.std.specs.Duration.{as_nanos};
ghost use Rattle.bor_program.specs.Connections.Limits.{reply_floor, reply_nanos, request_nanos, rest_nanos};

use std::time::Duration;

/// The time that a client has for each phase.
#[derive(Clone, Copy, PartialEq, Eq)]
pub struct Limits {
    /// Until its request is read, from the first read on.
    pub request: Duration,
    /// In which it takes nothing of its reply, once that is made.
    pub reply: Duration,
    /// How many bytes of the reply it takes a second at least: in all, since the reply was made,
    /// and behind the first `reply`.
    pub floor: u32,
    /// Until it ends what it is still sending, after the reply.
    pub rest: Duration,
}

impl Limits {
    /// The limits of a server: ten seconds for a request, ten in which nothing of its reply is
    /// taken, 16,384 bytes of that a second, and one second for the rest.
    pub fn of_a_server() -> Limits
        ensures request { as_nanos result.request ≡ request_nanos }
        ensures reply { as_nanos result.reply ≡ reply_nanos }
        ensures floor { result.floor ≡ reply_floor }
        ensures rest { as_nanos result.rest ≡ rest_nanos }
    {
        Limits {
            request: Duration::from_secs(10),
            reply: Duration::from_secs(10),
            floor: 16_384,
            rest: Duration::from_secs(1),
        }
    }
}
