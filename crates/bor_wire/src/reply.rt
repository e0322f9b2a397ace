//! A reply: its status and its bytes.

ghost use Rattle.std.specs.Prelude.{◌≡◌};
ghost use Rattle.bor_wire.specs.Refused.{IsFull};
ghost use Rattle.bor_wire.specs.Sent.{Full, TellsStatus, Unavailable, bytes_sent, status_sent};

use crate::rendering::UNAVAILABLE;
use std::marker::Model;

/// The reply to an input: a whole one, with the status that its bytes begin with; or, where memory
/// was wanting or the keep failed, [`UNAVAILABLE`] with 503, which takes no memory. Then nothing
/// changed, unless the store shut in its commit.
#[derive(Drop)]
pub struct Reply {
    whole: Option<(u16, Vec<u8>)>,
}

impl Model for Reply {
    ghost use Rattle.std.specs.Prelude.{IfSome};
    ghost use Rattle.std.specs.Option.{option_map_or};
    ghost use Rattle.bor_wire.specs.Refused.{IsFull};
    ghost use Rattle.bor_wire.specs.Sent.{Full, Sent, Unavailable};

    ghost Value = { Sent };

    ghost view = { λ a. option_map_or (λ w. Full w.0 w.1.items) a.whole Unavailable };

    ghost invariant = { λ a. IfSome a.whole (λ w. IsFull w.1.items w.0) };
}

impl Reply {
    /// The one where memory was wanting or the keep failed.
    pub fn unavailable() -> Reply
        ensures { result ≡ Unavailable }
    {
        Reply { whole: None }
    }

    /// A whole reply, with its status.
    pub(crate) fn full(status: u16, bytes: Vec<u8>) -> Reply
        requires { IsFull bytes.items status }
        ensures { result ≡ Full status bytes.items }
    {
        Reply {
            whole: Some((status, bytes)),
        }
    }

    /// The status.
    pub fn status(&self) -> u16
        ensures status { result ≡ status_sent self.now }
        ensures told { TellsStatus self.now }
    {
        match &self.whole {
            Some((status, _)) => *status,
            None => 503,
        }
    }

    /// The bytes, as they are sent.
    pub fn bytes(&self) -> &[u8]
        ensures { result.now ≡ bytes_sent self.now }
    {
        match &self.whole {
            Some((_, bytes)) => bytes,
            None => UNAVAILABLE,
        }
    }
}
