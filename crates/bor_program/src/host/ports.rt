//! The system that listens on the ports of 127.0.0.1.

ghost use Rattle.std.specs.Prelude.{ℕ, Bool, IfErr, IfOk, IfSome};
ghost use Rattle.bor_program.specs.Deeds.{Fails, Opens};
ghost use Rattle.bor_program.specs.Failures.{IsOpeningOf};

use crate::connections::Watch;
use crate::failure::Failure;
use crate::host::Registers;
use std::net::OpenListener;

/// The system that listens on the ports of 127.0.0.1, and waits for clients there.
pub trait Ports: Registers {
    /// A port that is listened on. It doesn't block.
    type Listener: OpenListener + Drop;

    /// The watch for the clients of a listener.
    type Waiter: Watch<Self::Listener> + Drop;

    /// This port is listened on by this listener.
    ghost listens: { Self → ℕ → Self.Listener → Type 0 };

    /// This waits for clients, with a log of what they are answered or without.
    ghost waits: { Self → Bool → Self.Waiter → Type 0 };

    /// The register in the file of this name, made ready to be asked often: it may take so many
    /// megabytes of memory for that. Where there is none, none is made. How it is made ready is
    /// printed for whoever waits for the command, and in the log, where there is one.
    ///
    /// # Errors
    ///
    /// `NoRegister`, `OtherVersion` or `Taken` of this file; `Memory`; `Store`.
    fn open_to_serve<'a>(
        &mut self,
        path: &'a str,
        memory: u32,
        log: bool,
    ) -> Result<Self::Register, Failure<'a>>
        ensures ok { IfOk result (λ register.
            Self.does self.old (Opens path.entry register) self.new) }
        ensures err { IfErr result (λ failure.
            Self.does self.old (Fails path.entry failure) self.new) }
        ensures cause { IfErr result (IsOpeningOf path.entry) };

    /// Listens on this port, if that can be done.
    fn listen(&self, port: u16) -> Option<Self::Listener>
        ensures { IfSome result (λ listener. listens self.now port listener) };

    /// The watch for the clients of a listener. Where a log is asked for, each request that was
    /// answered has a line on standard error.
    fn waiter(&self, log: bool) -> Self::Waiter
        ensures { waits self.now log result };
}
