//! A kind of register that answers for itself.

ghost use Rattle.std.specs.Prelude.{◌≡◌, ⊤, ℕ, List, IfErr, IfOk, OnErr, length, map};
ghost use Rattle.bor_records.specs.Promises.{Kept, Meaning, Promised};
ghost use Rattle.bor_register.specs.Register.{Register};
ghost use Rattle.bor_register.specs.declared.fault.StoreFault.{StoreFault};
ghost use Rattle.bor_desk.specs.Operations.Legality.{IsLegal};
ghost use Rattle.bor_program.specs.Connections.Serving.{IsServed, IsServedOver};
ghost use Rattle.bor_program.specs.Connections.Streams.{EndedOn, wire_of};
ghost use Rattle.bor_program.specs.declared.connections.limits.Limits.{Limits};
ghost use Rattle.bor_wire.specs.Spelling.Spell.{Spelled};
ghost use Rattle.bor_wire.specs.Replays.{IsReplayed};
ghost use Rattle.bor_wire.specs.Turns.{InTurn};
ghost use Rattle.bor_wire.specs.Runs.{AreSpelled, served};
ghost use Rattle.bor_program.specs.Reporting.{IsReportOf};

use crate::connections::{Limits, Watch, serve_within};
use crate::report::report_in;
use bor_desk::Text;
use bor_desk::operations::{Keep, ListKeep, StoreFault};
use bor_wire::{Reply, replay};
use bor_words::Report;
use std::alloc::{AllocError, Global};
use std::io::{Read, Write};
use std::net::{OpenListener, OpenStream};
use std::time::Clock;

/// A kind of register that answers for itself. Whatever does so is an [`OpenRegister`], which
/// promises the same: a program that names its register meets the prover's limit where these are
/// one.
pub trait Answering {
    /// The states that a stop leaves for the next one to open.
    ghost Left: { Type 0 };

    /// What the states mean.
    ghost meaning: { Meaning Self Register Left StoreFault };

    /// A call led from one state to another, and may have returned this fault.
    ghost tells: { Self → StoreFault → Self → Type 0 };

    /// So many connections of this listener were served within these limits, which led from one
    /// state to another, with this status.
    ghost serves: { {L : Type 0} → Self → L → Limits → ℕ → Self → ℕ → Type 0 };

    /// The replies to inputs, each answered from the register that the one before it left. What
    /// each agent receives follows from its own exchanges alone, a report on chains with status 200
    /// names exactly the persons joined to the entity, and a reply with a status of 400 or more
    /// leaves the register as it was.
    ///
    /// # Errors
    ///
    /// There is no memory for the list of replies or for the paths; nothing was asked.
    fn answer_all(&mut self, alloc: Global, inputs: &[Vec<u8>]) -> Result<Vec<Reply>, AllocError>
        ensures began { meaning.is_clean self.new → meaning.is_clean self.old }
        ensures count { IfOk result (λ replies. length replies.items ≡ length inputs.now) }
        ensures spelled { IfOk result (λ replies. (spelled : List Spelled)
            × AreSpelled (served (map (λ v. v.items) inputs.now) replies.items) spelled) }
        ensures run { Promised meaning self.old self.new (λ r. IsLegal r → IfOk result (λ replies.
            IsReplayed (meaning.shows self.new) r (map (λ v. v.items) inputs.now) replies.items)) }
        ensures in_turn { IfOk result (λ replies.
            InTurn meaning self.old self.new (map (λ v. v.items) inputs.now) replies.items) }
        ensures err { OnErr result (self.new ≡ self.old) };

    /// The text that tells who stands behind an entity.
    ///
    /// # Errors
    ///
    /// The keep failed, or memory was wanting.
    fn tell(&mut self, alloc: Global, asked: &Report<'_>) -> Result<Text, StoreFault>
        ensures kept { Kept meaning self.old self.new }
        ensures text { Promised meaning self.old self.new (λ r.
            IfOk result (IsReportOf asked.now r)) }
        ensures err { IfErr result (λ fault. tells self.old fault self.new) };

    /// Serves so many connections of a listener, each client within these limits, and gives 0, or
    /// 3 where one of them failed, as [`serve_within`] does. A connection has no client only where
    /// one couldn't be let in, or where serving ended early: clients couldn't be watched for, or
    /// waiting failed for good.
    fn attend<R: Clock + AllocGlobal, L: OpenListener, W: Watch<L>>(
        &mut self,
        rt: &R,
        listener: &L,
        watch: &mut W,
        connections: u32,
        limits: Limits,
    ) -> u8
    where
        L::Stream: Read + Write + OpenStream,
        ensures within { serves self.old listener.now limits connections self.new result }
        ensures served { IsServed meaning self.old self.new connections result }
        ensures streams { IsServedOver meaning
            (EndedOn (wire_of L.Stream.remaining L.Stream.contents))
            (record { does = W.does; begun = watch.old; ended = watch.new })
            limits self.old self.new connections result };

    /// Answered changes last: the state that a stop of a clean one leaves shows each register that
    /// it showed.
    ghost lasting: { (k : Self) → meaning.is_clean k → (left : Left) → meaning.may_leave k left
        → (r : Register) → meaning.shows k r → meaning.left_shows left r };
}

impl Answering for ListKeep {
    ghost use Rattle.bor_program.specs.Failures.{MayTell};

    ghost Left = { ⟦<ListKeep as Keep>⟧.Left };

    ghost meaning = { ⟦<ListKeep as Keep>⟧.meaning };

    ghost tells = { MayTell ⟦<ListKeep as Keep>⟧.meaning };

    ghost serves = { λ _ _ _ _ _ _. ⊤ };

    fn answer_all(&mut self, alloc: Global, inputs: &[Vec<u8>]) -> Result<Vec<Reply>, AllocError> {
        replay(alloc, self, inputs)
    }

    fn tell(&mut self, alloc: Global, asked: &Report<'_>) -> Result<Text, StoreFault> {
        report_in(alloc, self, asked)
    }

    fn attend<R: Clock + AllocGlobal, L: OpenListener, W: Watch<L>>(
        &mut self,
        rt: &R,
        listener: &L,
        watch: &mut W,
        connections: u32,
        limits: Limits,
    ) -> u8
    where
        L::Stream: Read + Write + OpenStream,
    {
        serve_within(rt, self, listener, watch, connections, limits)
    }

    ghost lasting = { λ k clean left may. absurd may };
}
