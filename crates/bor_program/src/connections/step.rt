//! One step of a client.

ghost use Rattle.std.specs.Prelude.{◌≡◌, false, ◌∷◌, [], None, Option};
ghost use Rattle.bor_program.specs.Connections.Serving.{given_reply};
ghost use Rattle.bor_program.specs.declared.connections.phase.Phase.TheVariants as Phase;
ghost use Rattle.bor_program.specs.declared.connections.taking.Taking.{Taking};
ghost use Rattle.bor_program.specs.Connections.Phases.{EndsAs, IsHeld, IsStep, ReadsOn, phase_of, stand_at, telling};
ghost use Rattle.bor_program.specs.Connections.Streams.{wire_of};
ghost use Rattle.bor_program.specs.Connections.Times.{IfGoes, IsBegun, IsIdleSince, IsOverdue, IsPaced, IsTaking, IsTimeUp, IsTurned, moves_of, taking_once_read, turns_of};
ghost use Rattle.bor_program.specs.declared.connections.limits.Limits.{Limits};
ghost use Rattle.bor_program.specs.declared.connections.phase.Pace.TheVariants as Pace;
ghost use Rattle.bor_program.specs.declared.connections.phase.Step.TheVariants as Step;

use crate::connections::phase::{Pace, Phase, Step};
use crate::connections::reading::{Reading, Taken};
use crate::connections::service::Service;
use crate::connections::timing::Timing;
use crate::connections::writing::{Drained, Draining, Writing, Written};
use bor_desk::operations::Keep;
use bor_wire::Reply;
use std::io::{Read, Write};
use std::net::OpenStream;
use std::snapshot::Snapshot;
use std::time::Duration;

// How many steps a client may have in one turn.
const STEPS: usize = 32;

/// Reads, answers or writes once, as the client's phase is. A request is answered as soon as it is
/// whole.
#[tactic(auto, using(crate::proofs::OnConnections::Phases::same_step))]
pub(crate) fn step<K: Keep, S: Read + Write + OpenStream + Drop>(
    service: &mut Service,
    keep: &mut K,
    phase: Phase<S>,
) -> Step<S>
    requires { IsHeld (wire_of S.remaining S.contents) phase }
    ensures held { IsHeld (wire_of S.remaining S.contents) (phase_of result) }
    ensures step { IsStep K.meaning (wire_of S.remaining S.contents)
        (stand_at keep.old (telling phase) service.old.notes.items)
        (stand_at keep.new (telling (phase_of result)) service.new.notes.items) }
    ensures all { ReadsOn S.remaining phase (phase_of result) }
    ensures time { (taking : Option Taking) → IsTaking taking phase
        → IsTaking taking (phase_of result) }
    ensures pace { IsPaced phase result }
    ensures turn { IsTurned phase result }
{
    match phase {
        Phase::Reading(reading) => read_on(service, keep, reading),
        Phase::Writing(writing) => write_on(writing),
        Phase::Draining(draining) => drain_on(draining),
    }
}

// Reads once of a request, and answers it where it is whole.
fn read_on<K: Keep, S: Read + Write + OpenStream + Drop>(
    service: &mut Service,
    keep: &mut K,
    mut reading: Reading<S>,
) -> Step<S>
    requires { IsHeld (wire_of S.remaining S.contents) (Phase.Reading reading) }
    ensures held { IsHeld (wire_of S.remaining S.contents) (phase_of result) }
    ensures step { IsStep K.meaning (wire_of S.remaining S.contents)
        (stand_at keep.old [] service.old.notes.items)
        (stand_at keep.new (telling (phase_of result)) service.new.notes.items) }
    ensures all { ReadsOn S.remaining (Phase.Reading reading) (phase_of result) }
    ensures time { IsTaking None (phase_of result) }
    ensures pace { IsPaced (Phase.Reading reading) result }
    ensures turn { IsTurned (Phase.Reading reading) result }
{
    match reading.read(service.alloc()) {
        Taken::More => Step::Goes(Phase::Reading(reading), Pace::Moved),
        Taken::Blocked => Step::Goes(Phase::Reading(reading), Pace::Blocked),
        Taken::Whole => {
            let Reading {
                stream,
                received,
                progress,
            } = reading;
            let request = Snapshot::of(&received);
            let reply = service.respond(keep, received, progress);
            let writing = Writing::new(stream, request, reply);
            Step::Goes(Phase::Writing(writing), Pace::Turned)
        }
        Taken::Unfit => {
            let request = Snapshot::of(&reading.received);
            let writing = Writing::new(reading.stream, request, Reply::unavailable());
            Step::Goes(Phase::Writing(writing), Pace::Turned)
        }
        Taken::Failed => Step::Ends(Phase::Reading(reading)),
    }
}

// Writes once of a reply.
fn write_on<S: Read + Write + OpenStream + Drop>(mut writing: Writing<S>) -> Step<S>
    requires { IsHeld (wire_of S.remaining S.contents) (Phase.Writing writing) }
    ensures held { IsHeld (wire_of S.remaining S.contents) (phase_of result) }
    ensures tells { telling (phase_of result)
        ≡ given_reply writing.request.value.items writing.reply ∷ [] }
    ensures all { ReadsOn S.remaining (Phase.Writing writing) (phase_of result) }
    ensures time { IsTaking writing.taking (phase_of result) }
    ensures pace { IsPaced (Phase.Writing writing) result }
    ensures turn { IsTurned (Phase.Writing writing) result }
{
    match writing.write() {
        Written::More => Step::Goes(Phase::Writing(writing), Pace::Moved),
        Written::Blocked => Step::Goes(Phase::Writing(writing), Pace::Blocked),
        Written::Whole => Step::Goes(Phase::Draining(writing.end()), Pace::Turned),
        Written::Failed => Step::Ends(Phase::Writing(writing)),
    }
}

// Reads once behind a reply.
#[tactic(auto, using(crate::proofs::OnConnections::Streams::drains_on))]
fn drain_on<S: Read + Write + Drop>(mut draining: Draining<S>) -> Step<S>
    requires { IsHeld (wire_of S.remaining S.contents) (Phase.Draining draining) }
    ensures held { IsHeld (wire_of S.remaining S.contents) (phase_of result) }
    ensures tells { telling (phase_of result)
        ≡ given_reply draining.request.value.items draining.reply ∷ [] }
    ensures all { ReadsOn S.remaining (Phase.Draining draining) (phase_of result) }
    ensures time { (taking : Option Taking) → IsTaking taking (phase_of result) }
    ensures pace { IsPaced (Phase.Draining draining) result }
    ensures turn { IsTurned (Phase.Draining draining) result }
{
    match draining.drain() {
        Drained::More => Step::Goes(Phase::Draining(draining), Pace::Moved),
        Drained::Blocked => Step::Goes(Phase::Draining(draining), Pace::Blocked),
        Drained::Over => Step::Ends(Phase::Draining(draining)),
    }
}

/// The clock is read, before the client has its turn.
pub(crate) fn look<S: Read + Write + OpenStream + Drop>(phase: Phase<S>, now: Duration) -> Phase<S>
    requires { IsHeld (wire_of S.remaining S.contents) phase }
    ensures held { IsHeld (wire_of S.remaining S.contents) result }
    ensures tells { telling result ≡ telling phase }
    ensures all { ReadsOn S.remaining phase result }
    ensures time { IsTaking (taking_once_read phase now) result }
    ensures same { moves_of result ≡ moves_of phase }
    ensures on { turns_of result ≡ turns_of phase }
    ensures due { (limits : Limits) (timing : Timing) → IsTimeUp limits timing result now
        → IsOverdue limits timing.since phase now }
{
    match phase {
        Phase::Writing(mut writing) => {
            writing.look(now);
            Phase::Writing(writing)
        }
        Phase::Reading(reading) => Phase::Reading(reading),
        Phase::Draining(draining) => Phase::Draining(draining),
    }
}

/// Steps for as long as the client is ready, and not too often, so that others have their turn.
pub(crate) fn steps<K: Keep, S: Read + Write + OpenStream + Drop>(
    service: &mut Service,
    keep: &mut K,
    mut phase: Phase<S>,
    timing: &mut Timing,
    now: Duration,
) -> Step<S>
    requires { IsHeld (wire_of S.remaining S.contents) phase }
    ensures held { IsHeld (wire_of S.remaining S.contents) (phase_of result) }
    ensures step { IsStep K.meaning (wire_of S.remaining S.contents)
        (stand_at keep.old (telling phase) service.old.notes.items)
        (stand_at keep.new (telling (phase_of result)) service.new.notes.items) }
    ensures all { ReadsOn S.remaining phase (phase_of result) }
    ensures time { (taking : Option Taking) → IsTaking taking phase
        → IsTaking taking (phase_of result) }
    ensures idle { IfGoes result (λ next. IsIdleSince (moves_of phase) (moves_of next)
        timing.old.idle_since now timing.new.idle_since) }
    ensures begun { IfGoes result (λ next.
        IsBegun (turns_of phase) (turns_of next) timing.old.since timing.new.since) }
    ensures still { timing.old.is_ready ≡ false
        → (result ≡ Step.Goes phase Pace.Blocked) × (timing.new ≡ timing.old) }
{
    for _ in 0..STEPS {
        if !timing.is_ready() {
            return Step::Goes(phase, Pace::Blocked);
        }
        match step(service, keep, phase) {
            Step::Goes(next, pace) => {
                timing.pass(pace, now);
                phase = next;
            }
            Step::Ends(last) => return Step::Ends(last),
        }
    }
    Step::Goes(phase, Pace::Moved)
}

/// Whether the connection of a client has failed that is waited for no longer.
pub(crate) fn gives_up<S: Read + Write + OpenStream + Drop>(phase: Phase<S>) -> bool
    requires { IsHeld (wire_of S.remaining S.contents) phase }
    ensures { EndsAs (wire_of S.remaining S.contents) (telling phase) result }
{
    match phase {
        Phase::Reading(_) => true,
        Phase::Writing(writing) => writing.has_failed(),
        Phase::Draining(draining) => draining.has_failed(),
    }
}
