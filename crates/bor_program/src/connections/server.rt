//! A server: its clients, and how many are still to come.

ghost use Rattle.std.specs.Prelude.{◌≡◌, ◌⊎◌, ◌+◌, ◌-◌, ◌<◌, ◌≤◌, ◌++◌, ◌∷◌, ℕ, [], Some, false, true, drop, length, set, if◌then◌else◌, is_err, IsTrue, MatchOption};
ghost use Rattle.std.specs.VecDeque.{deque_capacity, deque_len};
ghost use Rattle.std.specs.Duration.{as_nanos};
ghost use Rattle.bor_program.specs.Connections.Phases.{IsHeld, telling};
ghost use Rattle.bor_program.specs.Connections.Servers.{Advances, AllRemain, AreHeld, AreSeated, AreWaitedFor, AsksWhoComes, Becomes, EndsWithNew, FirstRemains, GivesWay, HasRoom, IsAtOnce, IsBegunOn, IsIdleOn, IsLongestIdle, IsNobodyToCome, IsReadOn, IsSameElse, IsTimed, IsTimely, Lets, LetsIn, NamesNone, Remains, Serves, StaysInQueue, Waiting, Welcomes, pending_in, telling_in};
ghost use Rattle.bor_program.specs.Connections.Streams.{wire_of};
ghost use Rattle.bor_program.specs.Connections.Times.{IsPatient};
ghost use Rattle.bor_program.specs.Connections.Places.{Takes, is_ready, place_count, taken_in};
ghost use Rattle.bor_program.specs.Connections.Watching.{AreTold, DoesUnwaiting, Waits, Watches};

use crate::connections::limits::Limits;
use crate::connections::phase::{Phase, Step};
use crate::connections::reading::Reading;
use crate::connections::seats::Seats;
use crate::connections::service::Service;
use crate::connections::step::{gives_up, look, steps};
use crate::connections::timing::{Timing, shorter};
use crate::connections::watch::{PLACES, Places, Watch};
use bor_desk::operations::Keep;
use std::alloc::Global;
use std::collections::VecDeque;
use std::io::{Read, Write};
use std::net::{OpenListener, OpenStream};
use std::time::Duration;

// How many clients are let in before those who are there have their turn.
const LET_IN: usize = 16;

/// A client in its place.
#[derive(Drop)]
pub(crate) struct Client<S> {
    place: usize,
    timing: Timing,
    pub(crate) phase: Phase<S>,
}

impl<S> Client<S> {
    // Since when nothing was read of it or written to it, in nanoseconds.
    fn idle_nanos(&self) -> u128
        ensures { result ≡ as_nanos self.now.timing.idle_since }
    {
        self.timing.idle_since().as_nanos()
    }
}

/// A server: the clients that are there, and how many connections are still to come.
#[derive(Drop)]
pub(crate) struct Server<S> {
    service: Service,
    limits: Limits,
    pub(crate) seats: Seats,
    places: Places,
    pub(crate) queue: VecDeque<Client<S>>,
    pub(crate) left: u32,
    pub(crate) status: u8,
    wait: Option<Duration>,
}

impl<S: Read + Write + OpenStream + Drop> Server<S> {
    /// A server of so many connections, of which none has come. Where `is_noting` is set, it notes
    /// each request that it answers, as far as there is memory.
    pub(crate) fn new(alloc: Global, limits: Limits, connections: u32, is_noting: bool) -> Server<S>
        ensures queue { result.queue.items ≡ [] }
        ensures left { result.left ≡ connections }
        ensures status { result.status ≡ 0 }
        ensures none { result.service.notes.items ≡ [] }
        ensures limits { result.limits ≡ limits }
        ensures wait { IsPatient limits result.wait }
        ensures seated { AreSeated result.seats.taken result.queue.items }
    {
        Server {
            service: Service::new(alloc, is_noting),
            limits,
            seats: Seats::new(),
            places: Places::new(),
            queue: VecDeque::new(alloc),
            left: connections,
            status: 0,
            wait: Some(Duration::ZERO),
        }
    }

    /// Whether all connections have come and ended.
    pub(crate) fn is_done(&self) -> bool
        ensures { IsTrue result → pending_in self.now ≡ 0 }
    {
        self.left == 0 && self.queue.is_empty()
    }

    /// Tells of the requests that were answered since this was last done.
    pub(crate) fn tell<L: OpenListener<Stream = S>, W: Watch<L>>(&mut self, watch: &mut W)
        ensures becomes { Becomes self.old self.new }
        ensures seats { self.new.seats ≡ self.old.seats }
        ensures told { AreTold W.does watch.old self.old.service.notes.items watch.new }
        ensures none { self.new.service.notes.items ≡ [] }
    {
        for note in self.service.take_notes() {
            watch.note(note);
        }
    }

    /// Waits until something may be read or written, or a client's time is up.
    pub(crate) fn wait<L: OpenListener<Stream = S>, W: Watch<L>>(
        &mut self,
        watch: &mut W,
    ) -> std::io::Result<()>
        ensures becomes { Becomes self.old self.new }
        ensures seats { self.new.seats ≡ self.old.seats }
        ensures does { (told : W) × AreTold W.does watch.old self.old.service.notes.items told
            × W.does told (Waits self.old.wait (is_err result)) watch.new }
        ensures none { self.new.service.notes.items ≡ [] }
        ensures lost { is_err result ≡ true → (place : ℕ) → place < place_count
            → is_ready self.new.places place ≡ true }
    {
        self.tell(watch);
        let waited = watch.wait(self.wait, &mut self.places);
        if waited.is_err() {
            self.places.wake_all();
        }
        waited
    }

    /// Lets clients in that wait for it, some at a time.
    pub(crate) fn let_in<L: OpenListener<Stream = S>, W: Watch<L>>(
        &mut self,
        listener: &L,
        watch: &mut W,
        now: Duration,
    )
        requires held { AreHeld (wire_of S.remaining S.contents) self.old.queue.items }
        requires seated { AreSeated self.old.seats.taken self.old.queue.items }
        ensures lets { LetsIn (wire_of S.remaining S.contents)
            (record { does = W.does; begun = watch.old; ended = watch.new }) self.old self.new }
        ensures rest { IsSameElse self.old self.new }
        ensures seated { AreSeated self.new.seats.taken self.new.queue.items }
        ensures asks { (IsNobodyToCome self.old → ⊥) → HasRoom self.old
            → AsksWhoComes (record { does = W.does; begun = watch.old; ended = watch.new }) }
    {
        for _ in 0..LET_IN {
            if self.left == 0 || !self.places.is_called() {
                return;
            }
            self.let_one_in(listener, watch, now);
        }
    }

    // Lets a client in, if one waits and there is memory for it.
    fn let_one_in<L: OpenListener<Stream = S>, W: Watch<L>>(
        &mut self,
        listener: &L,
        watch: &mut W,
        now: Duration,
    )
        requires some { 0 < self.old.left }
        requires held { AreHeld (wire_of S.remaining S.contents) self.old.queue.items }
        requires seated { AreSeated self.old.seats.taken self.old.queue.items }
        ensures lets { LetsIn (wire_of S.remaining S.contents)
            (record { does = W.does; begun = watch.old; ended = watch.new }) self.old self.new }
        ensures rest { IsSameElse self.old self.new }
        ensures seated { AreSeated self.new.seats.taken self.new.queue.items }
        ensures comes { Welcomes (record { does = W.does; begun = watch.old; ended = watch.new })
            now self.new.queue.items }
        ensures asks { HasRoom self.old
            → AsksWhoComes (record { does = W.does; begun = watch.old; ended = watch.new }) }
    {
        if self.queue.reserve(1).is_err() {
            return;
        }
        match watch.accept(listener) {
            Ok(Some(stream)) => {
                self.left -= 1;
                self.admit(stream, watch, now);
            }
            Ok(None) => self.places.answer_call(),
            Err(_) => {
                self.left -= 1;
                self.status = 3;
            }
        }
    }

    // Gives a client a place that came in. One that can't have one is given up before anything was
    // read of it.
    fn admit<L: OpenListener<Stream = S>, W: Watch<L>>(
        &mut self,
        stream: S,
        watch: &mut W,
        now: Duration,
    )
        requires held { AreHeld (wire_of S.remaining S.contents) self.old.queue.items }
        requires seated { AreSeated self.old.seats.taken self.old.queue.items }
        ensures lets { Lets (wire_of S.remaining S.contents) (telling_in self.old)
            (pending_in self.old + 1) 0 self.old.status self.new }
        ensures does { DoesUnwaiting W.does watch.old watch.new 0 [] }
        ensures rest { IsSameElse self.old self.new }
        ensures seated { AreSeated self.new.seats.taken self.new.queue.items }
        ensures comes { HasRoom self.old
            → (EndsWithNew now self.new.queue.items × W.does watch.old (Watches false) watch.new)
            ⊎ W.does watch.old (Watches true) watch.new }
    {
        self.make_way();
        match self.seat(&stream, watch) {
            Some(place) => {
                let reading = Reading::new(self.service.alloc(), stream);
                self.stay(Client {
                    place,
                    timing: Timing::new(now),
                    phase: Phase::Reading(reading),
                });
            }
            None => self.status = 3,
        }
    }

    // Where all places are taken, the client that was idle for the longest gives way.
    #[tactic(auto, using(crate::proofs::OnConnections::Servers::lets_same))]
    fn make_way(&mut self)
        requires held { AreHeld (wire_of S.remaining S.contents) self.old.queue.items }
        requires seated { AreSeated self.old.seats.taken self.old.queue.items }
        ensures lets { Lets (wire_of S.remaining S.contents) (telling_in self.old)
            (pending_in self.old) 0 self.old.status self.new }
        ensures seated { AreSeated self.new.seats.taken self.new.queue.items }
        ensures rest { IsSameElse self.old self.new }
        ensures free { taken_in self.new.seats.taken < place_count }
        ensures room { HasRoom self.old → HasRoom self.new }
        ensures full { 256 ≤ length self.old.queue.items
            → GivesWay self.old.queue.items self.new.queue.items }
        ensures other { length self.old.queue.items < 256 → self.new.queue ≡ self.old.queue }
    {
        if self.queue.len() >= PLACES {
            self.turn_out();
        }
    }

    // The place of a client that is watched from now on, if it can be.
    fn seat<L: OpenListener<Stream = S>, W: Watch<L>>(
        &mut self,
        stream: &S,
        watch: &mut W,
    ) -> Option<usize>
        ensures becomes { Becomes self.old self.new }
        ensures rest { IsSameElse self.old self.new }
        ensures does { DoesUnwaiting W.does watch.old watch.new 0 [] }
        ensures seats { MatchOption result
            ((self.new.seats.taken ≡ self.old.seats.taken)
            × ((taken_in self.old.seats.taken ≡ place_count)
            ⊎ W.does watch.old (Watches true) watch.new))
            (λ place. Takes self.old.seats.taken place self.new.seats.taken
            × W.does watch.old (Watches false) watch.new) }
    {
        let place = self.seats.take()?;
        if watch.watch(stream, place).is_ok() {
            return Some(place);
        }
        self.seats.leave(place);
        None
    }

    // Has the client give way that was idle for the longest.
    fn turn_out(&mut self)
        requires held { AreHeld (wire_of S.remaining S.contents) self.old.queue.items }
        requires seated { AreSeated self.old.seats.taken self.old.queue.items }
        ensures lets { Lets (wire_of S.remaining S.contents) (telling_in self.old)
            (pending_in self.old) 0 self.old.status self.new }
        ensures seated { AreSeated self.new.seats.taken self.new.queue.items }
        ensures rest { IsSameElse self.old self.new }
        ensures capacity { deque_capacity self.new.queue ≡ deque_capacity self.old.queue }
        ensures way { GivesWay self.old.queue.items self.new.queue.items }
    {
        let index = longest_idle(&self.queue);
        if let Some(client) = self.queue.remove(index) {
            self.give_up(client);
        }
    }

    /// Serves each client that is ready, in the order in which they came to be so.
    pub(crate) fn serve_all<K: Keep>(&mut self, keep: &mut K, now: Option<Duration>)
        requires held { AreHeld (wire_of S.remaining S.contents) self.old.queue.items }
        requires seated { AreSeated self.old.seats.taken self.old.queue.items }
        ensures held { AreHeld (wire_of S.remaining S.contents) self.new.queue.items }
        ensures seated { AreSeated self.new.seats.taken self.new.queue.items }
        ensures advances { Advances K.meaning
            (wire_of S.remaining S.contents) keep.old keep.new self.old self.new }
        ensures waits { AreWaitedFor self.old.limits now self.new.wait self.new.queue.items }
        ensures comes { (IsNobodyToCome self.old → ⊥) → IsAtOnce self.new.wait }
        ensures limits { self.new.limits ≡ self.old.limits }
        ensures patient { IsPatient self.old.limits self.new.wait }
        ensures remain { (at : Duration) → now ≡ Some at
            → AllRemain at self.old self.old.queue.items self.new.queue.items }
    {
        self.wait = self.wait_to_come();
        for _ in 0..self.queue.len() {
            self.serve_next(keep, now);
        }
    }

    // How long may be waited at most, for who may be waiting to come in.
    fn wait_to_come(&self) -> Option<Duration>
        ensures { MatchOption result (IsNobodyToCome self.now)
            (λ wait. (IsNobodyToCome self.now → ⊥) × (as_nanos wait ≡ 0)) }
    {
        if self.left > 0 && self.places.is_called() {
            Some(Duration::ZERO)
        } else {
            None
        }
    }

    // Serves the first client of the queue, and puts it behind the others.
    #[tactic(auto, using(crate::proofs::OnConnections::Waits::waiting_none))]
    fn serve_next<K: Keep>(&mut self, keep: &mut K, now: Option<Duration>)
        requires held { AreHeld (wire_of S.remaining S.contents) self.old.queue.items }
        requires seated { AreSeated self.old.seats.taken self.old.queue.items }
        ensures held { AreHeld (wire_of S.remaining S.contents) self.new.queue.items }
        ensures seated { AreSeated self.new.seats.taken self.new.queue.items }
        ensures advances { Advances K.meaning
            (wire_of S.remaining S.contents) keep.old keep.new self.old self.new }
        ensures waits { Waiting now (drop 1 self.old.queue.items) self.old self.new }
        ensures remains { FirstRemains now self.old self.new }
        ensures named { NamesNone self.old.places self.new.places }
    {
        let Some(client) = self.queue.pop_front() else {
            return;
        };
        match now {
            Some(now) => self.serve(keep, client, now),
            None => self.give_up(client),
        }
    }

    // Serves a client, and puts it behind the others.
    #[tactic(auto, using(crate::proofs::OnConnections::Waits::waiting_none))]
    fn serve<K: Keep>(&mut self, keep: &mut K, client: Client<S>, now: Duration)
        requires held { AreHeld (wire_of S.remaining S.contents) self.old.queue.items }
        requires client { IsHeld (wire_of S.remaining S.contents) client.phase }
        requires seated { AreSeated self.old.seats.taken (client ∷ self.old.queue.items) }
        ensures seated { AreSeated self.new.seats.taken self.new.queue.items }
        ensures held { AreHeld (wire_of S.remaining S.contents) self.new.queue.items }
        ensures serves { Serves K.meaning (wire_of S.remaining S.contents) keep.old keep.new
            (telling client.phase) self.old self.new }
        ensures all { IsReadOn S.remaining client self.old self.new }
        ensures time { IsTimed now client self.old self.new }
        ensures idle { IsIdleOn now client self.old self.new }
        ensures begun { IsBegunOn now client self.old self.new }
        ensures remains { Remains now client self.old self.new }
        ensures named { NamesNone self.old.places self.new.places }
        ensures waits { Waiting (Some now) self.old.queue.items self.old self.new }
    {
        let Client {
            place,
            mut timing,
            phase,
        } = client;
        timing.rouse(&mut self.places, place);
        let phase = look(phase, now);
        match steps(&mut self.service, keep, phase, &mut timing, now) {
            Step::Goes(phase, _) => self.go_on(
                Client {
                    place,
                    timing,
                    phase,
                },
                now,
            ),
            Step::Ends(phase) => self.give_up(Client {
                place,
                timing,
                phase,
            }),
        }
    }

    // Puts a client behind the others, if it still has time.
    #[tactic(auto, using(crate::proofs::OnConnections::Waits::waiting_none))]
    fn go_on(&mut self, client: Client<S>, now: Duration)
        requires held { AreHeld (wire_of S.remaining S.contents) self.old.queue.items }
        requires client { IsHeld (wire_of S.remaining S.contents) client.phase }
        requires seated { AreSeated self.old.seats.taken (client ∷ self.old.queue.items) }
        ensures lets { Lets (wire_of S.remaining S.contents)
            (telling client.phase ++ telling_in self.old)
            (pending_in self.old + 1) 0 self.old.status self.new }
        ensures seated { AreSeated self.new.seats.taken self.new.queue.items }
        ensures time { IsTimely now client self.old self.new }
        ensures service { self.new.service ≡ self.old.service }
        ensures places { self.new.places ≡ self.old.places }
        ensures waits { Waiting (Some now) self.old.queue.items self.old self.new }
    {
        let Client {
            place,
            mut timing,
            phase,
        } = client;
        let left = timing.left(self.limits, &phase, now);
        let client = Client {
            place,
            timing,
            phase,
        };
        match left {
            Some(left) => {
                let wait = if timing.is_ready() {
                    Duration::ZERO
                } else {
                    left
                };
                self.wait = Some(shorter(self.wait.unwrap_or(wait), wait));
                self.stay(client);
            }
            None => self.give_up(client),
        }
    }

    // Puts a client behind the others.
    fn stay(&mut self, client: Client<S>)
        requires held { AreHeld (wire_of S.remaining S.contents) self.old.queue.items }
        requires client { IsHeld (wire_of S.remaining S.contents) client.phase }
        requires seated { AreSeated self.old.seats.taken (client ∷ self.old.queue.items) }
        ensures lets { Lets (wire_of S.remaining S.contents)
            (telling client.phase ++ telling_in self.old)
            (pending_in self.old + 1) 0 self.old.status self.new }
        ensures seated { AreSeated self.new.seats.taken self.new.queue.items }
        ensures stays { StaysInQueue client self.old self.new }
        ensures places { self.new.places ≡ self.old.places }
        ensures rest { IsSameElse self.old self.new }
    {
        match self.queue.push_back(client) {
            Ok(()) => {}
            Err(failed) => self.give_up(failed.value),
        }
    }

    // Ends the connection of a client, which is waited for no longer.
    fn give_up(&mut self, client: Client<S>)
        requires held { AreHeld (wire_of S.remaining S.contents) self.old.queue.items }
        requires client { IsHeld (wire_of S.remaining S.contents) client.phase }
        ensures queue { self.new.queue ≡ self.old.queue }
        ensures places { self.new.places ≡ self.old.places }
        ensures rest { IsSameElse self.old self.new }
        ensures left { self.new.left ≡ self.old.left }
        ensures lets { Lets (wire_of S.remaining S.contents)
            (telling client.phase ++ telling_in self.old)
            (pending_in self.old + 1) 0 self.old.status self.new }
        ensures leaves { self.new.seats.taken ≡ set self.old.seats.taken client.place false }
    {
        let failed = gives_up(client.phase);
        self.end(client.place, failed);
    }

    // Notes that a connection ended.
    fn end(&mut self, place: usize, failed: bool)
        ensures queue { self.new.queue ≡ self.old.queue }
        ensures places { self.new.places ≡ self.old.places }
        ensures rest { IsSameElse self.old self.new }
        ensures left { self.new.left ≡ self.old.left }
        ensures status { self.new.status ≡ (if failed then 3 else self.old.status) }
        ensures leaves { self.new.seats.taken ≡ set self.old.seats.taken place false }
    {
        self.seats.leave(place);
        if failed {
            self.status = 3;
        }
    }

    /// Gives up the clients that are there, and those that have not come.
    pub(crate) fn finish(&mut self)
        requires { AreHeld (wire_of S.remaining S.contents) self.old.queue.items }
        ensures lets { Lets (wire_of S.remaining S.contents) (telling_in self.old)
            (pending_in self.old) self.old.left self.old.status self.new }
        ensures pending { pending_in self.new ≡ 0 }
        ensures notes { self.new.service ≡ self.old.service }
    {
        self.give_up_all();
        self.leave_out();
    }

    // Gives up the clients that are there.
    fn give_up_all(&mut self)
        requires { AreHeld (wire_of S.remaining S.contents) self.old.queue.items }
        ensures lets { Lets (wire_of S.remaining S.contents) (telling_in self.old)
            (pending_in self.old) 0 self.old.status self.new }
        ensures left { self.new.left ≡ self.old.left }
        ensures notes { self.new.service ≡ self.old.service }
        ensures empty { length self.new.queue.items ≡ 0 }
    {
        for _ in 0..self.queue.len() {
            self.give_up_first();
        }
    }

    // Gives up the first client, if one is there.
    fn give_up_first(&mut self)
        requires { AreHeld (wire_of S.remaining S.contents) self.old.queue.items }
        ensures lets { Lets (wire_of S.remaining S.contents) (telling_in self.old)
            (pending_in self.old) 0 self.old.status self.new }
        ensures left { self.new.left ≡ self.old.left }
        ensures notes { self.new.service ≡ self.old.service }
        ensures fewer { length self.new.queue.items ≡ length self.old.queue.items - 1 }
    {
        if let Some(client) = self.queue.pop_front() {
            self.give_up(client);
        }
    }

    // Counts those that have not come as failed.
    fn leave_out(&mut self)
        requires { AreHeld (wire_of S.remaining S.contents) self.old.queue.items }
        ensures lets { Lets (wire_of S.remaining S.contents) (telling_in self.old)
            (pending_in self.old) self.old.left self.old.status self.new }
        ensures pending { pending_in self.new ≡ length self.old.queue.items }
        ensures notes { self.new.service ≡ self.old.service }
    {
        if self.left > 0 {
            self.left = 0;
            self.status = 3;
        }
    }
}

// The place in the queue of the client that is idle for the longest.
fn longest_idle<S>(queue: &VecDeque<Client<S>>) -> usize
    ensures { 0 < length queue.now.items → IsLongestIdle queue.now.items result }
{
    let mut longest = 0;
    for place in 1..queue.len() {
        if queue[place].idle_nanos() < queue[longest].idle_nanos() {
            longest = place;
        }
    }
    longest
}
