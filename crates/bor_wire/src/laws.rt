//! Laws of runs. Each function does nothing: its contract is the law.

ghost use Rattle.bor_wire.specs.AllRefusals.{TheFirstRefusalIsSaid};
ghost use Rattle.bor_wire.specs.Headline.{DraftsStayInvisible, ExchangesKeepDraftsInvisible, ReportsNameTheJoined};
ghost use Rattle.bor_wire.specs.Histories.{EachIsReceived, SameHistorySameBytes};
ghost use Rattle.bor_wire.specs.Nobody.{NobodysInputs};
ghost use Rattle.bor_wire.specs.Repeats.{RepeatsActOnce};
ghost use Rattle.bor_wire.specs.ReportBytes.{BytesGiveEntities, BytesGiveEvidence, BytesGivePersons};
ghost use Rattle.bor_wire.specs.Restarts.{ExchangesCompose, FilingsFollowHistory, LivesKeepDraftsInvisible, RunsCompose};
ghost use Rattle.bor_wire.specs.Sequences.{ExchangesAreARun};
ghost use Rattle.bor_wire.specs.Stops.{AnswersLast, StopsLeaveRuns};
ghost use Rattle.bor_wire.specs.Turns.{AnswersAreRuns, ExchangeIsATurn, FrontsAreRuns};

use bor_desk::operations::Keep;

/// An agent's drafts stay invisible to every other agent, to the last byte of a reply. Of two lists
/// of requests, each answered from a new register: where an agent's own are the same, on the same
/// days and with the same published by the others at each, it receives the same bytes. This holds
/// of each request, as of chains, evidence and the entities of an identifier.
#[tactic(auto, using(crate::proofs::HeadlineLaws::invisible))]
pub fn drafts_stay_invisible()
    ensures { DraftsStayInvisible }
{}

/// A chain report omits nobody and invents nobody. Of requests that are answered from a new
/// register, each reply with status 200 to one for chains names exactly the persons joined to the
/// entity. Each to one for the entities of an identifier has exactly those that the caller sees.
#[tactic(auto, using(crate::proofs::HeadlineLaws::joined))]
pub fn reports_name_the_joined()
    ensures { ReportsNameTheJoined }
{}

/// The first sentence of exchanges one after the other, from keeps of new registers, as
/// [`exchanges_are_a_run`] gives their runs: an agent whose own exchanges are the same in both, on
/// the same days and with the same published by the others at each, is sent the same bytes.
pub fn exchanges_keep_drafts_invisible<K: Keep>()
    ensures { ExchangesKeepDraftsInvisible K.meaning.shows }
{}

/// A lodging that its agent sends again acts once, with whatever token the agent has by then.
/// Whatever came between, the reply has the number and the due day as before, its filing's state
/// now, and that it isn't new, with status 200, and changes nothing; so it is for a withdrawn filing
/// too. The key with another due day or another file is refused, and nothing changes.
///
/// An agent keeps its token until a request to renew it. A renewal that is sent again before the
/// next one acts once. This holds of every register and run.
#[tactic(auto, using(crate::proofs::RepeatLaws::repeats))]
pub fn repeats_act_once()
    ensures { RepeatsActOnce }
{}

/// The order of refusals is one table, from the bytes of an input to the register: of all its lines
/// that hold, the first is said, and where none does the status is below 400. This holds of every
/// register and input.
#[tactic(auto, using(crate::proofs::AllRefusalLaws::first_said))]
pub fn the_first_refusal_is_said()
    ensures { TheFirstRefusalIsSaid }
{}

/// The bytes of a report on chains determine its persons, with their names and numbers of links.
pub fn report_bytes_give_persons()
    ensures { BytesGivePersons }
{}

/// The bytes of evidence determine its persons with their first links, and its links with those
/// that follow them and the records between.
pub fn evidence_bytes_give_links()
    ensures { BytesGiveEvidence }
{}

/// The bytes of the entities of an identifier determine the identifier, and each record with its
/// agent, its declaration and its statement's identifier.
pub fn entities_bytes_give_records()
    ensures { BytesGiveEntities }
{}

/// Two runs, from any two legal registers, in which an agent has the same filings at the start and
/// the same history give it the same bytes in the same order.
#[tactic(auto, using(crate::proofs::HistoryLaws::same_bytes))]
pub fn same_history_same_bytes()
    ensures { SameHistorySameBytes }
{}

/// With one reply for each input of a run, an agent receives one for each exchange of its history,
/// of every register and run.
#[tactic(auto, using(crate::proofs::HistoryLaws::each_is_received))]
pub fn each_is_received()
    ensures { EachIsReceived }
{}

/// An input that spells no request, or has a token that nobody has, is in no agent's history and
/// leaves the register, and no agent receives its reply. The reply depends on its bytes alone: the
/// refusal that they spell, or `NoAgent`. This holds of every register and run.
#[tactic(auto, using(crate::proofs::NobodyLaws::nobodys_inputs))]
pub fn nobodys_inputs()
    ensures { NobodysInputs }
{}

/// Exchanges one after the other, from a keep of a legal register, each as the contract of
/// [`respond`](crate::respond) says, are a run over what their inputs spell: the replies are the
/// run's, the register left is too, and each agent receives what it would alone. Those with status
/// 503 have no part in it.
#[tactic(auto, using(crate::proofs::SequenceLaws::a_run))]
pub fn exchanges_are_a_run<K: Keep>()
    ensures { ExchangesAreARun K.meaning }
{}

/// By its contract an [`exchange`](crate::exchange) is one of exchanges one after the other, of all
/// the bytes that its reader had, unless the reader failed, which leaves the keep. So the laws of
/// exchanges hold of it.
#[tactic(auto, using(crate::proofs::TurnLaws::a_turn))]
pub fn an_exchange_is_a_turn<K: Keep>()
    ensures { ExchangeIsATurn K.meaning }
{}

/// A front of exchanges one after the other is a run too, where the keep that it leaves is clean.
/// So what was replied before a store failed keeps its promises, whatever the store does later on:
/// `in_turn` of [`replay`](crate::replay) gives such exchanges, with the keep after each.
#[tactic(auto, using(crate::proofs::TurnLaws::fronts))]
pub fn fronts_are_runs<K: Keep>()
    ensures { FrontsAreRuns K.meaning }
{}

/// Exchanges one after the other, from a keep of a legal register, are a run up to each request
/// that was answered with another status than 503, if the keep's store had returned what was
/// written by then. So where a store shuts, the replies before keep their promises. That no request
/// is answered behind it says `in_turn` of [`replay`](crate::replay), which gives such exchanges.
#[tactic(auto, using(crate::proofs::TurnLaws::answers))]
pub fn answers_are_runs<K: Keep>()
    ensures { AnswersAreRuns K.meaning }
{}

/// The state that a stop leaves after exchanges one after the other, from a clean keep of a legal
/// register, if its store has returned what was written: it shows the register after a front of
/// them, or after that and the next one. The front is a run and has all up to any exchange after
/// which the keep was clean; those with status 503 have no part in it.
#[tactic(auto, using(crate::proofs::StopLaws::stops))]
pub fn stops_leave_runs<K: Keep>()
    ensures { StopsLeaveRuns K.meaning }
{}

/// Answered changes last: the front that [`stops_leave_runs`] speaks of has each request that was
/// answered with another status than 503. A stop is one as an exchange ends; that one in its midst
/// leaves no more is an argument of the store's.
#[tactic(auto, using(crate::proofs::StopLaws::answers_last))]
pub fn answers_last<K: Keep>()
    ensures { AnswersLast K.meaning }
{}

/// A run that goes on from the register that another run left, as after a restart, is one run with
/// it: the same replies, the same register at the end, and of each agent the history and the
/// exchanges of the first and then those of the second. This holds of every register and run.
#[tactic(auto, using(crate::proofs::RestartLaws::compose))]
pub fn runs_compose()
    ensures { RunsCompose }
{}

/// The same of exchanges one after the other, where the second ones begin with a keep of the
/// register that the first ones left: together they are a run, with what both spell and the bytes
/// that both sent, and the keep at the end shows the register that it leaves.
#[tactic(auto, using(crate::proofs::RestartLaws::exchanges_compose))]
pub fn exchanges_compose<K: Keep>()
    ensures { ExchangesCompose K.meaning.shows }
{}

/// After a run from a legal register an agent has the filings that follow from those at the start
/// and its own history, whatever the others ask for.
#[tactic(auto, using(crate::proofs::RestartLaws::filings_follow))]
pub fn filings_follow_history()
    ensures { FilingsFollowHistory }
{}

/// The first sentence of whole lives of registers, from new ones on, however many starts of the
/// program each has: an agent whose own exchanges are the same in both, on the same days and with
/// the same published by the others at each, receives the same bytes.
#[tactic(auto, using(crate::proofs::RestartLaws::invisible_in_lives))]
pub fn lives_keep_drafts_invisible()
    ensures { LivesKeepDraftsInvisible }
{}
