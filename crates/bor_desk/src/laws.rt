//! Laws of the step. Each function does nothing: its contract is the law.

ghost use Rattle.bor_desk.specs.Outcomes.{AnswerIsDetermined};
ghost use Rattle.bor_desk.specs.Laws.{EachIsAnswered, AnsweredEvidenceNamesTheJoined, LaterStatementsChangeNoAnswer, OwnFilingsUntouched, ReadsLeave, RefusalChangesNothing, StepStaysLegal, OneExchangeAlone, IsolationOfHistories};
ghost use Rattle.bor_desk.specs.Standing.{PublishedStays, RegistrarSeesNoDraft, TokenIsRenewed};

/// Two replies that tell one answer are equal.
pub fn answer_is_determined()
    ensures { AnswerIsDetermined }
{}

/// Evidence names exactly the persons from whom a chain leads to the entity in what the caller
/// sees: those that the report on it names.
#[tactic(auto, using(crate::proofs::OnEvidence::OneWay::names_the_joined))]
pub fn evidence_names_the_joined()
    ensures { AnsweredEvidenceNamesTheJoined }
{}

/// After an exchange the filings of all agents but the one that asks are as they were. An agent
/// changes neither the day nor who has which token. The registrar changes at most the day, who is
/// enrolled, and the token of the one agent that a renewal names: its own token stays, and so does
/// each agent that was there. An unknown token changes nothing. This holds of every register.
#[tactic(auto, using(crate::proofs::Isolation::own_filings))]
pub fn own_filings_untouched()
    ensures { OwnFilingsUntouched }
{}

/// A refusal leaves the register as it was: only a filing that is lodged and wasn't before, a
/// withdrawal, a day, an enrolment or a renewal changes it. This holds of every register, caller
/// and request.
#[tactic(auto, using(crate::proofs::Unchanged::refusal_leaves))]
pub fn refusal_changes_nothing()
    ensures { RefusalChangesNothing }
{}

/// A request that only reads leaves the register as it was, whatever the answer, and each reply
/// that may be of any length is to such a request. This holds of every register, caller and
/// request.
#[tactic(auto, using(crate::proofs::Unchanged::reads))]
pub fn reads_leave()
    ensures { ReadsLeave }
{}

/// Each step leaves a legal register legal.
#[tactic(auto, using(crate::proofs::Steps::legal_steps))]
pub fn legal_stays_legal()
    ensures { StepStaysLegal }
{}

/// The answer to an agent of a legal register, and its filings after it, are the same as they would
/// be alone with what the others have published.
#[tactic(auto, using(crate::proofs::Isolation::exchange_alone))]
pub fn one_exchange_alone()
    ensures { OneExchangeAlone }
{}

/// A run leaves a legal register legal. In every run from a legal register the answers to an agent
/// follow from its own filings at the start, its own requests, the day at each of them, and what
/// the others had published then.
#[tactic(auto, using(crate::proofs::Isolation::isolated))]
pub fn histories_are_isolated()
    ensures { IsolationOfHistories }
{}

/// A run has one answer for each request, and as many answers to an agent as its history has
/// occasions. This holds of every register and run.
#[tactic(auto, using(crate::proofs::Lengths::each_is_answered))]
pub fn each_is_answered()
    ensures { EachIsAnswered }
{}

/// A snapshot, a report and evidence as of a date are told by the statements dated by then that the
/// agent sees. Where these are the same in two registers, whatever one tells the other tells: no
/// statement dated later and no filing that the agent doesn't see changes it. This holds of every
/// register.
#[tactic(auto, using(crate::proofs::Past::later_statements_change_no_past))]
pub fn later_statements_change_no_past()
    ensures { LaterStatementsChangeNoAnswer }
{}

/// What is published stays: the day never goes back, a published filing stays with its file and its
/// place among its agent's, and of a record more is published only behind what was. This holds of
/// every run from a legal register.
pub fn published_stays_published()
    ensures { PublishedStays }
{}

/// The registrar is told nothing of drafts: its answers hang on the day, the tokens, the agents'
/// names and the outward forms of what is published alone. This holds of every request to two legal
/// registers.
#[tactic(auto, using(crate::proofs::Overview::registrar_sees_no_draft))]
pub fn registrar_sees_no_draft()
    ensures { RegistrarSeesNoDraft }
{}

/// After a renewal the agent is known by the token that was given, and a token that it had before
/// is nobody's. This holds of every legal register.
#[tactic(auto, using(crate::proofs::OnOperations::Renewals::token_is_renewed))]
pub fn token_is_renewed()
    ensures { TokenIsRenewed }
{}
