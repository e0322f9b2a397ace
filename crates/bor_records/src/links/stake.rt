//! Holdings and majority stakes (UK Companies Act 2006, Schedule 1A, paragraph 18).

ghost use Rattle.std.specs.Prelude.{◌≡◌};
ghost use Rattle.std.specs.List.{list_any};
ghost use Rattle.bor_records.specs.Links.Stakes.{counts, may_count, has_begun, has_not_ended, may_be_above_zero, is_above_half, is_share_or_vote, is_holding, is_stake, is_voting_majority, is_board_majority, is_membership};

use bods_read::{Directness, Interest, InterestKind};
use bor_terms::Day;

fn has_begun(starts: Option<Day>, day: Day) -> bool
    ensures { result ≡ has_begun day starts }
{
    match starts {
        None => true,
        Some(start) => start <= day,
    }
}

fn has_not_ended(ends: Option<Day>, day: Day) -> bool
    ensures { result ≡ has_not_ended day ends }
{
    match ends {
        None => true,
        Some(end) => day <= end,
    }
}

fn may_count(interest: &Interest) -> bool
    ensures { result ≡ may_count interest.now }
{
    interest.kind != InterestKind::Other && interest.directness != Directness::Indirect
}

fn counts(interest: &Interest, day: Day) -> bool
    ensures { result ≡ counts day interest.now }
{
    has_begun(interest.starts, day) && has_not_ended(interest.ends, day) && may_count(interest)
}

fn is_share_or_vote(kind: InterestKind) -> bool
    ensures { result ≡ is_share_or_vote kind }
{
    kind == InterestKind::Shareholding || kind == InterestKind::VotingRights
}

#[tactic(auto, using(crate::proofs::OnLinks::Stakes::whole_above_zero))]
fn may_be_above_zero(interest: &Interest) -> bool
    ensures { result ≡ may_be_above_zero interest.now }
{
    match interest.share {
        None => true,
        Some(share) => share.above_zero(),
    }
}

#[tactic(auto, using(crate::proofs::OnLinks::Stakes::whole_not_above_half))]
fn is_above_half(interest: &Interest) -> bool
    ensures { result ≡ is_above_half interest.now }
{
    match interest.share {
        None => false,
        Some(share) => share.above_half(),
    }
}

fn is_voting_majority(interest: &Interest, day: Day) -> bool
    ensures { result ≡ is_voting_majority day interest.now }
{
    counts(interest, day) && interest.kind == InterestKind::VotingRights && is_above_half(interest)
}

fn is_board_majority(interest: &Interest, day: Day) -> bool
    ensures { result ≡ is_board_majority day interest.now }
{
    counts(interest, day)
        && interest.kind == InterestKind::AppointmentOfBoard
        && (interest.share.is_none() || is_above_half(interest))
}

fn is_membership(interest: &Interest, day: Day) -> bool
    ensures { result ≡ is_membership day interest.now }
{
    counts(interest, day) && is_share_or_vote(interest.kind) && may_be_above_zero(interest)
}

fn has_voting_majority(interests: &[Interest], day: Day) -> bool
    ensures { result ≡ list_any (is_voting_majority day) interests.now }
{
    interests
        .iter()
        .any(|interest| is_voting_majority(interest, day))
}

fn has_board_majority(interests: &[Interest], day: Day) -> bool
    ensures { result ≡ list_any (is_board_majority day) interests.now }
{
    interests
        .iter()
        .any(|interest| is_board_majority(interest, day))
}

fn is_member(interests: &[Interest], day: Day) -> bool
    ensures { result ≡ list_any (is_membership day) interests.now }
{
    interests
        .iter()
        .any(|interest| is_membership(interest, day))
}

/// Whether the interests of a relationship are a holding on a day: one of a named type, not
/// `indirect`, that has begun by then and not ended before, and whose share can be above nothing
/// (paragraph 18(1), and this register's profile). It takes no memory.
pub fn holding_of(interests: &[Interest], day: Day) -> bool
    ensures { result ≡ is_holding day interests.now }
{
    interests.iter().any(|interest| counts(interest, day) && may_be_above_zero(interest))
}

/// Whether the interests of a relationship are a majority stake on a day: a majority of the voting
/// rights (paragraph 18(3)(a)), or a member's right to appoint or remove a majority of the board
/// (paragraph 18(3)(b)), each by interests that have begun by then and not ended before. It takes
/// no memory.
pub fn stake_of(interests: &[Interest], day: Day) -> bool
    ensures { result ≡ is_stake day interests.now }
{
    has_voting_majority(interests, day)
        || has_board_majority(interests, day) && is_member(interests, day)
}
