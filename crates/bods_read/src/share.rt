//! The share of an interest: the range that its bounds leave.

ghost use Rattle.std.specs.Prelude.{◌≡◌, ◌≤◌, ◌<◌, Some, IfSome, ℕ};
ghost use Rattle.std.specs.List.{list_all};
ghost use Rattle.serde_json.specs.View.{view};
ghost use Rattle.bor_terms.specs.Points.{meets, low_bound, high_bound, points};
ghost use Rattle.bor_terms.specs.Shown.{shown};
ghost use Rattle.bods_read.specs.Outcome.{Gives, outcome};
ghost use Rattle.bods_read.specs.Share.{lows, highs, share_bounds, range_lines, range_of, IsSmallExclusive, IsSmallShare};

use crate::fault::Fault;
use crate::numeral::{Exclusive, Share, members};
use crate::trouble::Trouble;
use bor_terms::Span;
use serde_json::Value;

// An end of a range.
#[derive(Clone, Copy)]
struct End {
    at: u8,
    is_open: bool,
}

// The greatest of the low bounds, open where one of the equal greatest is open.
fn low_end(minimum: Option<u8>, exclusive: Exclusive) -> End
    requires minimum { IfSome minimum (λ n. n ≤ 100) }
    requires exclusive { IsSmallExclusive exclusive }
    ensures within { result.at ≤ 100 }
    ensures same { (h : ℕ) → meets (low_bound result.at result.is_open) h
        ≡ list_all (λ b. meets b h) (lows minimum exclusive) }
{
    match (minimum, exclusive) {
        (None, Exclusive::Percent(above)) => End {
            at: above,
            is_open: true,
        },
        (None, _) => End {
            at: 0,
            is_open: false,
        },
        (Some(minimum), Exclusive::Percent(above)) if minimum <= above => End {
            at: above,
            is_open: true,
        },
        (Some(minimum), Exclusive::Flag(is_open)) => End {
            at: minimum,
            is_open,
        },
        (Some(minimum), _) => End {
            at: minimum,
            is_open: false,
        },
    }
}

// The least of the high bounds, open where one of the equal least is open.
fn high_end(maximum: Option<u8>, exclusive: Exclusive) -> End
    requires maximum { IfSome maximum (λ n. n ≤ 100) }
    requires exclusive { IsSmallExclusive exclusive }
    ensures within { result.at ≤ 100 }
    ensures same { (h : ℕ) → h < 201 → meets (high_bound result.at result.is_open) h
        ≡ list_all (λ b. meets b h) (highs maximum exclusive) }
{
    match (maximum, exclusive) {
        (None, Exclusive::Percent(below)) => End {
            at: below,
            is_open: true,
        },
        (None, _) => End {
            at: 100,
            is_open: false,
        },
        (Some(maximum), Exclusive::Percent(below)) if below <= maximum => End {
            at: below,
            is_open: true,
        },
        (Some(maximum), Exclusive::Flag(is_open)) => End {
            at: maximum,
            is_open,
        },
        (Some(maximum), _) => End {
            at: maximum,
            is_open: false,
        },
    }
}

// The range that the members leave, unless it is empty.
fn span(share: &Share) -> Option<Span>
    requires { IsSmallShare share.now }
    ensures { result ≡ shown (points (share_bounds share.now)) }
{
    match share.exact {
        Some(exact) => Span::new(exact, false, exact, false),
        None => {
            let low = low_end(share.minimum, share.exclusive_minimum);
            let high = high_end(share.maximum, share.exclusive_maximum);
            Span::new(low.at, low.is_open, high.at, high.is_open)
        }
    }
}

/// The range that an object gives.
#[tactic(auto, using(crate::proofs::Bounds::range_rules), unfolding(crate::specs::Share::range_lines, crate::specs::Share::range_of))]
pub(crate) fn range(share: &Value) -> Result<Span, Trouble>
    ensures { Gives (λ s. Some s) result
        (outcome (range_lines (view share.now)) (range_of (view share.now))) }
{
    let share = members(share)?;
    match span(&share) {
        Some(span) => Ok(span),
        None => Err(Trouble::Fault(Fault::EmptyShare)),
    }
}
