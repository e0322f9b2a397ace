//! Ranges of percents: the shares of an interest (BODS 0.4).

ghost use Rattle.std.specs.Prelude.{◌≡◌, ◌≤◌, ◌↔◌, nat_lt, IsSome, IfSome};
ghost use Rattle.std.specs.List.{list_all, list_any};
ghost use Rattle.bor_terms.specs.Points.{has_points, end_bounds};
ghost use Rattle.bor_terms.specs.Shown.{shown};
ghost use Rattle.bor_terms.specs.Span.{Range, range, points_of, HasPoints};

use std::marker::Model;

/// A share of BODS 0.4: a range of whole percents from 0 to 100, with each end closed or open. It
/// stands for the half percents that lie in it, and there is always one.
#[derive(Clone, Copy, PartialEq, Eq)]
pub struct Span {
    low: u8,
    low_open: bool,
    high: u8,
    high_open: bool,
}

impl Model for Span {
    ghost Value = { Range };

    ghost view = { λ s. range s.low s.low_open s.high s.high_open };

    ghost invariant = { λ s. (s.high ≤ 100)
        × HasPoints (range s.low s.low_open s.high s.high_open) };

    ghost inverse = { λ r. record {
      low = r.low;
      low_open = r.low_open;
      high = r.high;
      high_open = r.high_open;
    } };
}

impl Span {
    /// The range from `low` to `high`, in percents, each end closed or open. `None` where a number
    /// is above 100, or where no half percent lies in the range.
    #[tactic(auto, using(crate::proofs::Shown::shown_made))]
    pub fn new(low: u8, low_open: bool, high: u8, high_open: bool) -> Option<Span>
        ensures some { IsSome result
            ↔ ((low ≤ 100) × (high ≤ 100) × HasPoints (range low low_open high high_open)) }
        ensures ends { IfSome result (λ span. span ≡ range low low_open high high_open) }

        // These ends are the ones that are shown of the range's points.
        ensures shown { low ≤ 100 → high ≤ 100
            → result ≡ shown (points_of (range low low_open high high_open)) }
    {
        if low <= 100 && high <= 100 && is_held(low, low_open, high, high_open) {
            Some(Span {
                low,
                low_open,
                high,
                high_open,
            })
        } else {
            None
        }
    }

    /// The low end, in percent.
    pub fn low(self) -> u8
        ensures { result ≡ self.low }
    {
        self.low
    }

    /// Whether the low end itself is left out.
    pub fn low_is_open(self) -> bool
        ensures { result ≡ self.low_open }
    {
        self.low_open
    }

    /// The high end, in percent.
    pub fn high(self) -> u8
        ensures value { result ≡ self.high }
        ensures within { result ≤ 100 }
    {
        self.high
    }

    /// Whether the high end itself is left out.
    pub fn high_is_open(self) -> bool
        ensures { result ≡ self.high_open }
    {
        self.high_open
    }

    /// Whether all of its half percents are above 50 percent: a majority, as of voting rights (UK
    /// Companies Act 2006, Schedule 1A, paragraph 18).
    #[tactic(auto, using(crate::proofs::Held::above_half_is, std::proofs::lemmas::Bool::Decides::nat_tests))]
    pub fn above_half(self) -> bool
        ensures answer { result ≡ list_all (λ h. nat_lt 100 h) (points_of self) }
        ensures never_empty { HasPoints self }
    {
        self.low > 50 || self.low == 50 && self.low_open
    }

    /// Whether one of its half percents is above 0: something is held (the same paragraph).
    #[tactic(auto, using(crate::proofs::Held::above_zero_is))]
    pub fn above_zero(self) -> bool
        ensures answer { result ≡ list_any (λ h. nat_lt 0 h) (points_of self) }
        ensures never_empty { HasPoints self }
    {
        self.high > 0
    }
}

#[tactic(auto, using(crate::proofs::Held::has_points_ends, std::proofs::lemmas::Bool::Decides::nat_tests))]
fn is_held(low: u8, low_open: bool, high: u8, high_open: bool) -> bool
    requires { high ≤ 100 }
    ensures { result ≡ has_points (end_bounds low low_open high high_open) }
{
    low < high || low == high && !low_open && !high_open
}
