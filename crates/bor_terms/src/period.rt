//! The first and the last day of what a text names: a day, a month or a year.

ghost use Rattle.std.specs.Prelude.{◌≡◌, ◌<◌, ◌≤◌, IfSome, IsTrue, length};
ghost use Rattle.bor_terms.specs.Period.{end_of, is_month, month_end, month_start, start_of, year_end, year_of, year_start};

use crate::day::{Day, of_civil, pair_at};
use jiff_core::civil::days_in_month;

impl Day {
    /// The first day of what a text names: the day that [`Day::read`] reads; of exactly `YYYY-MM`
    /// the first day of the month; of exactly `YYYY` 1 January. `None` for another form, and where
    /// the calendar has no such day, month or year.
    #[tactic(auto, unfolding(crate::specs::Period::start_of))]
    pub fn read_start(text: &str) -> Option<Day>
        ensures { result ≡ start_of text.now }
    {
        if let Some(day) = Day::read(text) {
            return Some(day);
        }
        let bytes = text.as_bytes();
        if is_month(bytes) {
            return month_start(bytes);
        }
        if bytes.len() == 4 {
            return year_start(bytes);
        }
        None
    }

    /// The last day of what a text names: the day that [`Day::read`] reads; of exactly `YYYY-MM`
    /// the last day of the month; of exactly `YYYY` 31 December. `None` for another form, and where
    /// the calendar has no such day, month or year.
    #[tactic(auto, unfolding(crate::specs::Period::end_of))]
    pub fn read_end(text: &str) -> Option<Day>
        ensures { result ≡ end_of text.now }
    {
        if let Some(day) = Day::read(text) {
            return Some(day);
        }
        let bytes = text.as_bytes();
        if is_month(bytes) {
            return month_end(bytes);
        }
        if bytes.len() == 4 {
            return year_end(bytes);
        }
        None
    }
}

#[tactic(auto, unfolding(crate::specs::Period::is_month))]
fn is_month(bytes: &[u8]) -> bool
    ensures value { result ≡ is_month bytes.now }
    ensures long { IsTrue result → 7 ≤ length bytes.now }
{
    bytes.len() == 7 && bytes[4] == b'-'
}

#[tactic(auto, unfolding(crate::specs::Period::year_of))]
fn year_of(bytes: &[u8]) -> Option<u16>
    requires { 4 ≤ length bytes.now }
    ensures value { result ≡ year_of bytes.now }
    ensures small { IfSome result (λ year. year < 10000) }
{
    let century = pair_at(bytes, 0)?;
    let year = pair_at(bytes, 2)?;
    Some(100 * u16::from(century) + u16::from(year))
}

#[tactic(auto, unfolding(crate::specs::Period::month_start))]
fn month_start(bytes: &[u8]) -> Option<Day>
    requires { 7 ≤ length bytes.now }
    ensures { result ≡ month_start bytes.now }
{
    let year = year_of(bytes)?;
    let month = pair_at(bytes, 5)?;
    of_civil(year, month, 1)
}

#[tactic(auto, unfolding(crate::specs::Period::month_end))]
fn month_end(bytes: &[u8]) -> Option<Day>
    requires { 7 ≤ length bytes.now }
    ensures { result ≡ month_end bytes.now }
{
    let year = year_of(bytes)?;
    let month = pair_at(bytes, 5)?;
    let last = days_in_month(year as i16, month);
    of_civil(year, month, last)
}

#[tactic(auto, unfolding(crate::specs::Period::year_start))]
fn year_start(bytes: &[u8]) -> Option<Day>
    requires { 4 ≤ length bytes.now }
    ensures { result ≡ year_start bytes.now }
{
    let year = year_of(bytes)?;
    of_civil(year, 1, 1)
}

#[tactic(auto, unfolding(crate::specs::Period::year_end))]
fn year_end(bytes: &[u8]) -> Option<Day>
    requires { 4 ≤ length bytes.now }
    ensures { result ≡ year_end bytes.now }
{
    let year = year_of(bytes)?;
    of_civil(year, 12, 31)
}
