//! Days of the calendar.

ghost use Rattle.std.specs.Prelude.{◌≡◌, ◌<◌, ◌≤◌, ◌+◌, ◌/◌, ◌%◌, ◌↔◌, ◌≤ℤ◌, Some, ℕ, ℤ, List, length, pos, IsSome, IfSome, IsTrue};
ghost use Rattle.jiff_core.specs.Date.{epoch_day};
ghost use Rattle.bor_terms.specs.Day.{day_of, has_marks, digits_day, pair_at, number_of, digit, civil_text, day_text, IsDay, IsSpelling};

use jiff::civil::Date;
use jiff_core::civil::Date as Plain;
use std::marker::Model;

/// A day of the Gregorian calendar, from 0000-01-01 to 9999-12-31. Days are ordered in time.
#[derive(Clone, Copy, Debug, PartialEq, Eq, PartialOrd, Ord)]
pub struct Day {
    number: i32,
}

impl Model for Day {
    ghost Value = { ℤ };

    ghost view = { λ d. d.number };

    ghost invariant = { λ d. IsDay d.number };

    ghost inverse = { λ z. record { number = z } };
}

impl Day {
    /// The day that a text names: `YYYY-MM-DD`, followed by nothing or by `T` and anything. `None`
    /// for another form, and where the calendar has no such day.
    #[tactic(auto, unfolding(crate::specs::Day::day_of))]
    pub fn read(text: &str) -> Option<Day>
        ensures { result ≡ day_of text.now }
    {
        let bytes = text.as_bytes();
        if has_marks(bytes) {
            from_digits(bytes)
        } else {
            None
        }
    }

    /// The day so many days after 1 January 1970, or before it where the number is negative. `None`
    /// outside the years 0 to 9999.
    pub fn from_number(number: i32) -> Option<Day>
        ensures some { IsSome result ↔ IsDay number }
        ensures value { IfSome result (λ d. d ≡ number) }
    {
        if -719_528 <= number && number <= 2_932_896 {
            Some(Day { number })
        } else {
            None
        }
    }

    /// The day as `YYYY-MM-DD`: the one text of ten bytes that names it.
    pub fn text(self) -> [u8; 10]
        ensures value { result ≡ day_text self }
        ensures spelling { IsSpelling self result }
        ensures only_one { (other : List ℕ) → IsSpelling self other → other ≡ result }
    {
        let date = civil_of(self.number);
        spell(date.year as u16, date.month, date.day)
    }

    /// The days since 1 January 1970, negative before it.
    pub fn number(self) -> i32
        ensures value { result ≡ self }
        ensures within { IsDay result }
    {
        self.number
    }
}

#[tactic(auto, unfolding(crate::specs::Day::has_marks))]
fn has_marks(bytes: &[u8]) -> bool
    ensures value { result ≡ has_marks bytes.now }
    ensures long { IsTrue result → 10 ≤ length bytes.now }
{
    10 <= bytes.len()
        && bytes[4] == b'-'
        && bytes[7] == b'-'
        && (bytes.len() == 10 || bytes[10] == b'T')
}

#[tactic(auto, unfolding(crate::specs::Day::digits_day))]
fn from_digits(bytes: &[u8]) -> Option<Day>
    requires { 10 ≤ length bytes.now }
    ensures { result ≡ digits_day bytes.now }
{
    let century = pair_at(bytes, 0)?;
    let year = pair_at(bytes, 2)?;
    let month = pair_at(bytes, 5)?;
    let day = pair_at(bytes, 8)?;
    of_civil(100 * u16::from(century) + u16::from(year), month, day)
}

fn digit(byte: u8) -> Option<u8>
    ensures value { result ≡ digit byte }
    ensures small { IfSome result (λ d. d < 10) }
{
    if 48 <= byte && byte <= 57 {
        Some(byte - 48)
    } else {
        None
    }
}

#[tactic(auto, unfolding(crate::specs::Day::pair_at))]
pub(crate) fn pair_at(bytes: &[u8], i: usize) -> Option<u8>
    requires { i + 2 ≤ length bytes.now }
    ensures value { result ≡ pair_at bytes.now i }
    ensures small { IfSome result (λ n. n < 100) }
{
    let tens = digit(bytes[i])?;
    let ones = digit(bytes[i + 1])?;
    Some(10 * tens + ones)
}

#[tactic(auto, unfolding(crate::specs::Day::number_of))]
pub(crate) fn of_civil(year: u16, month: u8, day: u8) -> Option<Day>
    requires year { year < 10000 }
    requires month { month < 100 }
    requires day { day < 100 }
    ensures { result ≡ number_of year month day }
{
    match Date::new(year as i16, month as i8, day as i8) {
        Ok(date) => Some(Day {
            number: date.to_plain().to_unix_epoch_day(),
        }),
        Err(_) => None,
    }
}

fn date_of(number: i32) -> Plain
    requires { IsDay number }
    ensures { epoch_day result ≡ number }
{
    Plain::from_unix_epoch_day(i64::from(number)).unwrap()
}

fn civil_of(number: i32) -> Plain
    requires { IsDay number }
    ensures number { epoch_day result ≡ number }
    ensures year { pos 0 ≤ℤ result.year }
{
    date_of(number)
}

fn tens(n: u8) -> u8
    requires { n < 100 }
    ensures { result ≡ 48 + n / 10 }
{
    48 + n / 10
}

fn ones(n: u8) -> u8
    ensures { result ≡ 48 + n % 10 }
{
    48 + n % 10
}

fn spell(year: u16, month: u8, day: u8) -> [u8; 10]
    requires year { year < 10000 }
    requires month { month < 100 }
    requires day { day < 100 }
    ensures { result ≡ civil_text year month day }
{
    let century = (year / 100) as u8;
    let rest = (year % 100) as u8;
    [
        tens(century),
        ones(century),
        tens(rest),
        ones(rest),
        b'-',
        tens(month),
        ones(month),
        b'-',
        tens(day),
        ones(day),
    ]
}
