//! Numbers on the command line.

ghost use Rattle.std.specs.Prelude.{◌≡◌, ◌≤◌, IfSome};
ghost use Rattle.bor_words.specs.Values.{number_within};

/// The number that a text spells in decimal digits, where it is from `low` to `high`.
pub fn number_within(text: &str, low: u32, high: u32) -> Option<u32>
    ensures value { result ≡ number_within low high text.now }
    ensures within { IfSome result (λ number. (low ≤ number) × (number ≤ high)) }
{
    match text.parse::<u32>() {
        Ok(number) if low <= number && number <= high => Some(number),
        _ => None,
    }
}
