//! A request's head: where it ends, its fields by name, and the length of the body that they
//! announce.

ghost use Rattle.std.specs.Prelude.{◌≡◌, ◌≤◌, ◌+◌, length, drop, map, min, not, nat_lt, All, IfSome, None, Some, if◌then◌else◌};
ghost use Rattle.std.specs.Char.{is_ascii_digit};
ghost use Rattle.std.specs.List.{list_all};
ghost use Rattle.std.specs.Option.{option_map};
ghost use Rattle.std.specs.Str.Parse.{digits_value};
ghost use Rattle.httparse.specs.Spans.{header_bytes, IsHeaderWithin};
ghost use Rattle.bor_http.specs.Incoming.Head.{blank_len, head_len, line_feeds, line_limit};
ghost use Rattle.bor_http.specs.Incoming.Message.{is_named, how_many, first_value, body_limit};
ghost use Rattle.bor_http.specs.Incoming.Steps.{IsScanned, length_of, body_len};

use crate::incoming::fault::Refusal;
use httparse::spans::HeaderSpan;

// The most line feeds of a head.
const LINE_LIMIT: usize = 66;

/// The most bytes of a body.
pub(crate) const BODY_LIMIT: usize = 1_048_576;

// The length of the empty line that stands at `at`, or 0 where none does.
fn blank_at(bytes: &[u8], at: usize) -> usize
    requires { at ≤ length bytes.now }
    ensures { result ≡ blank_len (drop at bytes.now) }
{
    let rest = &bytes[at..];
    if rest.is_empty() {
        0
    } else if rest[0] == b'\n' {
        1
    } else if rest.len() > 1 && rest[0] == b'\r' && rest[1] == b'\n' {
        2
    } else {
        0
    }
}

// The length of the head at the front of the bytes, if it has come.
#[tactic(auto, using(crate::proofs::OnIncoming::HeadLemmas::head_rules))]
fn head_end(bytes: &[u8]) -> Option<usize>
    ensures value { result ≡ head_len bytes.now }
    ensures within { IfSome result (λ n. n ≤ length bytes.now) }
{
    for i in 0..bytes.len() {
        if bytes[i] == b'\n' {
            let blank = blank_at(bytes, i + 1);
            if blank > 0 {
                return Some(i + 1 + blank);
            }
        }
    }
    None
}

/// The length of the head at the front of the bytes, where none of the lines that end before
/// `from` is followed by an empty one.
pub(crate) fn head_end_from(bytes: &[u8], from: usize) -> Option<usize>
    requires within { from ≤ length bytes.now }
    requires scanned { IsScanned bytes.now from }
    ensures value { result ≡ head_len bytes.now }
    ensures within { IfSome result (λ n. n ≤ length bytes.now) }
{
    match head_end(&bytes[from..]) {
        Some(n) => Some(from + n),
        None => None,
    }
}

/// Whether a head has few enough lines for its fields to be read.
pub(crate) fn has_few_lines(head: &[u8]) -> bool
    ensures { result ≡ not (nat_lt line_limit (line_feeds head.now)) }
{
    head.iter().filter(|b| **b == b'\n').count() <= LINE_LIMIT
}

// Whether the field has the name, in whichever case.
fn has_name(head: &[u8], field: HeaderSpan, name: &[u8]) -> bool
    requires { IsHeaderWithin (length head.now) field }
    ensures { result ≡ is_named name.now (header_bytes head.now field) }
{
    field.name.of(head).eq_ignore_ascii_case(name)
}

/// How many fields have the name.
pub(crate) fn count_named(head: &[u8], fields: &[HeaderSpan], name: &[u8]) -> usize
    requires { All (IsHeaderWithin (length head.now)) fields.now }
    ensures { result ≡ how_many name.now (map (header_bytes head.now) fields.now) }
{
    let mut count = 0;
    for field in fields {
        if has_name(head, *field, name) {
            count += 1;
        }
    }
    count
}

/// The value of the first field that has the name.
pub(crate) fn find_value<'a>(head: &'a [u8], fields: &[HeaderSpan], name: &[u8]) -> Option<&'a [u8]>
    requires { All (IsHeaderWithin (length head.now)) fields.now }
    ensures { option_map (λ value. value.now) result
        ≡ first_value name.now (map (header_bytes head.now) fields.now) }
{
    for field in fields {
        if has_name(head, *field, name) {
            return Some(field.value.of(head));
        }
    }
    None
}

// The number that the digits give, up to one past the limit, if all are digits.
#[tactic(auto, using(crate::proofs::OnIncoming::LengthLemmas::digits_step, crate::proofs::OnIncoming::LengthLemmas::value_step))]
fn decimal(bytes: &[u8]) -> Option<usize>
    ensures { result ≡ (if list_all is_ascii_digit bytes.now
        then Some (min (digits_value 10 bytes.now) (body_limit + 1)) else None) }
{
    let mut value = 0;
    for b in bytes {
        if !b.is_ascii_digit() {
            return None;
        }
        value = (value * 10 + usize::from(*b - b'0')).min(BODY_LIMIT + 1);
    }
    Some(value)
}

// The length that a value of Content-Length gives.
fn announced(bytes: &[u8]) -> Result<usize, Refusal>
    ensures { result ≡ length_of body_limit bytes.now }
{
    if bytes.is_empty() {
        return Err(Refusal::BadLength);
    }
    match decimal(bytes) {
        None => Err(Refusal::BadLength),
        Some(n) if n > BODY_LIMIT => Err(Refusal::BodyTooLarge),
        Some(n) => Ok(n),
    }
}

/// The length of the body that follows a head with these fields.
#[tactic(auto, using(crate::proofs::OnIncoming::OnePass::encoded_at, crate::proofs::OnIncoming::OnePass::twice_at))]
pub(crate) fn body_length(head: &[u8], fields: &[HeaderSpan]) -> Result<usize, Refusal>
    requires { All (IsHeaderWithin (length head.now)) fields.now }
    ensures { result ≡ body_len (map (header_bytes head.now) fields.now) }
{
    let mut found: Option<&[u8]> = None;
    for field in fields {
        if has_name(head, *field, b"transfer-encoding") {
            return Err(Refusal::BadLength);
        }
        if has_name(head, *field, b"content-length") {
            if found.is_some() {
                return Err(Refusal::BadLength);
            }
            found = Some(field.value.of(head));
        }
    }
    match found {
        None => Ok(0),
        Some(value) => announced(value),
    }
}
