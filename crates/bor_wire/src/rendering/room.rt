//! Writing into room that was reserved: nothing here takes memory, so nothing fails.

ghost use Rattle.std.specs.Prelude.{◌≡◌, ◌≤◌, ◌+◌, ◌*◌, ◌++◌, length, decimal, vec_len, vec_capacity};
ghost use Rattle.std.specs.Char.{digit_char};
ghost use Rattle.json.specs.Print.{quoted, escape_byte};
ghost use Rattle.bor_terms.specs.Day.{day_text};

use bor_terms::Day;
use itoa::Buffer;

/// Writes bytes.
pub(crate) fn put(out: &mut Vec<u8>, bytes: &[u8])
    requires { vec_len out.old + length bytes.now ≤ vec_capacity out.old }
    ensures items { out.new.items ≡ out.old.items ++ bytes.now }
    ensures len { vec_len out.new ≡ vec_len out.old + length bytes.now }
    ensures capacity { vec_capacity out.old ≤ vec_capacity out.new }
{
    let _ = out.extend_from_slice(bytes);
}

fn hex_digit(n: u8) -> u8
    requires { n ≤ 15 }
    ensures { result ≡ digit_char n }
{
    if n < 10 { b'0' + n } else { b'a' + (n - 10) }
}

// Writes what stands for a byte in a text of JSON (RFC 8259): six bytes at most.
#[tactic(auto, unfolding(json::specs::Print::escape_byte))]
fn put_escaped(out: &mut Vec<u8>, byte: u8)
    requires { vec_len out.old + 6 ≤ vec_capacity out.old }
    ensures items { out.new.items ≡ out.old.items ++ escape_byte byte }
    ensures len { vec_len out.new ≤ vec_len out.old + 6 }
    ensures capacity { vec_capacity out.old ≤ vec_capacity out.new }
{
    let hex = [hex_digit(byte / 16), hex_digit(byte % 16)];
    match byte {
        b'"' | b'\\' => put(out, &[b'\\', byte]),
        8 => put(out, b"\\b"),
        12 => put(out, b"\\f"),
        b'\n' => put(out, b"\\n"),
        b'\r' => put(out, b"\\r"),
        b'\t' => put(out, b"\\t"),
        byte if byte < 32 => put(out, &[b'\\', b'u', b'0', b'0', hex[0], hex[1]]),
        byte => put(out, &[byte]),
    }
}

/// Writes a text as JSON has it: in quotation marks, with escapes.
pub(crate) fn put_quoted(out: &mut Vec<u8>, text: &[u8])
    requires { vec_len out.old + (6 * length text.now + 2) ≤ vec_capacity out.old }
    ensures items { out.new.items ≡ out.old.items ++ quoted text.now }
    ensures len { vec_len out.new ≤ vec_len out.old + (6 * length text.now + 2) }
    ensures capacity { vec_capacity out.old ≤ vec_capacity out.new }
{
    put(out, b"\"");
    for byte in text {
        put_escaped(out, *byte);
    }
    put(out, b"\"");
}

/// Writes a day as a text of JSON.
pub(crate) fn put_day(out: &mut Vec<u8>, day: Day)
    requires { vec_len out.old + 62 ≤ vec_capacity out.old }
    ensures items { out.new.items ≡ out.old.items ++ quoted (day_text day) }
    ensures len { vec_len out.new ≤ vec_len out.old + 62 }
    ensures capacity { vec_capacity out.old ≤ vec_capacity out.new }
{
    let text = day.text();
    put_quoted(out, text.as_slice());
}

/// Writes a number in decimal.
pub(crate) fn put_number(out: &mut Vec<u8>, n: u32)
    requires { vec_len out.old + 10 ≤ vec_capacity out.old }
    ensures items { out.new.items ≡ out.old.items ++ decimal n }
    ensures len { vec_len out.new ≤ vec_len out.old + 10 }
    ensures capacity { vec_capacity out.old ≤ vec_capacity out.new }
{
    let mut digits = Buffer::new();
    put(out, digits.format(n).as_bytes());
}
