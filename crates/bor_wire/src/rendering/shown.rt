//! The values that replies show, written as JSON token by token into one buffer.

ghost use Rattle.std.specs.Prelude.{◌≡◌, ◌∷◌, [], List, ℕ, IfSome, IsSome, codes};
ghost use Rattle.json.specs.Token.{key, string};
ghost use Rattle.serde_json.specs.Data.{Data, string as text_data};
ghost use Rattle.bor_terms.specs.Day.{day_text};
ghost use Rattle.bor_wire.specs.Rendering.Values.{list_data, maybe_data, day_data, count_data};
ghost use Rattle.bor_wire.specs.Rendering.Parts.{WritesBehind, data_tokens};

use bor_terms::{Day, Form, Text};
use json::Writer;
use std::alloc::AllocError;

/// A value that replies show as JSON.
pub(crate) trait Shown {
    ghost as_data: { Self → Data };

    /// Writes the value.
    fn write(&self, out: &mut Writer) -> Result<(), AllocError>
        ensures { WritesBehind result out.old out.new (data_tokens (as_data self.now)) };
}

/// Writes the text of a day.
pub(crate) fn write_day(out: &mut Writer, day: Day) -> Result<(), AllocError>
    ensures { WritesBehind result out.old out.new (data_tokens (day_data day)) }
{
    match str::from_utf8(day.text().as_slice()) {
        Ok(text) => out.string(text),
        Err(_) => unreachable!(),
    }
}

/// Writes a member of an object that is a text.
pub(crate) fn write_text(out: &mut Writer, name: &str, text: &str) -> Result<(), AllocError>
    ensures { WritesBehind result out.old out.new (key name.now ∷ string text.now ∷ []) }
{
    out.key(name)?;
    out.string(text)
}

/// Writes a member of an object that is a day.
pub(crate) fn write_date(out: &mut Writer, name: &str, day: Day) -> Result<(), AllocError>
    ensures { WritesBehind result out.old out.new (key name.now ∷ data_tokens (day_data day)) }
{
    out.key(name)?;
    write_day(out, day)
}

/// Writes a member of an object that is a number.
pub(crate) fn write_number(out: &mut Writer, name: &str, n: u64) -> Result<(), AllocError>
    ensures { WritesBehind result out.old out.new (key name.now ∷ data_tokens (count_data n)) }
{
    out.key(name)?;
    out.u64(n)
}

/// Writes a text, or null where there is none.
pub(crate) fn write_maybe<F: Form>(
    out: &mut Writer,
    text: &Option<Text<F>>,
) -> Result<(), AllocError>
    ensures { WritesBehind result out.old out.new (data_tokens (maybe_data text_data text.now)) }
{
    match text {
        Some(text) => out.string(text.as_str()),
        None => out.null(),
    }
}

/// Writes a member of an object that is a text, or null where there is none.
pub(crate) fn write_text_or_null<F: Form>(
    out: &mut Writer,
    name: &str,
    text: &Option<Text<F>>,
) -> Result<(), AllocError>
    ensures { WritesBehind result out.old out.new
        (key name.now ∷ data_tokens (maybe_data text_data text.now)) }
{
    out.key(name)?;
    write_maybe(out, text)
}

/// Writes an array of items.
pub(crate) fn write_array<T: Shown>(out: &mut Writer, items: &[T]) -> Result<(), AllocError>
    ensures { WritesBehind result out.old out.new (data_tokens (list_data T.as_data items.now)) }
{
    out.begin_array()?;
    for item in items {
        item.write(out)?;
    }
    out.end_array()
}

/// Writes a member of an object that is an array of items.
pub(crate) fn write_items<T: Shown>(
    out: &mut Writer,
    name: &str,
    items: &[T],
) -> Result<(), AllocError>
    ensures { WritesBehind result out.old out.new
        (key name.now ∷ data_tokens (list_data T.as_data items.now)) }
{
    out.key(name)?;
    write_array(out, items)
}
