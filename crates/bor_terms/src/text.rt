//! Texts of a form.

ghost use Rattle.std.specs.Prelude.{◌≡◌, ℕ, List, Bool, true, false, IsOk, IfOk, Some, None, if◌then◌else◌, string_bytes, slice_index, refl};
ghost use Rattle.std.specs.Ordering.{nat_cmp};
ghost use Rattle.std.specs.Cmp.{partial_equiv_from_equiv};
ghost use Rattle.std.specs.Cmp.Lexicographic.{slice_cmp, nat_list_eq_equiv, nat_list_cmp_total, texts_ties, texts_po};
ghost use Rattle.bor_terms.specs.Texts.{is_same, is_short, short_length, front_of, back_of, AreBytes};

use std::alloc::{AllocError, Global};
use std::cmp::Ordering;
use std::fmt;
use std::marker::{Model, PhantomData};
use std::rc::Rc;

/// A form that texts may have.
pub trait Form {
    ghost is_form: { List ℕ → Bool };

    ghost shown: { List ℕ → List ℕ };

    /// Whether a text has the form.
    fn fits(text: &str) -> bool
        ensures { result ≡ is_form text.now };

    /// The text that `{:?}` writes of a text of the form.
    fn shown(text: &str) -> &str
        ensures { result.now ≡ shown text.now };
}

/// A text of the form `F`, byte for byte. Texts are compared and ordered by their bytes. Copies of
/// a text share its bytes.
#[derive(Drop)]
pub struct Text<F: Form> {
    // The first eight bytes, and then the next seven with the length, as two numbers. Texts that
    // differ in one of them are compared by these alone, and those of at most fifteen bytes too.
    front: u64,
    back: u64,
    text: Rc<String>,
    form: PhantomData<F>,
}

impl<F: Form> Model for Text<F> {
    ghost use Rattle.std.specs.Prelude.{◌≡◌, List, ℕ, true, string_bytes};
    ghost use Rattle.bor_terms.specs.Texts.{front_of, back_of, AreBytes};

    ghost Value = { List ℕ };

    ghost view = { λ a. string_bytes a.text.value };

    ghost invariant = { λ a. (F.is_form (string_bytes a.text.value) ≡ true) × (a.front ≡ front_of (string_bytes a.text.value)) × (a.back ≡ back_of (string_bytes a.text.value)) × AreBytes (string_bytes a.text.value) };
}

impl<F: Form> Text<F> {
    /// Whether a text has the form.
    pub fn fits(text: &str) -> bool
        ensures { result ≡ F.is_form text.now }
    {
        F::fits(text)
    }

    /// The text that it is, byte for byte, or `None` where it does not have the form. Memory is
    /// asked for only where it has.
    pub fn read(alloc: Global, text: &str) -> Result<Option<Text<F>>, AllocError>
        ensures value { IfOk result (λ read.
            read ≡ (if F.is_form text.now then Some text.now else None)) }
        ensures refused { F.is_form text.now ≡ false → IsOk result }
    {
        if !F::fits(text) {
            return Ok(None);
        }
        Ok(Some(Text::new(alloc, String::from_str(alloc, text)?)?))
    }

    /// The text of a `String` that has the form. Memory is asked for to count its copies alone.
    pub fn new(alloc: Global, text: String) -> Result<Text<F>, AllocError>
        requires { F.is_form (string_bytes text) ≡ true }
        ensures { IfOk result (λ made. made ≡ string_bytes text) }
    {
        let front = front_of(text.as_bytes());
        let back = back_of(text.as_bytes());
        Ok(Text {
            front,
            back,
            text: Rc::new(alloc, text)?,
            form: PhantomData,
        })
    }

    /// The text itself, which has its form.
    pub fn as_str(&self) -> &str
        ensures value { result.now ≡ self.now }
        ensures form { F.is_form self.now ≡ true }
    {
        self.text.as_str()
    }

    /// The text as a `String`. Memory is asked for only where there are copies that share it.
    pub fn into_string(self) -> Result<String, AllocError>
        ensures { IfOk result (λ text. string_bytes text ≡ self) }
    {
        Rc::unwrap_or_clone(self.text)
    }

    /// Another text that is the same. It shares the bytes of this one and takes no memory; the
    /// allocator is there as for all that is copied.
    pub fn copy(&self, _alloc: Global) -> Result<Text<F>, AllocError>
        ensures { IfOk result (λ copied. copied ≡ self.now) }
    {
        Ok(Text {
            front: self.front,
            back: self.back,
            text: self.text.clone()?,
            form: PhantomData,
        })
    }

    /// The same text, of another form that it has too. As a copy it shares the bytes and takes no
    /// memory.
    pub fn shared<G: Form>(&self, _alloc: Global) -> Result<Text<G>, AllocError>
        requires { G.is_form self.now ≡ true }
        ensures { IfOk result (λ shared. shared ≡ self.now) }
    {
        Ok(Text {
            front: self.front,
            back: self.back,
            text: self.text.clone()?,
            form: PhantomData,
        })
    }
}

impl<F: Form> PartialEq for Text<F> {
    ghost eq = { is_same };

    ghost laws = { partial_equiv_from_equiv nat_list_eq_equiv };

    fn eq(&self, other: &Text<F>) -> bool {
        if self.front != other.front || self.back != other.back {
            return false;
        }
        is_short(self.back) || self.text == other.text
    }
}

impl<F: Form> Eq for Text<F> {
    ghost laws = { nat_list_eq_equiv };
}

impl<F: Form> PartialOrd for Text<F> {
    ghost partial_cmp = { λ a b. Some (slice_cmp nat_cmp a b) };

    ghost laws = { texts_po };

    fn partial_cmp(&self, other: &Text<F>) -> Option<Ordering> {
        Some(self.cmp(other))
    }
}

impl<F: Form> Ord for Text<F> {
    ghost cmp = { slice_cmp nat_cmp };

    ghost total = { nat_list_cmp_total };

    ghost matches_partial_cmp = { λ a b. refl };

    ghost matches_eq = { texts_ties };

    fn cmp(&self, other: &Text<F>) -> Ordering {
        if self.front != other.front {
            return self.front.cmp(&other.front);
        }
        if self.back != other.back {
            return self.back.cmp(&other.back);
        }
        if is_short(self.back) {
            return Ordering::Equal;
        }
        self.text.cmp(&other.text)
    }
}

// The first eight bytes as a number, the first of them the highest; a byte that is missing is 0.
#[tactic(auto, unfolding(crate::specs::Texts::front_of))]
fn front_of(bytes: &[u8]) -> u64
    ensures front { result ≡ front_of bytes.now }
    ensures bytes { AreBytes bytes.now }
{
    u64::from_be_bytes([
        byte_at(bytes, 0),
        byte_at(bytes, 1),
        byte_at(bytes, 2),
        byte_at(bytes, 3),
        byte_at(bytes, 4),
        byte_at(bytes, 5),
        byte_at(bytes, 6),
        byte_at(bytes, 7),
    ])
}

// The next seven bytes and the length as a number.
#[tactic(auto, unfolding(crate::specs::Texts::back_of))]
fn back_of(bytes: &[u8]) -> u64
    ensures { result ≡ back_of bytes.now }
{
    u64::from_be_bytes([
        byte_at(bytes, 8),
        byte_at(bytes, 9),
        byte_at(bytes, 10),
        byte_at(bytes, 11),
        byte_at(bytes, 12),
        byte_at(bytes, 13),
        byte_at(bytes, 14),
        short_length(bytes),
    ])
}

// How many bytes there are, or 16 where they are more than fifteen.
fn short_length(bytes: &[u8]) -> u8
    ensures { result ≡ short_length bytes.now }
{
    bytes.len().min(16) as u8
}

// Whether this back is one of a text of at most fifteen bytes.
fn is_short(back: u64) -> bool
    ensures { result ≡ is_short back }
{
    back % 256 < 16
}

fn byte_at(bytes: &[u8], place: usize) -> u8
    ensures { result ≡ slice_index bytes.now place }
{
    if place < bytes.len() { bytes[place] } else { 0 }
}

/// Writes the text itself, or what its form shows in its place.
impl<F: Form> fmt::Debug for Text<F> {
    ghost debug_output = { λ text. Some (F.shown text) };

    fn fmt<W: fmt::Write>(&self, f: &mut fmt::Formatter<W>) -> fmt::Result {
        f.write_str(F::shown(self.text.as_str()))
    }
}
