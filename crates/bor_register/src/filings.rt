//! An agent's filings: the one under a key, and their lines.

ghost use Rattle.std.specs.Prelude.{◌≡◌, IfOk, map, option_map};
ghost use Rattle.bor_register.specs.Register.{filing_keyed};
ghost use Rattle.bor_register.specs.Publication.{line_of, filing_shown, has_bytes};

use crate::filing::{AcceptedFiling, Filing, FilingLine};
use bor_terms::{Day, LodgeKey};
use std::alloc::{AllocError, Global};

fn filing_with<'a>(filings: &'a [AcceptedFiling], key: &LodgeKey) -> Option<&'a AcceptedFiling>
    ensures { option_map (λ f. f.now) result ≡ filing_keyed key.now filings.now }
{
    for filing in filings {
        if filing.key == *key {
            return Some(filing);
        }
    }
    None
}

/// The filing under a key as its agent reads it.
pub(crate) fn filing_under(
    alloc: Global,
    filings: &[AcceptedFiling],
    key: &LodgeKey,
) -> Result<Option<Filing>, AllocError>
    ensures { IfOk result (λ filing.
        filing ≡ option_map filing_shown (filing_keyed key.now filings.now)) }
{
    match filing_with(filings, key) {
        Some(filing) => Ok(Some(filing.shown(alloc)?)),
        None => Ok(None),
    }
}

/// The line of the filing under a key.
pub(crate) fn line_under(
    alloc: Global,
    filings: &[AcceptedFiling],
    key: &LodgeKey,
    day: Day,
) -> Result<Option<FilingLine>, AllocError>
    ensures { IfOk result (λ line.
        line ≡ option_map (line_of day) (filing_keyed key.now filings.now)) }
{
    match filing_with(filings, key) {
        Some(filing) => Ok(Some(filing.line(alloc, day)?)),
        None => Ok(None),
    }
}

/// Whether there is a filing under the key whose file has these bytes.
pub fn is_filed(filings: &[AcceptedFiling], key: &LodgeKey, bytes: &[u8]) -> bool
    ensures { result ≡ has_bytes bytes.now (filing_keyed key.now filings.now) }
{
    match filing_with(filings, key) {
        Some(filing) => filing.bytes.as_slice() == bytes,
        None => false,
    }
}

/// The lines of an agent's filings on a day, in order of acceptance.
pub(crate) fn all_lines(
    alloc: Global,
    filings: &[AcceptedFiling],
    day: Day,
) -> Result<Vec<FilingLine>, AllocError>
    ensures { IfOk result (λ lines. lines.items ≡ map (line_of day) filings.now) }
{
    let mut lines = Vec::new(alloc);
    for filing in filings {
        lines.push(filing.line(alloc, day)?)?;
    }
    Ok(lines)
}
