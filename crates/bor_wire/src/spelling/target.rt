//! The path and the query of a target, and the key or the name in a path.
ghost use Rattle.std.specs.Prelude.{◌≡◌, drop};
ghost use Rattle.bor_http.specs.declared.incoming.fault.Refusal.TheVariants.{NoPath};
ghost use Rattle.bor_http.specs.declared.incoming.fault.Name.TheVariants as names;
ghost use Rattle.bor_http.specs.Routes.Paths.{path_spelled};
ghost use Rattle.bor_wire.specs.Spelling.Parts.{key_in, name_in};
ghost use Rattle.bor_wire.specs.Spelling.Steps.{FindsStated, or_refuse, named};

use bor_http::incoming::{Name, Path, Refusal, WireFault, split_at_first};
use bor_http::routes::Paths;
use bor_terms::{AgentName, LodgeKey};
use std::alloc::Global;

/// The path that bytes are.
pub(crate) fn path_at(paths: &Paths, text: &[u8]) -> Result<Path, WireFault>
    ensures { FindsStated (λ path. path) result (or_refuse NoPath (path_spelled text.now)) }
{
    match paths.find_bytes(text) {
        Some(path) => Ok(path),
        None => Err(WireFault::Refused(Refusal::NoPath)),
    }
}

// The bytes behind so many.
fn behind(bytes: &[u8], count: usize) -> &[u8]
    ensures { result.now ≡ drop count bytes.now }
{
    if bytes.len() < count {
        &[]
    } else {
        &bytes[count..]
    }
}

/// The key in the path of a filing.
#[tactic(auto, unfolding(crate::specs::Spelling::Parts::key_in), using(crate::proofs::OnSpelling::Texts::texts))]
pub(crate) fn key_at(alloc: Global, path: &[u8]) -> Result<LodgeKey, WireFault>
    ensures { FindsStated (λ key. key) result (named names.Key (key_in path.now)) }
{
    let (segment, _) = split_at_first(behind(path, 9), b'/');
    let Ok(text) = str::from_utf8(segment) else {
        return Err(WireFault::Refused(Refusal::BadQuery(Name::Key)));
    };
    match LodgeKey::read(alloc, text)? {
        Some(key) => Ok(key),
        None => Err(WireFault::Refused(Refusal::BadQuery(Name::Key))),
    }
}

/// The name in the path of an agent.
#[tactic(auto, unfolding(crate::specs::Spelling::Parts::name_in), using(crate::proofs::OnSpelling::Texts::texts))]
pub(crate) fn name_at(alloc: Global, path: &[u8]) -> Result<AgentName, WireFault>
    ensures { FindsStated (λ name. name) result (named names.Name (name_in path.now)) }
{
    let Ok(text) = str::from_utf8(behind(path, 8)) else {
        return Err(WireFault::Refused(Refusal::BadQuery(Name::Name)));
    };
    match AgentName::read(alloc, text)? {
        Some(name) => Ok(name),
        None => Err(WireFault::Refused(Refusal::BadQuery(Name::Name))),
    }
}
