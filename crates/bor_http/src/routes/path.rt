//! The paths that there are, and which of them a text is.
ghost use Rattle.std.specs.Prelude.{◌≡◌, ◌↔◌, Some, IfOk, OnOk};
ghost use Rattle.bor_http.specs.declared.incoming.fault.Path.{Path};
ghost use Rattle.bor_http.specs.Routes.Paths.{IsPath, path_of, path_spelled};
ghost use Rattle.bor_http.specs.Routes.Routers.{path_in, router, with_path};

use crate::incoming::Path;
use crate::routes::route::lines;
use matchit::{InsertError, Router};
use std::alloc::{AllocError, Global};

// The path of a router that a text matches.
fn matched(router: &Router<Path>, text: &str) -> Option<Path>
    ensures { result ≡ path_in router.now text.now }
{
    match router.at(text) {
        Ok(found) => Some(*found.value),
        Err(_) => None,
    }
}

// Adds the path of a line, unless the router finds it already: a path has a line for each method.
fn add(router: &mut Router<Path>, path: Path) -> Result<(), InsertError>
    ensures { OnOk result (router.new ≡ with_path router.old path) }
{
    match matched(router, path.as_str()) {
        Some(_) => Ok(()),
        None => router.insert(path.as_str(), path),
    }
}

// The router that has the paths of all lines.
fn router_of_paths(alloc: Global) -> Result<Router<Path>, InsertError>
    ensures { IfOk result (λ paths. paths ≡ router) }
{
    let mut router = Router::new(alloc);
    for line in lines() {
        add(&mut router, line.0)?;
    }
    Ok(router)
}

/// The paths that there are. They are made once and asked for any number of texts.
#[derive(Drop)]
pub struct Paths {
    kept: Router<Path>,
    ghost all: { kept ≡ router },
}

impl Paths {
    /// All paths. It fails where memory is wanting.
    pub fn new(alloc: Global) -> Result<Paths, AllocError> {
        match router_of_paths(alloc) {
            Ok(kept) => Ok(Paths { kept }),
            Err(_) => Err(AllocError),
        }
    }

    /// The path that a text is, if it is one. The text is what stands before a target's first `?`.
    /// No memory is taken.
    #[tactic(auto, using(crate::proofs::OnRoutes::Segments::value, crate::proofs::OnRoutes::AsWritten::written))]
    pub fn find(&self, text: &str) -> Option<Path>
        // By its segments, word for word.
        ensures value { result ≡ path_of text.now }
        // Of each path: it is found exactly where the text is the path as it is written.
        ensures written { (path : Path) → (result ≡ Some path) ↔ IsPath path text.now }
    {
        matched(&self.kept, text)
    }

    /// The path that bytes are, if they are a text in UTF-8 that is one. No memory is taken.
    pub fn find_bytes(&self, bytes: &[u8]) -> Option<Path>
        ensures { result ≡ path_spelled bytes.now }
    {
        match str::from_utf8(bytes) {
            Ok(text) => self.find(text),
            Err(_) => None,
        }
    }
}
