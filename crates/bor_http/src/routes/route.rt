//! The table of routes, and the methods of a path.
ghost use Rattle.std.specs.Prelude.{◌≡◌, ◌&&◌, map, Some};
ghost use Rattle.std.specs.Str.{bytes_eq};
ghost use Rattle.bor_http.specs.Routes.Routes as spec;

use crate::incoming::Path;

/// The request of a path by a method.
#[derive(Clone, Copy, Debug, PartialEq, Eq)]
pub enum Route {
    /// Lodges the body as a file.
    Lodge,
    /// Withdraws a draft.
    Withdraw,
    /// Lists the caller's own filings.
    Filings,
    /// Gives the bytes of the caller's own filing.
    File,
    /// Lists what is published.
    Published,
    /// Shows the open records of a declaration.
    Snapshot,
    /// Names the persons behind an entity.
    Chains,
    /// Tells why the persons behind an entity are named.
    Evidence,
    /// Finds the entities that have an identifier.
    Entities,
    /// Moves the register's day.
    Day,
    /// Enrols an agent.
    Enrol,
    /// Renews an agent's token.
    Renew,
    /// Shows the register's day and its agents.
    Register,
}

/// The table of routes, in the order of [`Route`]: the path and the method that each is asked for
/// by.
const ROUTES: [(Path, &str, Route); 13] = [
    (Path::Filing, "PUT", Route::Lodge),
    (Path::Filing, "DELETE", Route::Withdraw),
    (Path::Filings, "GET", Route::Filings),
    (Path::File, "GET", Route::File),
    (Path::Published, "GET", Route::Published),
    (Path::Snapshot, "GET", Route::Snapshot),
    (Path::Chains, "GET", Route::Chains),
    (Path::Evidence, "GET", Route::Evidence),
    (Path::Entities, "GET", Route::Entities),
    (Path::Day, "POST", Route::Day),
    (Path::Agents, "POST", Route::Enrol),
    (Path::Agent, "PUT", Route::Renew),
    (Path::Register, "GET", Route::Register),
];

// The lines of the table.
pub(super) fn lines() -> &'static [(Path, &'static str, Route)]
    ensures { map spec.line_said result.now ≡ spec.route_table }
{
    &ROUTES
}

// Whether a line has the path and the method.
#[tactic(auto, using(crate::proofs::OnRoutes::Lines::same_path, crate::proofs::OnRoutes::Lines::other_path))]
fn has_both(line: &(Path, &'static str, Route), path: Path, method: &[u8]) -> bool
    ensures { result ≡ (spec.is_same_path line.now.0 path
        && bytes_eq line.now.1.now method.now) }
{
    line.0 == path && line.1.as_bytes() == method
}

/// The route of a path by a method (RFC 9110, 9.3), if it has the method. Methods are compared as
/// they stand: `get` and `HEAD` are not `GET`.
#[tactic(auto, unfolding(crate::specs::Routes::Routes::route_at))]
pub fn route_at(path: Path, method: &[u8]) -> Option<Route>
    ensures { result ≡ spec.route_at path method.now }
{
    for line in lines() {
        if has_both(line, path, method) {
            return Some(line.2);
        }
    }
    None
}

/// The path and the method that a route is asked for by.
#[tactic(auto, unfolding(crate::specs::Routes::Routes::route_at))]
pub fn line_of(route: Route) -> (Path, &'static str)
    ensures path { result.0 ≡ (spec.route_line route).path }
    ensures method { result.1.now ≡ (spec.route_line route).method }
    ensures route { spec.route_at result.0 result.1.now ≡ Some route }
{
    let (path, method, _) = lines()[route as usize];
    (path, method)
}

/// The methods of a path, as `Allow` tells them in a 405 reply (RFC 9110, 10.2.1).
#[tactic(auto, unfolding(crate::specs::Routes::Routes::allow))]
pub fn allow_of(path: Path) -> &'static str
    ensures { result.now ≡ spec.allow path }
{
    match path {
        Path::Filing => "DELETE, PUT",
        Path::Day | Path::Agents => "POST",
        Path::Agent => "PUT",
        _ => "GET",
    }
}
