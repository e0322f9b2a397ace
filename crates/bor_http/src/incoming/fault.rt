//! Why no request was read.

ghost use Rattle.std.specs.Prelude.{◌≡◌};
ghost use Rattle.bor_http.specs.Incoming.Words.{name_word, path_word, refusal_word, refused_name};

use std::alloc::AllocError;

/// The paths that there are.
#[derive(Clone, Copy, Debug, PartialEq, Eq)]
pub enum Path {
    /// A filing, by its key.
    Filing,
    /// The caller's filings.
    Filings,
    /// The file of a filing.
    File,
    /// What is published.
    Published,
    /// The open records of a declaration.
    Snapshot,
    /// The persons behind an entity.
    Chains,
    /// Why they are named.
    Evidence,
    /// The entities that have an identifier.
    Entities,
    /// The day.
    Day,
    /// The agents.
    Agents,
    /// An agent, by its name.
    Agent,
    /// The day and the agents.
    Register,
}

impl Path {
    /// The path as it is written, with `{key}` for a key and `{name}` for a name.
    pub fn as_str(self) -> &'static str
        ensures { result.now ≡ path_word self }
    {
        match self {
            Path::Filing => "/filings/{key}",
            Path::Filings => "/filings",
            Path::File => "/filings/{key}/file",
            Path::Published => "/published",
            Path::Snapshot => "/snapshot",
            Path::Chains => "/chains",
            Path::Evidence => "/evidence",
            Path::Entities => "/entities",
            Path::Day => "/day",
            Path::Agents => "/agents",
            Path::Agent => "/agents/{name}",
            Path::Register => "/register",
        }
    }
}

/// The names of what routes ask for, in a path, a query or a body.
#[derive(Clone, Copy, Debug, PartialEq, Eq)]
pub enum Name {
    /// The key of a filing, a segment of the path.
    Key,
    /// The day on which a filing is due.
    Due,
    /// The agent whose declaration is asked for.
    Agent,
    /// The declaration that is asked for.
    Declaration,
    /// The record whose persons are asked for.
    Record,
    /// The scheme of the identifier that is asked for.
    Scheme,
    /// The identifier that is asked for, within its scheme.
    Id,
    /// The day of a report, or the one that the register is to have.
    Date,
    /// The name of an agent that is enrolled or whose token is renewed; of the latter it is a segment
    /// of the path.
    Name,
    /// The token that an agent gets, which is the body.
    Token,
}

impl Name {
    /// The name as it stands in a query and in a refusal.
    #[tactic(auto, unfolding(crate::specs::Incoming::Words::name_word))]
    pub fn as_str(self) -> &'static str
        ensures { result.now ≡ name_word self }
    {
        match self {
            Name::Key => "key",
            Name::Due => "due",
            Name::Agent => "agent",
            Name::Declaration => "declaration",
            Name::Record => "record",
            Name::Scheme => "scheme",
            Name::Id => "id",
            Name::Date => "date",
            Name::Name => "name",
            Name::Token => "token",
        }
    }
}

/// Why bytes are no request, the first that holds in this order; `CutShort` stands in two places of
/// it. What the register shows stays as it is.
#[derive(Clone, Copy, Debug, PartialEq, Eq)]
pub enum Refusal {
    /// No head ends within the first 16,384 bytes, of which there are as many; or the head has more
    /// than 66 line feeds.
    HeadTooLarge,
    /// The input ended without a head, with fewer than 16,384 bytes; or, after `BodyTooLarge`,
    /// within the body.
    CutShort,
    /// The bytes up to the empty line aren't one request line with fields (RFC 9112).
    BadHead,
    /// There is a `Transfer-Encoding`, there is more than one `Content-Length`, or the one there is
    /// isn't one or more digits.
    BadLength,
    /// `Content-Length` is more than 1,048,576.
    BodyTooLarge,
    /// The target has no route: it doesn't begin with `/`, or its path is none that there is.
    NoPath,
    /// The path, which is this one, hasn't the method.
    WrongMethod(Path),
    /// There isn't exactly one `Authorization`, or its value isn't `Bearer`, spaces and a token.
    NoToken,
    /// This is the first name of the route that is missing, occurs twice, or doesn't fit.
    BadQuery(Name),
}

impl Refusal {
    /// The refusal's name, as a reply shows it.
    #[tactic(auto, unfolding(crate::specs::Incoming::Words::refusal_word))]
    pub fn as_str(self) -> &'static str
        ensures { result.now ≡ refusal_word self }
    {
        match self {
            Refusal::HeadTooLarge => "HeadTooLarge",
            Refusal::CutShort => "CutShort",
            Refusal::BadHead => "BadHead",
            Refusal::BadLength => "BadLength",
            Refusal::BodyTooLarge => "BodyTooLarge",
            Refusal::NoPath => "NoPath",
            Refusal::WrongMethod(_) => "WrongMethod",
            Refusal::NoToken => "NoToken",
            Refusal::BadQuery(_) => "BadQuery",
        }
    }

    /// The name that it is about, where it is about one.
    pub fn name(self) -> Option<Name>
        ensures { result ≡ refused_name self }
    {
        match self {
            Refusal::BadQuery(name) => Some(name),
            _ => None,
        }
    }
}

/// Why a call gives no request.
#[derive(Clone, Copy, Debug, PartialEq, Eq)]
pub enum WireFault {
    /// The bytes are no request.
    Refused(Refusal),
    /// The reader failed; an interruption is a failure.
    Read,
    /// Memory was refused.
    Memory,
}

impl From<AllocError> for WireFault {
    ghost use Rattle.bor_http.specs.declared.incoming.fault.WireFault.TheVariants.{Memory};

    ghost from_gives = { λ _ fault. fault ≡ Memory };

    fn from(_: AllocError) -> WireFault {
        WireFault::Memory
    }
}
