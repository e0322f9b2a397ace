//! Why words ask for no command.

ghost use Rattle.std.specs.Prelude.{◌≡◌};
ghost use Rattle.bor_words.specs.Unread.{IsMemory, kind_of_answer};

use clap::Error;
use clap::error::ErrorKind;
use std::alloc::AllocError;
use std::fmt;

/// Why words ask for no command. Its `Display` is the text for the user.
#[derive(Debug, Drop)]
pub enum Unread<'a> {
    /// Clap's answer to a request for help or to words that ask for nothing, or want of memory.
    Answered(Error),
    /// A value doesn't fit its word.
    Unfit(Unfit<'a>),
    /// The registrar's token is none. It may be a secret all the same, so it isn't kept here.
    UnfitToken,
    /// The registrar's token is given neither by itself nor by a file.
    NoRegistrar,
    /// It is given by both.
    TwoRegistrars,
}

/// A value that doesn't fit its word.
#[derive(Clone, Copy, Debug, PartialEq, Eq)]
pub struct Unfit<'a> {
    /// The word, without its hyphens.
    pub word: &'static str,
    /// The value that was given.
    pub value: &'a str,
    /// The values that fit.
    pub fitting: &'static str,
}

impl Unread<'_> {
    /// The kind of the fault, or of the request for help. A value that doesn't fit, a token's too,
    /// is `ValueValidation`, a token that isn't given `MissingRequiredArgument`, and one that is
    /// given twice `ArgumentConflict`.
    pub fn kind(&self) -> ErrorKind
        ensures { result ≡ kind_of_answer self.now }
    {
        match self {
            Unread::Answered(error) => error.kind(),
            Unread::Unfit(_) | Unread::UnfitToken => ErrorKind::ValueValidation,
            Unread::NoRegistrar => ErrorKind::MissingRequiredArgument,
            Unread::TwoRegistrars => ErrorKind::ArgumentConflict,
        }
    }
}

impl fmt::Display for Unfit<'_> {
    fn fmt<W: fmt::Write>(&self, f: &mut fmt::Formatter<W>) -> fmt::Result {
        let word = self.word;
        let value = self.value;
        let fitting = self.fitting;
        writeln!(
            f,
            "error: invalid value '{value}' for '--{word}': it has to be {fitting}"
        )
    }
}

impl fmt::Display for Unread<'_> {
    fn fmt<W: fmt::Write>(&self, f: &mut fmt::Formatter<W>) -> fmt::Result {
        match self {
            Unread::Answered(error) => write!(f, "{error}"),
            Unread::Unfit(unfit) => write!(f, "{unfit}"),
            Unread::UnfitToken => writeln!(
                f,
                "error: invalid value for '--registrar': it has to be a token, 16 to 64 visible ASCII characters"
            ),
            Unread::NoRegistrar => writeln!(
                f,
                "error: one of '--registrar <TOKEN>' and '--registrar-file <FILE>' has to be given"
            ),
            Unread::TwoRegistrars => writeln!(
                f,
                "error: '--registrar <TOKEN>' and '--registrar-file <FILE>' can't both be given"
            ),
        }
    }
}

impl From<AllocError> for Unread<'_> {
    ghost from_gives = { λ _ unread. IsMemory unread };

    fn from(error: AllocError) -> Self {
        Unread::Answered(Error::from(error))
    }
}
