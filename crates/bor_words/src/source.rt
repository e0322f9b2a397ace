//! Where a file is read.

ghost use Rattle.std.specs.Prelude.{◌≡◌, codes, option_and_then, option_map};
ghost use Rattle.bor_words.specs.Asked.{name_of, source_text};
ghost use Rattle.bor_words.specs.Words.{file_named};

/// Where a file's bytes are read.
#[derive(Clone, Copy, Debug, PartialEq, Eq)]
pub enum Source<'a> {
    StandardInput,
    /// The file of this name.
    File(&'a str),
}

impl<'a> Source<'a> {
    /// How a failure names it.
    pub fn name(self) -> &'a str
        ensures { result.now ≡ source_text self.entry }
    {
        match self {
            Source::StandardInput => "standard input",
            Source::File(name) => name,
        }
    }

    /// The file of this name, if one is named. A hyphen names standard input.
    pub(crate) fn of(name: Option<&'a str>) -> Self
        ensures { name_of result
            ≡ option_and_then file_named (option_map (λ text. text.now) name.entry) }
    {
        match name {
            Some("-") | None => Source::StandardInput,
            Some(name) => Source::File(name),
        }
    }
}
