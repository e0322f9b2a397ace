//! A system that opens files by their names.

ghost use Rattle.std.specs.Prelude.{⊤, IfOk};
ghost use Rattle.std.specs.Borrow.{Bor};
ghost use Rattle.clap.specs.Words.{Text as Words};

use std::fs;
use std::io::{self, Read};
use std::rt::Files;

/// A system that opens files by their names.
pub trait NamedFiles {
    /// A file that is open, and read from its beginning.
    type File: Read + Drop;

    /// This file is opened by this name.
    ghost opens: { Self → Bor Words → Self.File → Type 0 };

    /// The file of this name.
    ///
    /// # Errors
    ///
    /// It can't be opened.
    fn open_named(&self, name: &str) -> io::Result<Self::File>
        ensures { IfOk result (λ file. opens self.now name.entry file) };
}

impl<R: Files> NamedFiles for R {
    type File = R::File;

    ghost opens = { λ _ _ _. ⊤ };

    fn open_named(&self, name: &str) -> io::Result<R::File> {
        fs::open(self, name)
    }
}
