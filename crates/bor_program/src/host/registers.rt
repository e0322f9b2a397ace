//! The system that opens the registers in files.

ghost use Rattle.std.specs.Prelude.{IfErr, IfOk, OnOk};
ghost use Rattle.bor_program.specs.Deeds.{ComesToBe, Deed, Closes, Fails, Moves, Opens};
ghost use Rattle.bor_program.specs.Failures.{IsOpeningOf};

use crate::failure::Failure;
use crate::host::{OpenRegister, Opened, Stage};
use bor_terms::{Day, Token};

/// The system that opens the registers in files. Its states stand for those of the files: what is
/// done to them leads from one to another.
pub trait Registers {
    /// A register in a file.
    type Register: OpenRegister + Drop;

    /// This is done to the registers in files, and leads from one state of them to another.
    ghost does: { Self → Deed Self.Register → Self → Type 0 };

    /// Tells whoever waits for a command where it is, in a line on standard error, or doesn't.
    /// Nothing is done to the registers in files.
    fn reach(&self, stage: Stage<'_>);

    /// The register in the file of this name. Where there is none, none is made.
    ///
    /// # Errors
    ///
    /// `NoRegister`, `OtherVersion` or `Taken` of this file; `Memory`; `Store`.
    fn open<'a>(&mut self, path: &'a str) -> Result<Self::Register, Failure<'a>>
        ensures ok { IfOk result (λ register. does self.old (Opens path.entry register) self.new) }
        ensures err { IfErr result (λ failure. does self.old (Fails path.entry failure) self.new) }
        ensures cause { IfErr result (IsOpeningOf path.entry) };

    /// The register in the file of this name; where it has none, one of this day and registrar is
    /// set up.
    ///
    /// # Errors
    ///
    /// `NoRegister`, `OtherVersion` or `Taken` of this file; `Memory`; `Store`.
    fn open_or_set_up<'a>(
        &mut self,
        path: &'a str,
        registrar: &Token,
        day: Day,
    ) -> Result<Opened<Self::Register>, Failure<'a>>
        ensures ok { IfOk result (λ opened.
            ComesToBe Self.Register.meaning path.entry registrar.now day
            opened.register opened.origin (λ deed. does self.old deed self.new)) }
        ensures err { IfErr result (λ failure. does self.old (Fails path.entry failure) self.new) }
        ensures cause { IfErr result (IsOpeningOf path.entry) };

    /// Moves the register in the file of this name to the tables of this program; one that has them
    /// stays as it is. Where there is no register, none is made.
    ///
    /// # Errors
    ///
    /// `NoRegister`, `OtherVersion` or `Taken` of this file; `Memory`; `Store`.
    fn migrate<'a>(&mut self, path: &'a str) -> Result<(), Failure<'a>>
        ensures ok { OnOk result (does self.old (Moves path.entry) self.new) }
        ensures err { IfErr result (λ failure. does self.old (Fails path.entry failure) self.new) }
        ensures cause { IfErr result (IsOpeningOf path.entry) };

    /// Closes the register that is left in the file of this name, so that the file has all of it
    /// without the log beside it, as far as that can be done. Nothing that was answered is lost
    /// where it can't.
    fn close(&mut self, path: &str, register: Self::Register)
        ensures { does self.old (Closes path.entry register) self.new };
}
