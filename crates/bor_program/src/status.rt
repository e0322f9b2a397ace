//! How a command ends.

ghost use Rattle.std.specs.Prelude.{◌≡◌, max};
ghost use Rattle.bor_program.specs.Program.{exit_code};

/// How a command ended, as its exit status tells.
#[derive(Clone, Copy, PartialEq, Eq)]
pub enum Status {
    /// It did what was asked.
    Done,
    /// It refused what was asked.
    Refused,
    /// The words on the command line ask for nothing that there is, or a value doesn't fit.
    Usage,
    /// A file, memory, the store or the network failed.
    Failed,
}

impl Status {
    /// The exit status.
    pub fn code(self) -> u8
        ensures { result ≡ exit_code self }
    {
        match self {
            Status::Done => 0,
            Status::Refused => 1,
            Status::Usage => 2,
            Status::Failed => 3,
        }
    }

    /// The one of the two with the greater exit status.
    pub fn worse(self, other: Status) -> Status
        ensures { exit_code result ≡ max (exit_code self) (exit_code other) }
    {
        if self.code() < other.code() {
            other
        } else {
            self
        }
    }
}
