//! The machine that the program runs on: registers in files of SQLite, and ports of 127.0.0.1.

ghost use Rattle.std.specs.Prelude.{◌≡◌, ⊤, Ok, Err, IfErr, IfOk, MatchResult, OnOk};
ghost use Rattle.bor_program.specs.Failures.{IsOpeningOf};
ghost use Rattle.bor_register.specs.Register.{Register};
ghost use Rattle.bor_store.specs.Opening.{HoldsRegister, IsClosing};
ghost use Rattle.sqlite.specs.Files.{file_state};
ghost use Rattle.sqlite_wal.specs.Files.{image_at};
ghost use Rattle.bor_program.specs.Deeds.{Moves};
ghost use Rattle.bor.specs.Machine.{FindsOrSetsUp, IsDeedDone, IsMoved, opening_failure};

use crate::served::ServedRegister;
use crate::setup::find_or_set_up;
use crate::waiting::{Waiting, time};
use bor_desk::mirror::Notice;
use bor_desk::operations::Keep;
use bor_program::{Answering, Failure, Opened, Ports, Registers, Stage};
use bor_store::{OpenFault, SqlKeep, close_files, connect, migrate, statements_within};
use bor_terms::{Day, Token};
use mio::net;
use sqlite::{FileFrom, FileStore, Start};
use std::cell::Cell;
use std::fs::{self, OpenOptions};
use std::io::{self, ErrorKind, IsTerminal, Write};
use std::net::{SocketAddr, TcpListener};
use std::os::unix::fs::OpenOptionsExt;
use std::time::Duration;

// A command that was silent for so many seconds tells where it is.
const SILENCE: u64 = 1;

// Before so many requests are answered, a line says so: over a file each may wait for the disk.
const MANY: usize = 20;

// Before a file of so many bytes is opened, a line says so: it takes about a second.
const LARGE: u64 = 33_554_432;

/// A register in a file that is open, and in memory beside it where it is served from there.
pub type Served<'r, S> = ServedRegister<FileStore<FileFrom<S>>, Telling<'r>>;

/// The host: it opens registers in files of SQLite, and listens on ports of 127.0.0.1. `S` stands
/// for what a file and its log hold as they are opened. Where standard error is a terminal, it
/// tells there where a command is that takes long; and where standard input is one, that a file is
/// read from it.
#[derive(Drop)]
pub struct Host<'r, S> {
    rt: &'r HostRuntime,
    start: S,
    told: Cell<Duration>,
}

impl<'r, S> Host<'r, S> {
    /// The machine that this process runs on.
    pub fn new(rt: &'r HostRuntime, start: S) -> Self {
        Host {
            rt,
            start,
            told: Cell::new(time(rt)),
        }
    }

    // Whether it is time to tell where a command is: somebody has to type what is read next, and
    // else, on a terminal, a file is opened that takes long, many requests are answered next, or
    // nothing was printed for a second.
    fn is_due(&self, stage: Stage<'_>) -> bool {
        match stage {
            Stage::Input => self.rt.stdin().is_terminal(),
            _ => self.rt.stderr().is_terminal() && self.is_long(stage),
        }
    }

    // Whether a stage may take long, or nothing was printed for a second.
    fn is_long(&self, stage: Stage<'_>) -> bool {
        match stage {
            Stage::Opening(path) => is_large(self.rt, path),
            Stage::Answering(count) if count >= MANY => true,
            _ => time(self.rt).saturating_sub(self.told.get()).as_secs() >= SILENCE,
        }
    }

    // Prints where a command is, where it is time to.
    fn print(&self, stage: Stage<'_>) {
        if !self.is_due(stage) {
            return;
        }
        self.told.set(time(self.rt));
        let mut errors = self.rt.stderr();
        let _ = match stage {
            Stage::Opening(path) => writeln!(errors, "bor: opening {path}"),
            Stage::Reading { read, files } => {
                writeln!(errors, "bor: read {read} of {files} files")
            }
            Stage::Answering(count) => writeln!(errors, "bor: answering {count} requests"),
            Stage::Input => writeln!(
                errors,
                "bor: reading a file from standard input, end with Ctrl-D"
            ),
            Stage::Reporting => writeln!(errors, "bor: reporting"),
            Stage::Filling => writeln!(errors, "bor: reading the register into memory"),
        };
    }
}

/// Tells whether a register is read from memory: on a terminal, and in the log where there is one.
#[derive(Clone, Copy)]
pub struct Telling<'r> {
    rt: &'r HostRuntime,
    log: bool,
}

impl Telling<'_> {
    // So many statements are in memory; `None` where the file is read.
    fn tell(&self, mirrored: Option<usize>) {
        let mut errors = self.rt.stderr();
        if !self.log && !errors.is_terminal() {
            return;
        }
        let _ = match mirrored {
            Some(count) => writeln!(errors, "bor: {count} statements in memory"),
            None => writeln!(errors, "bor: no statements in memory, the file is read"),
        };
    }
}

impl Notice for Telling<'_> {
    fn let_go(&self) {
        self.tell(None);
    }
}

impl<'r, S: Start + Copy> Registers for Host<'r, S> {
    type Register = Served<'r, S>;

    ghost does = { let served = ⟦<Served<'r, S> as Answering>⟧ in
        λ _ deed _. IsDeedDone served.meaning (λ k. k.keep.0.conn)
        (λ c. (closed : _) × IsClosing c closed)
        (HoldsRegister (image_at S.Start))
        (λ opened left. IsMoved (image_at S.Start) (file_state opened) (file_state left)) deed };

    fn reach(&self, stage: Stage<'_>) {
        self.print(stage);
    }

    fn open<'a>(&mut self, path: &'a str) -> Result<Served<'r, S>, Failure<'a>> {
        find(self.rt, path)?;
        told_of(path, open_in(self.rt, path, self.start, 0, false))
    }

    fn open_or_set_up<'a>(
        &mut self,
        path: &'a str,
        registrar: &Token,
        day: Day,
    ) -> Result<Opened<Served<'r, S>>, Failure<'a>> {
        told_of(path, opened_in(self.rt, path, self.start, registrar, day))
    }

    fn migrate<'a>(&mut self, path: &'a str) -> Result<(), Failure<'a>> {
        find(self.rt, path)?;
        told_of(path, migrate_in(self.rt, path, self.start))
    }

    fn close(&mut self, _path: &str, register: Served<'r, S>) {
        let _ = register.close();
    }
}

impl<'r, S: Start + Copy> Ports for Host<'r, S> {
    type Listener = TcpListener;

    type Waiter = Waiting<'r>;

    ghost listens = { λ _ _ _. ⊤ };

    ghost waits = { λ _ log waiting. waiting.log ≡ log };

    // A server is asked often, so it has its register in memory too, where there is room.
    fn open_to_serve<'a>(
        &mut self,
        path: &'a str,
        memory: u32,
        log: bool,
    ) -> Result<Served<'r, S>, Failure<'a>> {
        find(self.rt, path)?;
        told_of(path, filled_in(self, path, statements_within(memory), log))
    }

    fn listen(&self, port: u16) -> Option<TcpListener> {
        let address = SocketAddr::from(([127, 0, 0, 1], port));
        let listener = net::TcpListener::bind(self.rt, address).ok()?;
        Some(TcpListener::from(listener))
    }

    fn waiter(&self, log: bool) -> Waiting<'r> {
        Waiting::new(self.rt, log)
    }
}

// Whether opening the file of this name takes long.
fn is_large(rt: &HostRuntime, path: &str) -> bool {
    match fs::metadata(rt, path) {
        Ok(found) => found.len() >= LARGE,
        Err(_) => false,
    }
}

// Looks whether the file of this name may have a register.
fn find<'a>(rt: &HostRuntime, path: &'a str) -> Result<(), Failure<'a>>
    ensures { IfErr result (IsOpeningOf path.entry) }
{
    match is_vacant(rt, path) {
        Ok(true) => Err(Failure::NoRegister(path)),
        Ok(false) => Ok(()),
        Err(error) if error.kind() == ErrorKind::OutOfMemory => Err(Failure::Memory),
        Err(_) => Err(Failure::Store),
    }
}

// Whether there is no file of this name, or one of at most a byte with no log beside it, of which
// SQLite would make a database.
fn is_vacant(rt: &HostRuntime, path: &str) -> io::Result<bool> {
    match fs::metadata(rt, path) {
        Ok(found) => {
            let log = format!(in rt.alloc(); "{path}-wal")?;
            Ok(found.len() <= 1 && !fs::exists(rt, log.as_str())?)
        }
        Err(error) if error.kind() == ErrorKind::NotFound => Ok(true),
        Err(error) => Err(error),
    }
}

// The register in the file of this name, without a mirror; one of at most so many statements may be
// made.
fn open_in<'r, S: Start>(
    rt: &'r HostRuntime,
    path: &str,
    start: S,
    most: u32,
    log: bool,
) -> Result<Served<'r, S>, OpenFault>
    ensures { let served = ⟦<Served<'r, S> as Answering>⟧ in
        IfOk result (λ register. served.meaning.is_clean register → (r : Register)
        → HoldsRegister (image_at S.Start) r → served.meaning.shows register r) }
{
    let opened = SqlKeep::open(rt, path, start);
    ServedRegister::opened(opened, most, Telling { rt, log })
}

// The register in the file of this name, with a mirror where there is room for one, which is told.
fn filled_in<'r, S: Start + Copy>(
    host: &Host<'r, S>,
    path: &str,
    most: u32,
    log: bool,
) -> Result<Served<'r, S>, OpenFault>
    ensures { let served = ⟦<Served<'r, S> as Answering>⟧ in
        IfOk result (λ register. served.meaning.is_clean register → (r : Register)
        → HoldsRegister (image_at S.Start) r → served.meaning.shows register r) }
{
    let mut register = open_in(host.rt, path, host.start, most, log)?;
    host.print(Stage::Filling);
    let mirrored = register.fill();
    Telling { rt: host.rt, log }.tell(mirrored);
    Ok(register)
}

// The register in the file of this name, or one that is set up in it where it has none, without a
// mirror.
fn opened_in<'r, S: Start>(
    rt: &'r HostRuntime,
    path: &str,
    start: S,
    registrar: &Token,
    day: Day,
) -> Result<Opened<Served<'r, S>>, OpenFault>
    ensures { let served = ⟦<Served<'r, S> as Answering>⟧ in
        IfOk result (λ opened.
        FindsOrSetsUp served.meaning (HoldsRegister (image_at S.Start)) registrar.now day
        opened.register opened.origin) }
{
    make_private(rt, path);
    let conn = connect(rt, path, start)?;
    find_or_set_up(rt.alloc(), conn, registrar, day, Telling { rt, log: false })
}

// Makes the file of this name for its owner alone, where there is none: a register has tokens and
// drafts. Its log is made as it is. Where it can't be made, opening it tells why; the name
// `:memory:` stands for no file.
fn make_private(rt: &HostRuntime, path: &str) {
    if path == ":memory:" {
        return;
    }
    let _ = OpenOptions::new()
        .write(true)
        .create_new(true)
        .mode(0o600)
        .open(rt, path);
}

// Moves the register in the file of this name to the tables of this program, and closes the file.
fn migrate_in<S: Start>(rt: &HostRuntime, path: &str, start: S) -> Result<(), OpenFault>
    ensures { let keep = ⟦<SqlKeep<FileStore<FileFrom<S>>> as Keep>⟧ in OnOk result
        (IsDeedDone keep.meaning (λ k. k.conn) (λ c. (closed : _) × IsClosing c closed)
        (HoldsRegister (image_at S.Start))
        (λ opened left. IsMoved (image_at S.Start) (file_state opened) (file_state left))
        (Moves path.entry)) }
{
    let mut conn = connect(rt, path, start)?;
    let migrated = migrate(&mut conn, rt.alloc());
    let _ = close_files(conn);
    migrated
}

// The register that was opened, or the failure of opening the file of this name.
fn told_of<T>(path: &str, opened: Result<T, OpenFault>) -> Result<T, Failure<'_>>
    ensures told { MatchResult opened (λ register. result ≡ Ok register)
        (λ fault. result ≡ Err (opening_failure path.entry fault)) }
    ensures err { IfErr result (IsOpeningOf path.entry) }
{
    match opened {
        Ok(register) => Ok(register),
        Err(fault) => Err(failure_of(path, fault)),
    }
}

// The failure that a fault of opening the file of this name is reported as.
fn failure_of(path: &str, fault: OpenFault) -> Failure<'_>
    ensures is { result ≡ opening_failure path.entry fault }
    ensures opening { IsOpeningOf path.entry result }
{
    match fault {
        OpenFault::NoRegister => Failure::NoRegister(path),
        OpenFault::OtherVersion(version) => Failure::OtherVersion(path, version),
        OpenFault::Taken => Failure::Taken(path),
        OpenFault::Memory => Failure::Memory,
        OpenFault::Damaged | OpenFault::Store => Failure::Store,
    }
}
