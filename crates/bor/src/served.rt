//! The register that a server answers from: tables, and the same in memory beside them.

ghost use Rattle.std.specs.Prelude.{◌≡◌, Err, MatchResult, None, Ok, min, option_map};
ghost use Rattle.bor_records.specs.Promises.{Kept};
ghost use Rattle.bor_register.specs.Held.{statement_count};
ghost use Rattle.bor_register.specs.Register.{Register};
ghost use Rattle.bor_store.specs.Opening.{IsClosing};

use bor_desk::Text;
use bor_desk::mirror::{MirroredKeep, Notice};
use bor_program::connections::{Limits, Watch, serve_within};
use bor_program::{Answering, Reply, Report, replay, report_in};
use bor_register::StoreFault;
use bor_store::{OpenFault, Refused, SqlKeep};
use sqlite::{Alter, Connection, Error, FileStore, Files};
use sqlite_disk::Disk;
use std::alloc::{AllocError, Global};
use std::io::{Read, Write};
use std::net::{OpenListener, OpenStream};
use std::time::Clock;

/// A register in the tables of a connection, and beside it the same in memory, where one was made.
#[derive(Drop)]
pub struct ServedRegister<S: Alter + Drop, N: Notice + Drop> {
    keep: MirroredKeep<SqlKeep<S>, N>,
}

impl<S: Alter + Drop, N: Notice + Drop> ServedRegister<S, N> {
    /// The register in these tables. A mirror that is made later holds at most so many live
    /// statements; the notice is given where it is let go.
    pub fn new(store: SqlKeep<S>, most: u32, notice: N) -> Self
        ensures { result ≡ record { keep = (store, None, notice) } }
    {
        ServedRegister {
            keep: MirroredKeep::new(store, most, notice),
        }
    }

    /// The register in the tables that were opened, as [`ServedRegister::new`] makes it.
    ///
    /// # Errors
    ///
    /// The fault for which they were refused.
    pub fn opened(
        opened: Result<SqlKeep<S>, Refused<Option<Connection<S>>>>,
        most: u32,
        notice: N,
    ) -> Result<Self, OpenFault>
        ensures { MatchResult opened
            (λ store. result ≡ Ok (record { keep = (store, None, notice) }))
            (λ refused. result ≡ Err refused.fault) }
    {
        Ok(Self::new(opened?, most, notice))
    }

    /// Makes the mirror, as `MirroredKeep::fill` does, and gives how many live statements it holds,
    /// as `MirroredKeep::mirrored` tells it.
    pub fn fill(&mut self) -> Option<usize>
        ensures kept { Kept ⟦<ServedRegister<S, N> as Answering>⟧.meaning self.old self.new }
        ensures count { result ≡ option_map
            (λ (m : Register). min (statement_count m.members) usize.MAX) self.new.keep.1 }
    {
        self.keep.fill();
        self.keep.mirrored()
    }
}

impl<D: Disk + Drop, N: Notice + Drop> ServedRegister<FileStore<D>, N> {
    /// Closes the register, as [`SqlKeep::close`] does.
    ///
    /// # Errors
    ///
    /// The store's: the log can't be copied into the database file. Nothing that was committed is
    /// lost.
    pub fn close(self) -> Result<Files<D>, Error>
        ensures { IsClosing self.keep.0.conn result }
    {
        self.keep.into_store().close()
    }
}

impl<S: Alter + Drop, N: Notice + Drop> Answering for ServedRegister<S, N> {
    ghost use Rattle.std.specs.Prelude.{⊤};
    ghost use Rattle.sqlite.specs.Held.{state};
    ghost use Rattle.sqlite.specs.Tree.{Trees};
    ghost use Rattle.bor_program.specs.Failures.{MayTell};
    ghost use Rattle.bor_store_sql.proofs.Ending.{stands_in};
    ghost use Rattle.bor.specs.Served.{of_served};
    ghost use Rattle.std.proofs.Common.{sym};

    ghost Left = { Trees };

    ghost meaning = { of_served
        (λ k. state S.Store k.keep.0.conn) (λ k. k.keep.1) (λ k. k.keep.0.faults) };

    ghost tells = { MayTell (of_served
        (λ k. state S.Store k.keep.0.conn) (λ k. k.keep.1) (λ k. k.keep.0.faults)) };

    ghost serves = { λ _ _ _ _ _ _. ⊤ };

    fn answer_all(&mut self, alloc: Global, inputs: &[Vec<u8>]) -> Result<Vec<Reply>, AllocError> {
        replay(alloc, &mut self.keep, inputs)
    }

    fn tell(&mut self, alloc: Global, asked: &Report<'_>) -> Result<Text, StoreFault> {
        report_in(alloc, &mut self.keep, asked)
    }

    fn attend<R: Clock + AllocGlobal, L: OpenListener, W: Watch<L>>(
        &mut self,
        rt: &R,
        listener: &L,
        watch: &mut W,
        connections: u32,
        limits: Limits,
    ) -> u8
    where
        L::Stream: Read + Write + OpenStream,
    {
        serve_within(rt, &mut self.keep, listener, watch, connections, limits)
    }

    ghost lasting = { λ k clean trees may r shows. stands_in r _ trees
        (sym (S.settled k.keep.0.conn.store trees clean.1 may)) (shows.0.has, shows.0.stored) };
}
