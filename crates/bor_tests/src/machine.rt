//! A machine of registers in memory, to whose ports nobody connects.

ghost use Rattle.std.specs.Prelude.{⊤, IfErr};
ghost use Rattle.bor_program.specs.Failures.{IsOpeningOf};

use crate::clients::{Line, Queue};
use bor_desk::operations::ListKeep;
use bor_program::connections::{Places, Watch, accepted};
use bor_program::log::Note;
use bor_program::{Failure, Opened, Origin, Ports, Registers, Stage};
use bor_terms::{Day, Token};
use std::alloc::Global;
use std::io::{self, ErrorKind};
use std::time::Duration;

/// A machine in each of whose files there is a new register, unless memory is wanting. Nobody connects to
/// its ports.
#[derive(Clone, Copy)]
pub(crate) struct Machine {
    pub(crate) alloc: Global,
    pub(crate) is_starved: bool,
    /// Whether a register was closed.
    pub(crate) has_closed: bool,
}

impl Machine {
    /// A machine that has memory for a register, or none.
    pub(crate) fn new(alloc: Global, is_starved: bool) -> Machine {
        Machine {
            alloc,
            is_starved,
            has_closed: false,
        }
    }
}

// A register of 2024-02-01 with no agents.
fn new_register(alloc: Global, path: &str) -> Result<ListKeep, Failure<'_>>
    ensures { IfErr result (IsOpeningOf path.entry) }
{
    match (
        Token::read(alloc, "registrar-token-0001")?,
        Day::read("2024-02-01"),
    ) {
        (Some(registrar), Some(day)) => Ok(ListKeep::new(alloc, registrar, day)),
        _ => Err(Failure::NoRegister(path)),
    }
}

impl Registers for Machine {
    type Register = ListKeep;

    ghost does = { λ _ _ _. ⊤ };

    fn reach(&self, _stage: Stage<'_>) {}

    fn open<'a>(&mut self, path: &'a str) -> Result<ListKeep, Failure<'a>> {
        if self.is_starved {
            return Err(Failure::Memory);
        }
        new_register(self.alloc, path)
    }

    fn open_or_set_up<'a>(
        &mut self,
        _path: &'a str,
        registrar: &Token,
        day: Day,
    ) -> Result<Opened<ListKeep>, Failure<'a>> {
        if self.is_starved {
            return Err(Failure::Memory);
        }
        Ok(Opened {
            register: ListKeep::new(self.alloc, registrar.copy(self.alloc)?, day),
            origin: Origin::New,
        })
    }

    fn migrate<'a>(&mut self, _path: &'a str) -> Result<(), Failure<'a>> {
        if self.is_starved {
            return Err(Failure::Memory);
        }
        Ok(())
    }

    fn close(&mut self, _path: &str, _register: ListKeep) {
        self.has_closed = true;
    }
}

impl Ports for Machine {
    type Listener = Queue<'static>;

    type Waiter = Nobody;

    ghost listens = { λ _ _ _. ⊤ };

    ghost waits = { λ _ _ _. ⊤ };

    fn open_to_serve<'a>(
        &mut self,
        path: &'a str,
        _memory: u32,
        _log: bool,
    ) -> Result<ListKeep, Failure<'a>> {
        self.open(path)
    }

    fn listen(&self, _port: u16) -> Option<Queue<'static>> {
        Some(Queue::new(&[]))
    }

    fn waiter(&self, _log: bool) -> Nobody {
        Nobody
    }
}

/// A watch that waits for nobody.
#[derive(Drop)]
pub(crate) struct Nobody;

impl Watch<Queue<'static>> for Nobody {
    ghost does = { λ _ _ _. ⊤ };

    fn watch_listener(&mut self, _listener: &Queue<'static>) -> io::Result<()> {
        Err(io::Error::from(ErrorKind::Unsupported))
    }

    fn accept(&mut self, listener: &Queue<'static>) -> io::Result<Option<Line<'static>>> {
        accepted(listener)
    }

    fn watch(&mut self, _stream: &Line<'static>, _place: usize) -> io::Result<()> {
        Ok(())
    }

    fn wait(&mut self, _limit: Option<Duration>, _places: &mut Places) -> io::Result<()> {
        Err(io::Error::from(ErrorKind::Unsupported))
    }

    fn note(&mut self, _note: Note) {}
}
