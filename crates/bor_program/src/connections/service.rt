//! The service that answers requests: the register's desk, behind the paths that there are.

ghost use Rattle.std.specs.Prelude.{◌≡◌, [], IfSome, None, false};
ghost use Rattle.bor_records.specs.Promises.{Promised};
ghost use Rattle.bor_http.specs.Incoming.Progress.{IsProgress};
ghost use Rattle.bor_wire.specs.Answering.{Responds};
ghost use Rattle.bor_wire.specs.Spelling.Spell.{SpellsAs};
ghost use Rattle.bor_program.specs.Logging.{IsNoteOf, MayNote, asked_of};

use crate::log::{Asked, Note, asked_by};
use bor_desk::operations::Keep;
use bor_http::incoming::{Progress, WireFault};
use bor_wire::spelling::Paths;
use bor_wire::{Asking, Reply, Response, respond_to, spelled};
use std::alloc::Global;
use std::mem;

/// The service that answers requests. The router of paths is made for the first of them, and kept.
#[derive(Drop)]
pub(crate) struct Service {
    alloc: Global,
    paths: Option<Paths>,
    is_noting: bool,
    notes: Vec<Note>,
}

impl Service {
    /// A service that has answered nothing. Where `is_noting` is set, it notes each request that it
    /// answers, as far as there is memory.
    pub(crate) fn new(alloc: Global, is_noting: bool) -> Service
        ensures noting { result.is_noting ≡ is_noting }
        ensures none { result.notes.items ≡ [] }
    {
        Service {
            alloc,
            paths: None,
            is_noting,
            notes: Vec::new(alloc),
        }
    }

    /// The memory that it takes.
    pub(crate) fn alloc(&self) -> Global
        ensures { result ≡ self.now.alloc }
    {
        self.alloc
    }

    /// Answers the request in these bytes, of which so much is known.
    pub(crate) fn respond<K: Keep>(
        &mut self,
        keep: &mut K,
        received: Vec<u8>,
        progress: Progress,
    ) -> Reply
        requires { IsProgress received.items progress }
        ensures answers { Responds K.meaning keep.old keep.new received.items result }
        ensures noted { MayNote (IsNoteOf
            (Promised K.meaning keep.old keep.new) received.items result)
            self.old.notes.items self.new.notes.items }
        ensures silent { self.old.is_noting ≡ false
            → self.new.notes.items ≡ self.old.notes.items }
    {
        if self.paths.is_none() {
            self.paths = Paths::new(self.alloc).ok();
        }
        match &self.paths {
            Some(paths) => {
                let (asking, asked) = self.asking_in(paths, received, progress);
                let Response { agent, reply } = respond_to(self.alloc, keep, asking);
                if let Some(asked) = asked {
                    let _ = self.notes.push(Note::of(asked, agent, &reply));
                }
                reply
            }
            None => Reply::unavailable(),
        }
    }

    // What these bytes spell and, where requests are noted, what the log says of them. The bytes are
    // let go: of a lodging one copy of the file stays while the desk answers.
    fn asking_in(
        &self,
        paths: &Paths,
        received: Vec<u8>,
        progress: Progress,
    ) -> (Result<Asking, WireFault>, Option<Asked>)
        requires { IsProgress received.items progress }
        ensures spells { SpellsAs received.items result.0 }
        ensures asked { IfSome result.1 (λ asked. asked ≡ asked_of received.items) }
        ensures silent { self.now.is_noting ≡ false → result.1 ≡ None }
    {
        let asked = if self.is_noting {
            Some(asked_by(paths, &received))
        } else {
            None
        };
        let asking = spelled(self.alloc, paths, progress.message(self.alloc, &received));
        (asking, asked)
    }

    /// The notes of the requests that were answered since this was last asked.
    pub(crate) fn take_notes(&mut self) -> Vec<Note>
        ensures all { result.items ≡ self.old.notes.items }
        ensures none { self.new.notes.items ≡ [] }
    {
        mem::replace(&mut self.notes, Vec::new(self.alloc))
    }
}
