//! A server whose jobs are done as soon as they are given.

use crate::MEMORY;
use crate::pages::Pages;
use file_messages::{Completion, CopyKind, FileFault};
use file_transfer::FileServer;
use smbd_base::Message;
use std::alloc::Global;
use std::marker::Model;
use std::process::Abort;

#[derive(Drop)]
pub struct Serving {
    machine: FileServer,
    kind: CopyKind,
}

impl Model for Serving {
    ghost use Rattle.file_messages.specs.declared.kind.CopyKind.{CopyKind};

    ghost Value = { CopyKind };

    ghost use Rattle.file_tests.specs.Serving.{IsServing};

    ghost view = { λ s. s.kind };

    ghost invariant = { λ s. IsServing s.machine };
}

impl Serving {
    pub fn open(rt: &impl Abort, alloc: Global, kind: CopyKind) -> Serving {
        Serving {
            machine: FileServer::open(alloc, kind).expect(rt, MEMORY),
            kind,
        }
    }

    pub fn request(&mut self, message: &Message) -> Result<(), FileFault> {
        self.machine.request(message)
    }

    pub fn wants_source(&self) -> Option<u32> {
        self.machine.wants_source()
    }

    /// Hands in the bytes for a READ, which has to be handled.
    pub fn source(&mut self, rt: &impl Abort, bytes: &[u8]) {
        let Some(most) = self.machine.wants_source() else {
            panic!(rt; "no bytes are wanted")
        };
        assert!(rt; bytes.len() <= most as usize);
        self.machine.source(bytes).expect(rt, MEMORY);
    }

    /// Does the next job.
    pub fn work(&mut self, rt: &impl Abort, pages: &mut Pages) -> bool {
        let Some(job) = self.machine.next_job() else {
            return false;
        };
        let result = pages.do_for_server(rt, &job.work);
        self.machine.completed(Completion {
            number: job.number,
            result,
        });
        true
    }

    pub fn next_message(&mut self, rt: &impl Abort) -> Option<Message> {
        self.machine.next_message().expect(rt, MEMORY)
    }

    /// Whether a reply is due, which is taken.
    pub fn replies(&mut self, rt: &impl Abort) -> bool {
        self.next_message(rt).is_some()
    }

    pub fn stored(&mut self) -> Option<Message> {
        self.machine.stored()
    }
}
