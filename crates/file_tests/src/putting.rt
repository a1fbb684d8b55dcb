//! A client of a put whose jobs are done as soon as they are given.

ghost use Rattle.std.specs.Prelude.{◌≤◌};

use crate::MEMORY;
use crate::pages::Pages;
use file_messages::{Channel, Completion, ReplyFault};
use file_transfer::PutClient;
use smbd_base::Message;
use std::alloc::Global;
use std::marker::Model;
use std::process::Abort;

#[derive(Drop)]
pub struct Putting {
    machine: PutClient,
    /// How often it was asked for a request.
    asked: u32,
}

impl Model for Putting {
    ghost use Rattle.std.specs.Prelude.{ℕ};

    ghost Value = { ℕ };

    ghost use Rattle.file_tests.specs.Putting.{IsPutting};

    ghost view = { λ p. p.asked };

    ghost invariant = { λ p. IsPutting p.machine p.asked };
}

impl Putting {
    pub fn open(rt: &impl Abort, alloc: Global, channel: Channel, pages: u16) -> Putting
        requires least { 16 ≤ pages }
        requires most { pages ≤ 255 }
    {
        Putting {
            machine: PutClient::open(alloc, channel, pages).expect(rt, MEMORY),
            asked: 0,
        }
    }

    /// Hands the group in, if it is wanted.
    pub fn hand(&mut self, rt: &impl Abort, group: &[u8]) -> bool {
        if !self.machine.wants_group() {
            return false;
        }
        assert!(rt; !group.is_empty() && group.len() <= 65_536);
        self.machine.group(group).expect(rt, MEMORY);
        true
    }

    pub fn end(&mut self) {
        self.machine.end();
    }

    /// Does the next job.
    pub fn work(&mut self, rt: &impl Abort, pages: &mut Pages) -> bool {
        let Some(job) = self.machine.next_job() else {
            return false;
        };
        let result = pages.do_for_client(rt, &job.work);
        self.machine.completed(Completion {
            number: job.number,
            result,
        });
        true
    }

    pub fn next_message(&mut self, rt: &impl Abort) -> Option<Message> {
        assert!(rt; self.asked < 1_000);
        self.asked += 1;
        self.machine.next_message().expect(rt, MEMORY)
    }

    pub fn reply(&mut self, message: &Message) -> Result<(), ReplyFault> {
        self.machine.reply(message)
    }

    pub fn finished(&self) -> bool {
        self.machine.finished()
    }
}
