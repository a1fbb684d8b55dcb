//! A client of a get whose jobs are done as soon as they are given.

ghost use Rattle.std.specs.Prelude.{◌≤◌};

use crate::MEMORY;
use crate::pages::Pages;
use file_messages::{Channel, Completion, ReplyFault};
use file_transfer::GetClient;
use smbd_base::Message;
use std::alloc::Global;
use std::marker::Model;
use std::process::Abort;

#[derive(Drop)]
pub struct Getting {
    machine: GetClient,
    /// How often it was asked for a request.
    asked: u32,
}

impl Model for Getting {
    ghost use Rattle.std.specs.Prelude.{ℕ};

    ghost Value = { ℕ };

    ghost use Rattle.file_tests.specs.Getting.{IsGetting};

    ghost view = { λ g. g.asked };

    ghost invariant = { λ g. IsGetting g.machine g.asked };
}

impl Getting {
    pub fn open(rt: &impl Abort, alloc: Global, channel: Channel) -> Getting {
        Getting {
            machine: GetClient::open(alloc, channel, 16).expect(rt, MEMORY),
            asked: 0,
        }
    }

    /// Does the next job.
    pub fn work(&mut self, rt: &impl Abort, pages: &mut Pages) -> bool {
        let Some(job) = self.machine.next_job() else {
            return false;
        };
        let result = pages.do_for_client(rt, &job.work);
        self.machine.completed(Completion {
            number: job.number,
            result,
        });
        true
    }

    pub fn next_message(&mut self, rt: &impl Abort) -> Option<Message> {
        assert!(rt; self.asked < 1_000);
        self.asked += 1;
        self.machine.next_message().expect(rt, MEMORY)
    }

    pub fn reply(&mut self, message: &Message) -> Result<(), ReplyFault> {
        self.machine.reply(message)
    }

    pub fn received(&mut self) -> Option<Message> {
        self.machine.received()
    }

    pub fn finished(&self) -> bool {
        self.machine.finished()
    }
}
