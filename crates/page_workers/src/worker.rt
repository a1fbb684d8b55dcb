//! A worker.

ghost use Rattle.std.specs.Prelude.{◌≡◌, ◌≢◌, ◌≤◌, ◌<◌, ◌+◌, vec_len, vec_capacity, ◌++◌, ◌∷◌, [], None, Some, true, false, Ok, length, drop, option_to_list, IfOk, OnOk, OnErr};
ghost use Rattle.page_workers.specs.Workers.{WorkerState, opened, next_kept, TriedOnce, HasAnswered, IsUntried, WentOn, IsIdle, IsHeld};

use crate::answer::One;
use crate::kept::{Kept, Tried};
use crate::tries::{Attempt, room_for, try_once};
use event_log::LogLine;
use file_messages::{Completion, Job};
use page_slots::PagePass;
use registration::Region;
use smbd_base::NoMemory;
use std::alloc::Global;
use std::collections::VecDeque;
use std::marker::Model;

/// A worker of an end (this project's own): it does the jobs that it is given, one after another, and keeps one that the region
/// refuses until a later call.
#[derive(Drop)]
pub struct Worker {
    alloc: Global,
    number: u8,
    pass: PagePass,
    kept: Option<Kept>,
    waiting: VecDeque<Job>,
    done: VecDeque<Completion>,
    lines: Vec<LogLine>,
}

impl Model for Worker {
    ghost use Rattle.page_workers.specs.Workers.{WorkerState};

    ghost Value = { WorkerState };

    ghost view = { λ w. record { number = w.number; pass = w.pass; kept = w.kept; waiting = w.waiting.items; done = w.done.items; lines = w.lines.items } };
}

/// Adds a line, if there is one, in the room that was made.
fn add(lines: &mut Vec<LogLine>, line: Option<LogLine>)
    requires { vec_len lines.old < vec_capacity lines.old }
    ensures { lines.new.items ≡ lines.old.items ++ option_to_list line }
{
    if let Some(line) = line {
        lines.push_reserved(line);
    }
}

impl Worker {
    /// A worker of this number, from 1 to 8, to which nothing was given.
    pub fn open(alloc: Global, number: u8, pass: PagePass) -> Result<Worker, NoMemory>
        requires least { 1 ≤ number }
        requires most { number ≤ 8 }
        ensures { IfOk result (λ w. w ≡ opened number pass) }
    {
        Ok(Worker {
            alloc,
            number,
            pass,
            kept: None,
            waiting: VecDeque::with_capacity(alloc, 16)?,
            done: VecDeque::with_capacity(alloc, 16)?,
            lines: Vec::with_capacity(alloc, 16)?,
        })
    }

    /// The worker's number, from 1 to 8.
    pub fn number(&self) -> u8
        ensures { result ≡ self.now.number }
    {
        self.number
    }

    /// Gives the worker one more job. Without memory the job is let go.
    pub fn give(&mut self, job: Job) -> Result<(), NoMemory>
        ensures given { OnOk result (self.new ≡ record self.old { waiting = self.old.waiting ++ job ∷ [] }) }
        ensures same { OnErr result (self.new ≡ self.old) }
    {
        self.waiting.push_back(job)?;
        Ok(())
    }

    /// Takes the next completion. None comes exactly where none waits.
    pub fn taken(&mut self) -> Option<Completion>
        ensures taken { self.old.done ≡ option_to_list result ++ self.new.done }
        ensures none { result ≡ None → self.old.done ≡ [] }
        ensures same { self.new ≡ record self.old { done = self.new.done } }
    {
        self.done.pop_front()
    }

    /// The lines of the events that weren't told, the oldest one first.
    pub fn lines(&self) -> &[LogLine]
        ensures { result.now ≡ self.now.lines }
    {
        self.lines.as_slice()
    }

    /// The lines are told.
    pub fn clear_lines(&mut self)
        ensures { self.new ≡ record self.old { lines = [] } }
    {
        self.lines.clear();
    }

    /// Keeps the next job, where none is kept and one waits. Answers whether one is kept.
    fn keep_next(&mut self) -> bool
        ensures next { self.new ≡ next_kept self.old }
        ensures some { result ≡ true → self.new.kept ≢ None }
        ensures none { result ≡ false → IsIdle self.new }
        ensures same { result ≡ false → self.new ≡ self.old }
    {
        match &self.kept {
            Some(_) => return true,
            None => {}
        }
        match self.waiting.pop_front() {
            Some(job) => {
                self.kept = Some(Kept::Fresh(job));
                true
            }
            None => false,
        }
    }

    /// Tries the job that is kept. Answers whether it is finished. Without memory nothing is done.
    fn try_kept(&mut self, region: &mut Region) -> Result<bool, NoMemory>
        requires { self.old.kept ≢ None }
        ensures tried { IfOk result (λ finished. TriedOnce self.old self.new region.old region.new finished) }
        ensures same { OnErr result (self.new ≡ self.old) }
        ensures region { OnErr result (region.new ≡ region.old) }
    {
        let Some(kept) = &self.kept else {
            unreachable!()
        };
        let room = room_for(self.alloc, kept)?;
        self.done.reserve(1)?;
        self.lines.reserve(1)?;
        let Attempt { tried, line } = try_once(region, &mut self.pass, kept, room);
        add(&mut self.lines, line);
        match tried {
            Tried::Finished(completion) => {
                self.kept = None;
                self.done.push_back_reserved(completion);
                Ok(true)
            }
            Tried::Begun(kept) => {
                self.kept = Some(kept);
                Ok(false)
            }
            Tried::Refused => Ok(false),
        }
    }

    /// Tries the next job once.
    pub fn one(&mut self, region: &mut Region) -> Result<One, NoMemory>
        ensures tried { IfOk result (λ one. HasAnswered one self.old self.new region.old region.new) }
        ensures untried { OnErr result (IsUntried self.old self.new region.old region.new) }
        ensures went { WentOn self.old self.new region.old region.new }
        ensures did { result ≡ Ok One.Did → length self.new.done ≡ length self.old.done + 1 }
        ensures held { result ≡ Ok One.Held → IsHeld self.new region.new }
        ensures idle { result ≡ Ok One.Idle → IsIdle self.new }
        ensures none { result ≢ Ok One.Did → self.new.done ≡ self.old.done }
    {
        if !self.keep_next() {
            return Ok(One::Idle);
        }
        if self.try_kept(region)? {
            Ok(One::Did)
        } else {
            Ok(One::Held)
        }
    }
}
