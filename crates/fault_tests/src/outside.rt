//! The outside of a copy: a source and sinks in memory that count the calls which are made.

ghost use Rattle.std.specs.Prelude.{◌<◌, Some, length};
ghost use Rattle.std.specs.Io.{ReadsAtMost};
ghost use Rattle.std.specs.Io.KnownBytes.{ReadConsumes, WriteAppends};
ghost use Rattle.smbd_outside.specs.Causes.{HasCause};
ghost use Rattle.smbd_outside.specs.Streams.{TakesSome};

use crate::MEMORY;
use smbd_cli::{Word, run};
use smbd_outside::{Failed, MemorySink, MemorySource, Sink, Source, Status};
use std::alloc::Global;
use std::process::Abort;
use std::sync::Wait;

/// The most bytes that a call gives or takes: those of a group.
const MOST: u32 = 65_536;

/// The room of a sink and of a log.
const ROOM: u32 = 4_194_304;

/// A source that counts the reads.
#[derive(Drop)]
pub struct CountedSource {
    memory: MemorySource,
    calls: u32,
}

impl Source for CountedSource {
    ghost left = { λ source. Some source.memory.left };

    ghost faults = { λ source. source.memory.faults };

    fn read(&mut self, buf: &mut [u8]) -> Result<usize, Failed> {
        self.calls = self.calls.saturating_add(1);
        self.memory.read(buf)
    }
}

/// A sink that counts the writes.
#[derive(Drop)]
pub struct CountedSink {
    memory: MemorySink,
    calls: u32,
}

impl Sink for CountedSink {
    ghost written = { λ sink. Some sink.memory.taken };

    ghost faults = { λ sink. sink.memory.faults };

    fn write(&mut self, piece: &[u8]) -> Result<usize, Failed> {
        self.calls = self.calls.saturating_add(1);
        self.memory.write(piece)
    }
}

/// What fails.
#[derive(Clone, Copy, Debug, PartialEq, Eq)]
pub enum Failing {
    Nothing,
    /// The read of this number, from 1.
    Read(u32),
    /// The write of this number to the sink, from 1.
    Write(u32),
    /// The write of this number to the log, from 1.
    LogWrite(u32),
}

/// A copy that was run: how it ended, what the sink and the log got, and how often source, sink and log were called.
#[derive(Drop)]
pub struct Ran {
    pub status: Status,
    pub sink: MemorySink,
    pub log: MemorySink,
    pub reads: u32,
    pub writes: u32,
    pub log_writes: u32,
}

fn source_of(rt: &impl Abort, alloc: Global, bytes: &[u8], fails: &[u32]) -> CountedSource {
    let memory = MemorySource::open(alloc, bytes, MOST, fails).expect(rt, MEMORY);
    CountedSource { memory, calls: 0 }
}

fn sink_of(rt: &impl Abort, alloc: Global, fails: &[u32]) -> CountedSink {
    let memory = MemorySink::open(alloc, ROOM, MOST, fails).expect(rt, MEMORY);
    CountedSink { memory, calls: 0 }
}

fn word_of(rt: &impl Abort, alloc: Global, text: &str) -> Word {
    Word::copy_of(alloc, text).expect(rt, MEMORY)
}

fn words_of(rt: &impl Abort, alloc: Global, texts: &[&str]) -> Vec<Word> {
    let mut words = Vec::new(alloc);
    for text in texts {
        words.push(word_of(rt, alloc, text)).expect(rt, MEMORY);
    }
    words
}

/// Runs the program on these words.
fn run_words(
    rt: &(impl Abort + Wait),
    alloc: Global,
    words: &[Word],
    bytes: &[u8],
    failing: Failing,
) -> Ran {
    let (read, write, log_write) = match failing {
        Failing::Nothing => (0, 0, 0),
        Failing::Read(call) => (call, 0, 0),
        Failing::Write(call) => (0, call, 0),
        Failing::LogWrite(call) => (0, 0, call),
    };
    let mut source = source_of(rt, alloc, bytes, &[read]);
    let mut sink = sink_of(rt, alloc, &[write]);
    let mut log = sink_of(rt, alloc, &[log_write]);
    let status = run(rt, alloc, words, &mut source, &mut sink, &mut log);
    Ran {
        status,
        reads: source.calls,
        writes: sink.calls,
        log_writes: log.calls,
        sink: sink.memory,
        log: log.memory,
    }
}

/// Runs the program on the words of these texts.
pub fn run_copy(
    rt: &(impl Abort + Wait),
    alloc: Global,
    texts: &[&str],
    bytes: &[u8],
    failing: Failing,
) -> Ran {
    let words = words_of(rt, alloc, texts);
    run_words(rt, alloc, &words, bytes, failing)
}

/// Runs the program on the words of these texts, and a cut in the place of the client's frame of this number.
pub fn run_cut_copy(
    rt: &(impl Abort + Wait),
    alloc: Global,
    texts: &[&str],
    cut: u32,
    bytes: &[u8],
) -> Ran {
    let mut words = words_of(rt, alloc, texts);
    let text = format!(in alloc; "--cut={cut}").expect(rt, MEMORY);
    words
        .push(word_of(rt, alloc, text.as_str()))
        .expect(rt, MEMORY);
    run_words(rt, alloc, &words, bytes, Failing::Nothing)
}

/// So many bytes, of which no two neighbours are equal.
pub fn some_bytes(rt: &impl Abort, alloc: Global, length: u32) -> Vec<u8> {
    let mut bytes = Vec::with_capacity(alloc, length as usize).expect(rt, MEMORY);
    for number in 0..length {
        bytes.push((number % 251) as u8).expect(rt, MEMORY);
    }
    bytes
}
