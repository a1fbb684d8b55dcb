//! Telling the log what happened.

ghost use Rattle.std.specs.Prelude.{◌≡◌, ◌++◌, ◌≤◌, string_bytes, length, IfErr, IfOk, OnErr, OnOk};
ghost use Rattle.std.specs.Io.KnownBytes.{Appends};
ghost use Rattle.smbd_outside.specs.Causes.{HasCause};
ghost use Rattle.smbd_outside.specs.Streams.{AppendsFront};
ghost use Rattle.world_core.specs.Run.{past_of};
ghost use Rattle.run_log.specs.NewLines.{told_after, CanTell};
ghost use Rattle.copy_log.specs.Laws.{news_text, workers_text};
ghost use Rattle.page_crew.specs.Crews.{lines_of, workers_of};
ghost use Rattle.end_workers.specs.News.{news, texts_from, worker_of};

use copy_log::add_worker_lines;
use copy_parts::Parts;
use event_log::Side;
use run_log::{Told, add_new_lines};
use smbd_base::{EndId, Event, NoMemory};
use std::alloc::Global;

/// What is told at once: the lines as a text, and how far both ends are told with it.
#[derive(Drop)]
pub(crate) struct News {
    pub(crate) text: String,
    pub(crate) client_told: Told,
    pub(crate) server_told: Told,
}

/// The lines of what was not told: of the client's events, of the server's, and of what the workers of both did.
pub(crate) fn news_of(
    alloc: Global,
    parts: &Parts,
    client: &[Event],
    server: &[Event],
    client_told: &Told,
    server_told: &Told,
) -> Result<News, NoMemory>
    requires client { CanTell client_told.now client.now }
    requires server { CanTell server_told.now server.now }
    ensures text { IfOk result (λ n. string_bytes n.text ≡ news_text (news client_told.now server_told.now client.now server.now parts.now)) }
    ensures client { IfOk result (λ n. n.client_told ≡ told_after client_told.now client.now) }
    ensures server { IfOk result (λ n. n.server_told ≡ told_after server_told.now server.now) }
{
    let mut text = String::new(alloc);
    let client_told = add_new_lines(alloc, &mut text, EndId::Client, client_told, client)?;
    let server_told = add_new_lines(alloc, &mut text, EndId::Server, server_told, server)?;
    add_lines_of_workers(alloc, &mut text, parts, EndId::Client)?;
    add_lines_of_workers(alloc, &mut text, parts, EndId::Server)?;
    Ok(News {
        text,
        client_told,
        server_told,
    })
}

/// Adds the lines of the workers of one end that were not told, each with its line feed, the first worker's first.
fn add_lines_of_workers(
    alloc: Global,
    text: &mut String,
    parts: &Parts,
    end: EndId,
) -> Result<(), NoMemory>
    ensures { OnOk result (string_bytes text.new ≡ string_bytes text.old ++ workers_text (texts_from end 1 (lines_of (workers_of end parts.now.crew)))) }
{
    for place in 0..parts.workers() {
        add_worker_lines(
            alloc,
            text,
            side_of(end, place + 1),
            parts.lines(end, place),
        )?;
    }
    Ok(())
}

/// The name of a worker in a log.
fn side_of(end: EndId, worker: u8) -> Side
    ensures { result ≡ worker_of end worker }
{
    match end {
        EndId::Client => Side::Cw(worker),
        EndId::Server => Side::Sw(worker),
    }
}
