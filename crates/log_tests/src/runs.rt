//! Runs with their lines.

use EndId::{Client, Server};
use event_log::Line;
use run_log::lines_of_run;
use smbd_base::{EndId, EndLimits, Message};
use std::alloc::Global;
use std::process::Abort;
use world_core::{Choice, run_script};

/// What is said where memory is wanting.
const MEMORY: &str = "memory for a test";

/// A choice without its message.
#[derive(Clone, Copy)]
enum Turn {
    /// The message `abc` is submitted.
    Submits(EndId),
    Drives(EndId),
    Takes(EndId),
    Cuts(EndId),
}

fn choice_of(rt: &impl Abort, alloc: Global, turn: Turn) -> Choice {
    match turn {
        Turn::Submits(end) => {
            Choice::Submit(end, Message::copy_of(alloc, b"abc").expect(rt, MEMORY))
        }
        Turn::Drives(end) => Choice::Drive(end),
        Turn::Takes(end) => Choice::Carry(end),
        Turn::Cuts(end) => Choice::Cut(end),
    }
}

fn choices_of(rt: &impl Abort, alloc: Global, turns: &[Turn]) -> Vec<Choice> {
    let mut choices = Vec::new(alloc);
    for turn in turns {
        choices.push(choice_of(rt, alloc, *turn)).expect(rt, MEMORY);
    }
    choices
}

/// The lines of two ends with the usual limits, of at most a hundred choices.
fn lines_after(rt: &impl Abort, alloc: Global, turns: &[Turn]) -> Vec<Line> {
    let choices = choices_of(rt, alloc, turns);
    assert!(rt; choices.len() <= 100);
    let limits = EndLimits::usual();
    let _ = limits.credits();
    let world = run_script(alloc, limits, limits, &choices).expect(rt, MEMORY);
    lines_of_run(alloc, &world).expect(rt, MEMORY)
}

/// Choices, and the lines of their run.
struct Case {
    turns: &'static [Turn],
    lines: &'static [&'static str],
}

const RUNS: [Case; 3] = [
    Case {
        turns: &[],
        lines: &["C post 255", "S post 255"],
    },
    Case {
        turns: &[
            Turn::Drives(Client),
            Turn::Drives(Client),
            Turn::Takes(Server),
            Turn::Drives(Server),
            Turn::Drives(Server),
            Turn::Takes(Client),
            Turn::Drives(Client),
            Turn::Submits(Client),
            Turn::Drives(Client),
            Turn::Takes(Server),
            Turn::Drives(Server),
            Turn::Drives(Server),
        ],
        lines: &[
            "C post 255",
            "S post 255",
            "C emit 000100010000ff00540500000020000000001000",
            "S take 1 20",
            "S post 1",
            "S emit 0001000100010000ff00ff000000000000001000540500000020000000001000",
            "C take 1 32",
            "C post 1",
            "C submit 3",
            "C emit ff00ff000000000000000000180000000300000000000000616263",
            "S take 2 27",
            "S post 1",
        ],
    },
    Case {
        turns: &[
            Turn::Submits(Server),
            Turn::Drives(Client),
            Turn::Cuts(Client),
            Turn::Submits(Client),
            Turn::Takes(Server),
            Turn::Takes(Server),
        ],
        lines: &[
            "C post 255",
            "S post 255",
            "S submit 3",
            "C emit 000100010000ff00540500000020000000001000",
            "C cut",
            "S cut",
        ],
    },
];

fn are_lines(lines: &[Line], texts: &[&str]) -> bool {
    lines.len() == texts.len()
        && lines
            .iter()
            .zip(texts)
            .all(|(line, text)| line.bytes() == text.as_bytes())
}

#[test]
fn runs_have_their_lines(rt: HostRuntime) {
    for run in &RUNS {
        let lines = lines_after(&rt, rt.alloc(), run.turns);
        assert!(&rt; are_lines(&lines, run.lines), "{:?}", run.lines);
    }
}
