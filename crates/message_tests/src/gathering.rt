//! Pieces that make known messages, and pieces that do not fit.

ghost use Rattle.std.specs.Prelude.{◌<◌, ◌≤◌, length};

use crate::MEMORY;
use reassembly::{Broken, Gather, GatherFault};
use smbd_base::Message;
use std::alloc::Global;
use std::process::Abort;

/// A run of so many bytes, each of them this one.
#[derive(Clone, Copy)]
struct Run(usize, u8);

/// What a gatherer answers.
#[derive(Clone, Copy)]
enum Answer<'a> {
    /// A message is begun, or goes on.
    Begun,
    /// A message has come, of these bytes.
    Made(&'a [Run]),
    /// So many bytes were expected, and found.
    Total(u64, u64),
    /// So many bytes are more than so many.
    TooLong(u64, u32),
    /// An earlier piece was refused as `Total`.
    FailedTotal(u64, u64),
    /// An earlier piece was refused as `TooLong`.
    FailedTooLong(u64, u32),
}

/// A piece that is given to a gatherer, how many bytes are said to come after it, what the gatherer answers, and how many
/// bytes it expects then.
#[derive(Clone, Copy)]
struct Step<'a>(Run, u32, Answer<'a>, u64);

fn bytes_of(rt: &impl Abort, alloc: Global, runs: &[Run]) -> Vec<u8> {
    let mut bytes = Vec::new(alloc);
    for run in runs {
        let part = vec![in alloc; run.1; run.0].expect(rt, MEMORY);
        bytes.extend_from_slice(&part).expect(rt, MEMORY);
    }
    bytes
}

/// The message that has come; no message is empty.
fn made_of(expected: Answer<'_>) -> &[Run] {
    match expected {
        Answer::Made(runs) => runs,
        _ => &[],
    }
}

fn fault_of(expected: Answer<'_>) -> Option<GatherFault> {
    match expected {
        Answer::Begun | Answer::Made(_) => None,
        Answer::Total(expected, found) => Some(GatherFault::Total { expected, found }),
        Answer::TooLong(total, max) => Some(GatherFault::TooLong { total, max }),
        Answer::FailedTotal(expected, found) => {
            Some(GatherFault::Failed(Broken::Total { expected, found }))
        }
        Answer::FailedTooLong(total, max) => {
            Some(GatherFault::Failed(Broken::TooLong { total, max }))
        }
    }
}

/// Whether the answer is the message of these bytes, if they are any, or else this fault, or neither.
fn is_answer(
    answer: &Result<Option<Message>, GatherFault>,
    made: &[u8],
    expected: Option<GatherFault>,
) -> bool {
    match answer {
        Ok(Some(message)) => !made.is_empty() && message.bytes() == made,
        Ok(None) => made.is_empty() && expected.is_none(),
        Err(fault) => expected == Some(*fault),
    }
}

/// Whether `fault` told before what `add` then answered: the misfit, or none where it fits or an earlier piece didn't.
fn was_told(misfit: Option<Broken>, answer: &Result<Option<Message>, GatherFault>) -> bool {
    match answer {
        Ok(_) => misfit.is_none(),
        Err(GatherFault::Failed(_)) => true,
        Err(fault) => misfit.map(GatherFault::from) == Some(*fault),
    }
}

/// A gatherer's name, its longest message, and what is done with it.
type Row = (&'static str, u32, &'static [Step<'static>]);

/// Gives a piece to a gatherer.
fn give(rt: &impl Abort, alloc: Global, gather: &mut Gather, name: &str, step: Step<'_>) {
    let Step(run, remaining, expected, left) = step;
    let piece = bytes_of(rt, alloc, &[run]);
    let made = bytes_of(rt, alloc, made_of(expected));
    assert!(rt; !piece.is_empty());
    let misfit = gather.fault(&piece, remaining);
    let answer = gather.add(&piece, remaining);
    assert!(rt; is_answer(&answer, &made, fault_of(expected)), "{name}");
    assert!(rt; was_told(misfit, &answer), "{name}");
    assert_eq!(rt; gather.left(), left, "{name}");
}

/// Gives each piece of each row in turn to a new gatherer.
fn follow(rt: &impl Abort, alloc: Global, rows: &[Row]) {
    for &(name, max, steps) in rows {
        assert!(rt; 131_072 <= max && max <= 1_048_576);
        let mut gather = Gather::open(alloc, max);
        assert_eq!(rt; gather.left(), 0);
        for step in steps {
            give(rt, alloc, &mut gather, name, *step);
        }
    }
}

#[test]
fn makes_messages(rt: HostRuntime) {
    use Answer::{Begun, Made};
    const ROWS: &[Row] = &[
        (
            "three pieces",
            1_048_576,
            &[
                Step(Run(1_340, 1), 1_660, Begun, 1_660),
                Step(Run(1_340, 2), 320, Begun, 320),
                Step(
                    Run(320, 3),
                    0,
                    Made(&[Run(1_340, 1), Run(1_340, 2), Run(320, 3)]),
                    0,
                ),
            ],
        ),
        (
            "one piece",
            1_048_576,
            &[Step(Run(1_340, 1), 0, Made(&[Run(1_340, 1)]), 0)],
        ),
        (
            "one message after another",
            1_048_576,
            &[
                Step(Run(1_340, 1), 1, Begun, 1),
                Step(Run(1, 2), 0, Made(&[Run(1_340, 1), Run(1, 2)]), 0),
                Step(Run(2, 3), 5, Begun, 5),
                Step(Run(1, 4), 4, Begun, 4),
                Step(Run(4, 5), 0, Made(&[Run(2, 3), Run(1, 4), Run(4, 5)]), 0),
                Step(Run(1, 6), 0, Made(&[Run(1, 6)]), 0),
            ],
        ),
        (
            "the longest message",
            1_048_576,
            &[
                Step(Run(1, 1), 1_048_575, Begun, 1_048_575),
                Step(
                    Run(1_048_575, 2),
                    0,
                    Made(&[Run(1, 1), Run(1_048_575, 2)]),
                    0,
                ),
            ],
        ),
        (
            "the longest message of the least gatherer",
            131_072,
            &[
                Step(Run(1, 1), 131_071, Begun, 131_071),
                Step(Run(131_071, 2), 0, Made(&[Run(1, 1), Run(131_071, 2)]), 0),
            ],
        ),
        (
            "the longest message in one piece",
            131_072,
            &[Step(Run(131_072, 1), 0, Made(&[Run(131_072, 1)]), 0)],
        ),
    ];
    follow(&rt, rt.alloc(), ROWS);
}

#[test]
fn refuses_what_does_not_fit(rt: HostRuntime) {
    use Answer::{Begun, FailedTooLong, FailedTotal, Made, TooLong, Total};
    const ROWS: &[Row] = &[
        (
            "one byte is missing",
            1_048_576,
            &[
                Step(Run(1_340, 1), 1_660, Begun, 1_660),
                Step(Run(1_340, 2), 319, Total(1_660, 1_659), 1_660),
                Step(Run(1_340, 2), 320, FailedTotal(1_660, 1_659), 1_660),
                Step(Run(1_340, 2), 319, FailedTotal(1_660, 1_659), 1_660),
                Step(Run(1_660, 2), 0, FailedTotal(1_660, 1_659), 1_660),
            ],
        ),
        (
            "one byte too many",
            1_048_576,
            &[
                Step(Run(1_340, 1), 1_660, Begun, 1_660),
                Step(Run(1_661, 2), 0, Total(1_660, 1_661), 1_660),
                Step(Run(1, 2), 0, FailedTotal(1_660, 1_661), 1_660),
            ],
        ),
        (
            "it ends too early",
            1_048_576,
            &[
                Step(Run(1_340, 1), 1_660, Begun, 1_660),
                Step(Run(1_340, 2), 0, Total(1_660, 1_340), 1_660),
                Step(Run(1_340, 2), 320, FailedTotal(1_660, 1_340), 1_660),
            ],
        ),
        (
            "too long by one byte",
            1_048_576,
            &[
                Step(Run(1, 1), 1_048_576, TooLong(1_048_577, 1_048_576), 0),
                Step(Run(1, 1), 0, FailedTooLong(1_048_577, 1_048_576), 0),
            ],
        ),
        (
            "too long by far, after a message",
            1_048_576,
            &[
                Step(Run(1, 1), 0, Made(&[Run(1, 1)]), 0),
                Step(
                    Run(1, 2),
                    4_294_967_295,
                    TooLong(4_294_967_296, 1_048_576),
                    0,
                ),
                Step(Run(1, 3), 0, FailedTooLong(4_294_967_296, 1_048_576), 0),
            ],
        ),
        (
            "too long by one byte for the least gatherer",
            131_072,
            &[
                Step(Run(131_073, 1), 0, TooLong(131_073, 131_072), 0),
                Step(Run(131_072, 1), 0, FailedTooLong(131_073, 131_072), 0),
            ],
        ),
    ];
    follow(&rt, rt.alloc(), ROWS);
}
