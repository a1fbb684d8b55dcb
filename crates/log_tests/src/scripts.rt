//! Scripts, and lines that are none.

use sim_script::{ScriptFault, read_script};
use smbd_base::EndId;
use smbd_base::EndId::*;
use std::alloc::Global;
use world_core::Choice;

/// A choice in other words: of a message the length, and the first and the last byte.
#[derive(Clone, Copy)]
enum Said {
    Submit(EndId, usize, u8, u8),
    Drive(EndId),
    Carry(EndId),
    Cut(EndId),
}

/// Whether the choice says this.
fn is_said(choice: &Choice, said: Said) -> bool {
    match said {
        Said::Submit(by, length, first, last) => match choice {
            Choice::Submit(end, message) => {
                *end == by
                    && message.len() == length
                    && message.bytes().first() == Some(&first)
                    && message.bytes().last() == Some(&last)
            }
            _ => false,
        },
        Said::Drive(by) => matches!(choice, Choice::Drive(end) if *end == by),
        Said::Carry(by) => matches!(choice, Choice::Carry(end) if *end == by),
        Said::Cut(by) => matches!(choice, Choice::Cut(end) if *end == by),
    }
}

/// Whether the choices say this, one after another.
fn are_said(choices: &[Choice], said: &[Said]) -> bool {
    choices.len() == said.len()
        && choices
            .iter()
            .zip(said)
            .all(|(choice, wanted)| is_said(choice, *wanted))
}

fn is_read(
    answer: &Result<Vec<Choice>, ScriptFault>,
    expected: Result<&[Said], ScriptFault>,
) -> bool {
    match answer {
        Ok(choices) => matches!(expected, Ok(said) if are_said(choices, said)),
        Err(found) => matches!(expected, Err(fault) if *found == fault),
    }
}

fn reads(alloc: Global, text: &[u8], expected: Result<&[Said], ScriptFault>) -> bool {
    is_read(&read_script(alloc, text), expected)
}

#[test]
fn scripts_are_read_line_by_line(rt: HostRuntime) {
    const SCRIPTS: &[(&[u8], &[Said])] = &[
        (b"", &[]),
        (b"drive C\n", &[Said::Drive(Client)]),
        (
            b"drive C\nsubmit C 3 97\n",
            &[Said::Drive(Client), Said::Submit(Client, 3, 97, 99)],
        ),
        (b"carry S\ncut C", &[Said::Carry(Server), Said::Cut(Client)]),
        (
            b"submit S 1048576 255\nsubmit C 1 0\n",
            &[
                Said::Submit(Server, 1_048_576, 255, 254),
                Said::Submit(Client, 1, 0, 0),
            ],
        ),
        (b"submit S 258 254", &[Said::Submit(Server, 258, 254, 255)]),
    ];
    for &(text, said) in SCRIPTS {
        assert!(rt; reads(rt.alloc(), text, Ok(said)), "{text:?}");
    }

    // a text, and its first bad line
    const BAD: &[(&[u8], u64)] = &[
        (b"\n", 1),
        (b"submit C 0 1", 1),
        (b"submit C 1048577 0", 1),
        (b"submit C 03 0", 1),
        (b"submit C 3 256", 1),
        (b"submit C 3 00", 1),
        (b"submit C +3 0", 1),
        (b"submit C 3", 1),
        (b"submit C 3 0 0", 1),
        (b"submit C 18446744073709551617 0", 1),
        (b"submit c 3 0", 1),
        (b"drive", 1),
        (b"drive c", 1),
        (b"drive X", 1),
        (b"drive CS", 1),
        (b"drive  C", 1),
        (b"drive C ", 1),
        (b" drive C", 1),
        (b"Drive C", 1),
        (b"drive C\r\n", 1),
        (b"drive C\0", 1),
        (b"drive \xff\xfe", 1),
        (b"\xff", 1),
        (b"drive C\n\ndrive C\n", 2),
        (b"drive C\n\n", 2),
        (b"drive C\ncarry S\ncarry  S\ncut X\ncut C\n", 3),
    ];
    for &(text, number) in BAD {
        let fault = ScriptFault::Line(number);
        assert!(rt; reads(rt.alloc(), text, Err(fault)), "{text:?}");
    }
}
