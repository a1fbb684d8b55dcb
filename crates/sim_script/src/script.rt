//! Reading a script, and running it.

ghost use Rattle.std.specs.Prelude.{◌≡◌, ◌≤◌, fold, length, None, IfOk, IfErr, OnOk};
ghost use Rattle.world_core.specs.Run.{step_of};
ghost use Rattle.sim_script.specs.Scripts as spec;

use crate::fault::ScriptFault;
use crate::lines::next_line;
use crate::reading::read_line;
use crate::script_line::ScriptLine;
use smbd_base::{Message, NoMemory};
use std::alloc::Global;
use world_core::{Choice, World};

/// The choices of the lines of a text, in order, or the number, from 1, of the first line that is none.
#[tactic(auto, using(crate::proofs::ScriptLemmas::past_good_line))]
pub fn read_script(alloc: Global, text: &[u8]) -> Result<Vec<Choice>, ScriptFault>
    ensures good { IfOk result (λ choices. spec.first_bad_line text.now ≡ None) }
    ensures choices { IfOk result (λ choices. choices.items ≡ spec.script_of text.now) }
    ensures few { IfOk result (λ choices. length choices.items ≤ length text.now) }

    // A number is given for the first bad line alone. Want of memory never hides that the first line is bad.
    ensures fault { IfErr result (λ fault. spec.IsScriptFault fault text.now) }
{
    let mut choices = Vec::new(alloc);
    let mut rest = text;
    let mut number: u64 = 0;
    while let Some((line, after)) = next_line(rest) {
        number += 1;
        let Some(said) = read_line(line) else {
            return Err(ScriptFault::Line(number));
        };
        choices.reserve(1)?;
        choices.push_reserved(choice_of(alloc, said)?);
        rest = after;
    }
    Ok(choices)
}

/// The number, from 1, of the first line of a text that is none of a script, where there is one. It takes no memory.
pub fn first_bad_line(text: &[u8]) -> Option<u64>
    ensures { result ≡ spec.first_bad_line text.now }
{
    let mut rest = text;
    let mut number: u64 = 0;
    while let Some((line, after)) = next_line(rest) {
        number += 1;
        if read_line(line).is_none() {
            return Some(number);
        }
        rest = after;
    }
    None
}

/// Has a world do the choices of the lines of a text, in order; a line that is none makes no choice. Each choice is made when
/// its turn comes, so that a message takes memory only once it is submitted. Where memory is wanting, the first of the choices
/// are done.
pub fn run_text(alloc: Global, world: &mut World, text: &[u8]) -> Result<(), NoMemory>
    ensures run { OnOk result (world.new ≡ fold step_of world.old (spec.script_of text.now)) }
    ensures few { OnOk result (length (spec.script_of text.now) ≤ length text.now) }
{
    let mut rest = text;
    while let Some((line, after)) = next_line(rest) {
        if let Some(said) = read_line(line) {
            world.step(&choice_of(alloc, said)?)?;
        }
        rest = after;
    }
    Ok(())
}

/// The choice that a line makes.
fn choice_of(alloc: Global, line: ScriptLine) -> Result<Choice, NoMemory>
    ensures { IfOk result (λ choice. choice ≡ spec.choice_of line) }
{
    Ok(match line {
        ScriptLine::Submit { end, length, first } => {
            Choice::Submit(end, counted_message(alloc, length, first)?)
        }
        ScriptLine::Drive(end) => Choice::Drive(end),
        ScriptLine::Carry(end) => Choice::Carry(end),
        ScriptLine::Cut(end) => Choice::Cut(end),
    })
}

/// A message of so many bytes that count up from the first one.
fn counted_message(alloc: Global, length: u32, first: u8) -> Result<Message, NoMemory>
    ensures { IfOk result (λ message. message ≡ spec.counted_bytes length first) }
{
    let mut bytes = Vec::with_capacity(alloc, length as usize)?;
    for i in 0..length {
        let byte = (u64::from(first) + u64::from(i)) % 256;
        bytes.push_reserved(byte as u8);
    }
    Message::of_bytes(bytes)
}
