//! The commands that words name.

ghost use Rattle.std.specs.Prelude.{◌≡◌, ◌≤◌, IfOk, IfSome, Some};
ghost use Rattle.smbd_base.specs.Limits.{IsWithin, usual_limits};
ghost use Rattle.command_words.specs.Command as spec;
ghost use Rattle.command_words.specs.Lawful.{IsAsked};
ghost use Rattle.std.specs.List.{list_any};
ghost use Rattle.clap.specs.Words.{found_of};
ghost use Rattle.command_words.specs.Given.{is_stray};
ghost use Rattle.command_words.specs.Parser.{given_found};
ghost use Rattle.command_words.specs.Seen.{seen, text_of, texts};

use crate::given::{Given, is_stray, parser_of_words};
use crate::options::{Command, CopyCommand, Plain};
use crate::words::Word;
use clap::ArgMatches;
use clap::error::ErrorKind;
use copy_parts::CopyOptions;
use event_log::number_in;
use file_messages::{Channel, CopyKind};
use smbd_base::{EndLimits, NoMemory};
use std::alloc::Global;
use std::convert::AsStr;

/// The workers of each end where the words don't name their number.
const USUAL_WORKERS: u8 = 4;

/// The length of the longest made input, in bytes.
const MOST_MADE: u64 = 16_777_216;

/// The command of this name with what is given.
fn command_given(name: &Word, given: &Given) -> Option<Command>
    ensures { result ≡ spec.command_given name.now (seen given.now) }
{
    if name.is("put") {
        return copy_given(CopyKind::Put, given);
    }
    if name.is("get") {
        return copy_given(CopyKind::Get, given);
    }
    if name.is("load") {
        return load_given(given);
    }
    if name.is("sim") {
        return sim_given(given);
    }
    if name.is("show") {
        return show_given(given);
    }
    None
}

/// A copy of this kind, which has every option and no other word.
fn copy_given(kind: CopyKind, given: &Given) -> Option<Command>
    ensures { result ≡ spec.copy_given kind (seen given.now) }
{
    if !given.values.is_empty() {
        return None;
    }
    let options = options_given(kind, given)?;
    Some(Command::Copy(CopyCommand::Copy(options)))
}

/// `load`, which has every option but `--cut`, and two other words.
fn load_given(given: &Given) -> Option<Command>
    ensures { result ≡ spec.load_given (seen given.now) }
{
    if given.cut.is_some() {
        return None;
    }
    let (first, length) = load_values(given.values)?;
    let options = options_given(CopyKind::Put, given)?;
    Some(Command::Copy(CopyCommand::Load {
        first,
        length,
        options,
    }))
}

/// The first byte of a made input, and its length in bytes.
fn load_values(values: &[&str]) -> Option<(u8, u32)>
    ensures { result ≡ spec.load_values (texts values.now) }
{
    let [first, length] = values else {
        return None;
    };
    let first = number_in(first.as_bytes(), 0, 255)?;
    let length = number_in(length.as_bytes(), 0, MOST_MADE)?;
    Some((first as u8, length as u32))
}

/// `sim`, which has the options of two limits and no other word.
fn sim_given(given: &Given) -> Option<Command>
    ensures { result ≡ spec.sim_given (seen given.now) }
{
    if !is_for_sim(given) {
        return None;
    }
    let limits = limits_given(given)?;
    Some(Command::Plain(Plain::Sim(limits)))
}

fn is_for_sim(given: &Given) -> bool
    ensures { result ≡ spec.is_for_sim (seen given.now) }
{
    given.workers.is_none()
        && given.channel.is_none()
        && given.pages.is_none()
        && given.cut.is_none()
        && given.values.is_empty()
}

/// `show`, which has no option and no other word.
fn show_given(given: &Given) -> Option<Command>
    ensures { result ≡ spec.show_given (seen given.now) }
{
    if is_for_sim(given) && given.credits.is_none() && given.send_size.is_none() {
        return Some(Command::Plain(Plain::Show));
    }
    None
}

/// A copy of this kind with the options that are given.
fn options_given(kind: CopyKind, given: &Given) -> Option<CopyOptions>
    ensures { result ≡ spec.options_given kind (seen given.now) }
{
    let channel = channel_given(given.channel)?;
    let workers = number_given(given.workers, USUAL_WORKERS.into(), 1, 8)?;
    let limits = limits_given(given)?;
    let cut = cut_given(given.cut)?;
    Some(CopyOptions {
        kind,
        channel,
        workers: workers as u8,
        limits,
        cut,
    })
}

/// The usual limits, but for what is given.
fn limits_given(given: &Given) -> Option<EndLimits>
    ensures { result ≡ spec.limits_given (seen given.now) }
{
    let usual = EndLimits::usual();
    let credits = number_given(given.credits, usual.credits().into(), 3, 255)?;
    let send_size = number_given(given.send_size, usual.send_size().into(), 128, 8_192)?;
    let pages = number_given(given.pages, usual.pages().into(), 16, 255)?;
    limits_with(credits as u16, send_size as u32, pages as u16)
}

/// The usual limits, but for these three.
#[tactic(auto, unfolding(smbd_base::specs::Limits::is_outside))]
fn limits_with(credits: u16, send_size: u32, pages: u16) -> Option<EndLimits>
    requires credits { IsWithin 3 255 credits }
    requires send_size { IsWithin 128 8192 send_size }
    requires pages { IsWithin 16 255 pages }
    ensures { result ≡ Some (record usual_limits { credits = credits; send_size = send_size; pages = pages }) }
{
    let usual = EndLimits::usual();
    EndLimits::check(
        credits,
        send_size,
        usual.receive_size(),
        usual.fragmented_size(),
        pages,
    )
    .ok()
}

/// Over registered pages, where the channel isn't given.
fn channel_given(name: Option<&str>) -> Option<Channel>
    ensures { result ≡ spec.channel_given (text_of name.entry) }
{
    let Some(name) = name else {
        return Some(Channel::V1);
    };
    match name {
        "none" => Some(Channel::None),
        "v1" => Some(Channel::V1),
        _ => None,
    }
}

/// The number of the frame in whose place the link is cut, where that is asked for.
fn cut_given(text: Option<&str>) -> Option<Option<u32>>
    ensures { result ≡ spec.cut_given (text_of text.entry) }
{
    let Some(text) = text else {
        return Some(None);
    };
    let number = number_in(text.as_bytes(), 1, u32::MAX.into())?;
    Some(Some(number as u32))
}

/// The number of this range that an option's text spells, or the usual one where the option isn't given.
fn number_given(text: Option<&str>, usual: u64, least: u64, most: u64) -> Option<u64>
    requires { IsWithin least most usual }
    ensures value { result ≡ spec.number_given usual least most (text_of text.entry) }
    ensures least { IfSome result (λ n. least ≤ n) }
    ensures most { IfSome result (λ n. n ≤ most) }
{
    match text {
        Some(text) => number_in(text.as_bytes(), least, most),
        None => Some(usual),
    }
}

/// The command that the words name, if they name one: its name comes first, and then its options, each at most once, as `--name text` or
/// `--name=text`, and the two values of `load`, in any order.
pub fn command_of(alloc: Global, words: &[Word]) -> Result<Option<Command>, NoMemory>
    ensures value { IfOk result (λ command. command ≡ spec.command_of words.now) }
    ensures asked { IfSome (spec.command_of words.now) IsAsked }
{
    match words.split_first() {
        Some((name, rest)) => command_with(alloc, name, rest),
        None => Ok(None),
    }
}

/// The command of this name with the words after it.
fn command_with(alloc: Global, name: &Word, rest: &[Word]) -> Result<Option<Command>, NoMemory>
    ensures { IfOk result (λ command. command ≡ spec.command_with name.now rest.now) }
{
    if has_stray(rest) {
        return Ok(None);
    }
    match parser_of_words(alloc)?.try_get_matches_from(rest) {
        Ok(matches) => Ok(command_found(name, &matches)),
        Err(error) => match error.kind() {
            ErrorKind::OutOfMemory => Err(NoMemory),
            _ => Ok(None),
        },
    }
}

/// The command of this name with what the parser found.
fn command_found(name: &Word, matches: &ArgMatches) -> Option<Command>
    ensures { result ≡ spec.command_given name.now (given_found (found_of matches.now)) }
{
    let given = Given {
        workers: matches.get_str("workers"),
        channel: matches.get_str("channel"),
        credits: matches.get_str("credits"),
        send_size: matches.get_str("send-size"),
        pages: matches.get_str("pages"),
        cut: matches.get_str("cut"),
        values: matches.get_strs("values").unwrap_or(&[]),
    };
    command_given(name, &given)
}

/// Whether one of the words has no place on a command line.
fn has_stray(words: &[Word]) -> bool
    ensures { result ≡ list_any is_stray words.now }
{
    words.iter().any(|word| is_stray(word.as_str()))
}
