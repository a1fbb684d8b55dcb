//! What the words after a command give, by a parser of command lines.

ghost use Rattle.std.specs.Prelude.{◌≡◌, IfOk, false};
ghost use Rattle.clap.specs.Words.{app_of, rule_of};
ghost use Rattle.command_words.specs.Given.{after_hyphen, is_stray};
ghost use Rattle.command_words.specs.Parser.{option_rule, values_rule, parser_app};
ghost use Rattle.command_words.specs.Seen.{text_of};

use clap::{Arg, ArgAction};
use std::alloc::{AllocError, Global};

/// The text of each option, where it is given, and the words that belong to no option, in their order.
#[derive(Clone, Copy)]
pub(crate) struct Given<'w> {
    pub workers: Option<&'w str>,
    pub channel: Option<&'w str>,
    pub credits: Option<&'w str>,
    pub send_size: Option<&'w str>,
    pub pages: Option<&'w str>,
    pub cut: Option<&'w str>,
    pub values: &'w [&'w str],
}

/// Whether a word begins with a single hyphen, or is `--` alone: such a word is kept from the parser, which would take some of them.
pub(crate) fn is_stray(word: &str) -> bool
    ensures { result ≡ is_stray word.now }
{
    let Some(rest) = after_hyphen(word) else {
        return false;
    };
    match after_hyphen(rest) {
        Some(name) => name.is_empty(),
        None => true,
    }
}

/// What follows a hyphen in front.
fn after_hyphen(word: &str) -> Option<&str>
    ensures { text_of result ≡ after_hyphen word.now }
{
    word.strip_prefix('-')
}

/// A parser of the words after a command: options, each at most once, and other words. It has no help and no version of its own.
pub(crate) fn parser_of_words<'w>(alloc: Global) -> Result<clap::Command<'w>, AllocError>
    ensures { IfOk result (λ parser. app_of parser ≡ parser_app) }
{
    clap::Command::new(alloc, "smbd")
        .no_binary_name(true)
        .disable_help_flag(true)
        .disable_version_flag(true)
        .arg(option_of_name(alloc, "workers"))?
        .arg(option_of_name(alloc, "channel"))?
        .arg(option_of_name(alloc, "credits"))?
        .arg(option_of_name(alloc, "send-size"))?
        .arg(option_of_name(alloc, "pages"))?
        .arg(option_of_name(alloc, "cut"))?
        .arg(other_words(alloc))
}

/// The option `--name`, which takes one text.
fn option_of_name<'w>(alloc: Global, name: &'w str) -> Arg<'w>
    ensures rule { rule_of result ≡ option_rule name.entry.now }
    ensures local { result.global ≡ false }
{
    Arg::new(alloc, name).long(name).action(ArgAction::Set)
}

/// The words that belong to no option, of any number.
fn other_words<'w>(alloc: Global) -> Arg<'w>
    ensures rule { rule_of result ≡ values_rule }
    ensures local { result.global ≡ false }
{
    Arg::new(alloc, "values").action(ArgAction::Append)
}
