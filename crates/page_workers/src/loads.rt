//! Loads: a page is loaded, and its record issued.

ghost use Rattle.std.specs.Prelude.{◌≡◌};
ghost use Rattle.page_workers.specs.declared.kept.Kept.TheVariants as keeps;
ghost use Rattle.page_workers.specs.Tries.{HasTried, load_job};

use crate::kept::{Kept, Tried};
use crate::tries::{Attempt, refused};
use buffer_descriptor::Descriptor;
use event_log::LogLine;
use file_messages::{Completion, WorkResult};
use page_slots::PagePass;
use registration::{Region, Register};
use smbd_base::{Message, PAGE_SIZE, Right, Token};
use token_table::Issue;

/// Loads a page, and issues its record.
pub(crate) fn load(
    region: &mut Region,
    pass: &mut PagePass,
    number: u64,
    page: u8,
    right: Right,
    bytes: &Message,
) -> Attempt
    ensures tried { HasTried (keeps.Fresh (load_job number page right bytes.now)) result.tried result.line region.old region.new }
    ensures pass { pass.new ≡ pass.old }
{
    if usize::from(page) >= region.count() {
        return refused();
    }
    if bytes.is_empty() || bytes.len() > PAGE_SIZE as usize {
        return refused();
    }
    let length = bytes.len() as u32;
    match region.register(pass, page, right, bytes.bytes()) {
        Register::Registered(descriptor) => {
            let Some(token) = Token::from_number(descriptor.token) else {
                unreachable!()
            };
            Attempt {
                tried: Tried::Finished(Completion {
                    number,
                    result: WorkResult::Loaded(descriptor),
                }),
                line: Some(LogLine::Load {
                    token,
                    right,
                    length,
                }),
            }
        }
        Register::Unissued { token, .. } => Attempt {
            tried: Tried::Begun(Kept::Loaded {
                number,
                token,
                right,
                length,
            }),
            line: Some(LogLine::Load {
                token,
                right,
                length,
            }),
        },
        Register::Live(_) => refused(),
        Register::Busy => refused(),
        Register::Spent => refused(),
    }
}

/// Issues the record of a page that was loaded without it.
pub(crate) fn issue(
    region: &mut Region,
    number: u64,
    token: Token,
    right: Right,
    length: u32,
) -> Attempt
    ensures { HasTried (keeps.Loaded number token right length) result.tried result.line region.old region.new }
{
    if usize::from(token.page()) >= region.count() {
        return refused();
    }
    if length == 0 || length > PAGE_SIZE {
        return refused();
    }
    match region.retry_issue(token, right, length) {
        Issue::Done => Attempt {
            tried: Tried::Finished(Completion {
                number,
                result: WorkResult::Loaded(Descriptor {
                    offset: token.start(),
                    token: token.number(),
                    length,
                }),
            }),
            line: None,
        },
        Issue::Present(_) => refused(),
        Issue::Busy => refused(),
        Issue::Again { .. } => refused(),
    }
}
