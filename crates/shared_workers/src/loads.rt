//! Loads: a page is loaded, and its record issued.

ghost use Rattle.std.specs.Prelude.{◌≡◌, ◌+◌, ◌≤◌, ◌<◌, length};
ghost use Rattle.shared_pages.specs.declared.view.Sight.{Sight};
ghost use Rattle.shared_pages.specs.Calls.{known_by, opening_of, IsOf, MayMake};
ghost use Rattle.page_workers.specs.declared.kept.Kept.TheVariants as keeps;
ghost use Rattle.page_workers.specs.Tries.{load_job};
ghost use Rattle.shared_workers.specs.Tries.{HasTried, loaded_as, issued_as};

use crate::tries::{Attempt, refused};
use buffer_descriptor::Descriptor;
use event_log::LogLine;
use file_messages::{Completion, WorkResult};
use page_workers::{Kept, Tried};
use shared_pages::PagePass;
use shared_records::Issue;
use shared_region::{Region, Register};
use smbd_base::{Message, PAGE_SIZE, Right, Token};

/// What the answer of a registration makes of a load.
fn loaded(answer: &Register, number: u64, right: Right, length: u32) -> Tried
    ensures { result ≡ loaded_as answer.now number right length }
{
    match answer {
        Register::Registered(descriptor) => Tried::Finished(Completion {
            number,
            result: WorkResult::Loaded(*descriptor),
        }),
        Register::Unissued { token, .. } => Tried::Begun(Kept::Loaded {
            number,
            token: *token,
            right,
            length,
        }),
        Register::Live(_) => Tried::Refused,
        Register::Busy => Tried::Refused,
        Register::Spent => Tried::Refused,
    }
}

/// What the answer of issuing a record makes of a load.
fn issued(answer: Issue, number: u64, token: Token, length: u32) -> Tried
    ensures { result ≡ issued_as answer number token length }
{
    match answer {
        Issue::Done => Tried::Finished(Completion {
            number,
            result: WorkResult::Loaded(Descriptor {
                offset: token.start(),
                token: token.number(),
                length,
            }),
        }),
        Issue::Present(_) => Tried::Refused,
        Issue::Busy => Tried::Refused,
        Issue::Again { .. } => Tried::Refused,
    }
}

/// Loads a page, and issues its record.
pub(crate) fn load(
    region: &Region,
    pass: &mut PagePass,
    number: u64,
    page: u8,
    right: Right,
    bytes: &Message,
) -> Attempt
    requires own { IsOf region.now.pages pass.old }
    requires few { MayMake (known_by pass.old) }
    ensures own { IsOf region.now.pages pass.new }
    ensures few { length (known_by pass.new).made ≤ length (known_by pass.old).made + 1 }
    ensures tried { HasTried (opening_of region.now.pages) (keeps.Fresh (load_job number page right bytes.now)) result.tried result.line (known_by pass.old) (known_by pass.new) }
{
    if u16::from(page) >= region.count() {
        return refused();
    }
    if bytes.is_empty() || bytes.len() > PAGE_SIZE as usize {
        return refused();
    }
    let length = bytes.len() as u32;
    let answer = region.register(pass, page, right, bytes.bytes());
    let tried = loaded(&answer, number, right, length);
    match &answer {
        Register::Registered(descriptor) => {
            let Some(token) = Token::from_number(descriptor.token) else {
                unreachable!()
            };
            Attempt {
                tried,
                line: Some(LogLine::Load {
                    token,
                    right,
                    length,
                }),
            }
        }
        Register::Unissued { token, .. } => Attempt {
            tried,
            line: Some(LogLine::Load {
                token: *token,
                right,
                length,
            }),
        },
        Register::Live(_) => Attempt { tried, line: None },
        Register::Busy => Attempt { tried, line: None },
        Register::Spent => Attempt { tried, line: None },
    }
}

/// Issues the record of a page that was loaded without it.
pub(crate) fn issue(
    region: &Region,
    number: u64,
    token: Token,
    right: Right,
    length: u32,
) -> Attempt
    ensures { (sight : Sight) → HasTried (opening_of region.now.pages) (keeps.Loaded number token right length) result.tried result.line sight sight }
{
    if u16::from(token.page()) >= region.count() {
        return refused();
    }
    if length == 0 || length > PAGE_SIZE {
        return refused();
    }
    let answer = region.retry_issue(token, right, length);
    Attempt {
        tried: issued(answer, number, token, length),
        line: None,
    }
}
