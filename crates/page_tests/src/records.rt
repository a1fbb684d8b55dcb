//! Records of pages, issued, held and withdrawn.

ghost use Rattle.std.specs.Prelude.{◌≡◌, ◌<◌, length};
ghost use Rattle.token_table.specs.Records.{IsInPage};

use crate::MEMORY;
use smbd_base::{Right, Token};
use std::process::Abort;
use token_table::{Claimed, Issue, Record, TokenTable, Withdraw};

/// The record of the token's whole page.
fn whole(token: Token) -> Record
    ensures token { result.token ≡ token }
    ensures fits { IsInPage result }
{
    Record {
        token,
        right: Right::Fetch,
        base: u64::from(token.page()) * 4096,
        length: 4096,
    }
}

/// Holds the record so many times more, asks for it while all 16 hold it, and leaves as often.
fn hold_and_leave(rt: &impl Abort, table: &mut TokenTable, token: Token, left: u32)
    ensures { table.new ≡ table.old }
{
    if left == 0 {
        match table.withdraw(token) {
            Withdraw::Busy { readers } => assert_eq!(rt; readers, 16),
            _ => panic!(rt; "a held record was withdrawn"),
        }
        return;
    }
    match table.claim(token) {
        Claimed::Held(hold) => {
            assert!(rt; *hold.shown() == whole(token));
            hold_and_leave(rt, table, token, left - 1);
            table.leave(hold);
        }
        Claimed::Unknown
        | Claimed::Stale
        | Claimed::Crowded
        | Claimed::Again { seen: _, found: _ } => { panic!(rt; "no hold") }
    }
}

/// Whether a claim of the token is stale; it must not be held.
fn is_stale(rt: &impl Abort, table: &mut TokenTable, token: Token) -> bool
    ensures { length table.new ≡ length table.old }
{
    match table.claim(token) {
        Claimed::Stale => true,
        Claimed::Unknown | Claimed::Crowded | Claimed::Again { seen: _, found: _ } => false,
        Claimed::Held(hold) => {
            table.leave(hold);
            panic!(rt; "held")
        }
    }
}

#[test]
fn finds_its_records(rt: HostRuntime) {
    let mut table = TokenTable::open(rt.alloc(), 64).expect(&rt, MEMORY);
    for turn in 0u32..192 {
        let token = Token::new((turn % 64) as u8, turn / 64 + 1);
        assert!(rt; table.issue(whole(token)) == Issue::Done);
        assert!(rt; table.issue(whole(token)) == Issue::Present(token));
        hold_and_leave(&rt, &mut table, token, 16);
        assert!(rt; table.withdraw(token) == Withdraw::Done(whole(token)));
        assert!(rt; is_stale(&rt, &mut table, token));
        assert!(rt; table.withdraw(token) == Withdraw::Stale);
    }
    assert!(rt; table.withdraw(Token::new(64, 1)) == Withdraw::Unknown);
}
