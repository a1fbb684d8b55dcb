//! Ends whose counts are known: what a ledger records, and what may be spent then.

ghost use Rattle.std.specs.Prelude.{◌≡◌, ◌≤◌};

use credit_ledger::Ledger;
use std::process::Abort;

/// A step of an end, with the receives that are posted, or the credits that the frame grants.
#[derive(Clone, Copy)]
enum Step {
    Posted(u16),
    Took(u16),
    Spend(u16),
    SpendRequest,
}

/// An end of so many receives, after these steps: what is held, outstanding and grantable, and the grants with which a
/// frame may be sent or may not.
#[derive(Clone, Copy)]
struct Row<'a> {
    name: &'a str,
    max: u16,
    steps: &'a [Step],
    counts: (u16, u16, u16),
    may: &'a [u16],
    may_not: &'a [u16],
}

const ROWS: &[Row<'static>] = &[
    Row {
        name: "an end of three receives",
        max: 3,
        steps: &[],
        counts: (1, 1, 2),
        may: &[1, 2],
        may_not: &[0, 3, 65_535],
    },
    Row {
        name: "an end of 255 receives",
        max: 255,
        steps: &[],
        counts: (1, 1, 254),
        may: &[1, 254],
        may_not: &[0, 255],
    },
    Row {
        name: "a client that has sent its request",
        max: 3,
        steps: &[Step::SpendRequest],
        counts: (0, 1, 2),
        may: &[],
        may_not: &[0, 1, 2],
    },
    Row {
        name: "a client that was granted one credit",
        max: 3,
        steps: &[Step::SpendRequest, Step::Took(1)],
        counts: (1, 0, 2),
        may: &[1, 2],
        may_not: &[0, 3],
    },
    Row {
        name: "a client that was granted 255 credits",
        max: 3,
        steps: &[Step::SpendRequest, Step::Took(255), Step::Posted(1)],
        counts: (255, 0, 3),
        may: &[0, 1, 3],
        may_not: &[4],
    },
    Row {
        name: "a client that has granted all",
        max: 3,
        steps: &[
            Step::SpendRequest,
            Step::Took(3),
            Step::Posted(1),
            Step::Spend(3),
            Step::Spend(0),
        ],
        counts: (1, 3, 0),
        may: &[],
        may_not: &[0, 1],
    },
    Row {
        name: "a client that was granted more after that",
        max: 3,
        steps: &[
            Step::SpendRequest,
            Step::Took(3),
            Step::Posted(1),
            Step::Spend(3),
            Step::Spend(0),
            Step::Took(2),
            Step::Posted(1),
        ],
        counts: (3, 2, 1),
        may: &[0, 1],
        may_not: &[2],
    },
    Row {
        name: "a server that has taken the request",
        max: 10,
        steps: &[Step::Took(0), Step::Posted(1)],
        counts: (1, 0, 10),
        may: &[1, 10],
        may_not: &[0, 11],
    },
    Row {
        name: "a server that has sent its response",
        max: 10,
        steps: &[Step::Took(0), Step::Posted(1), Step::Spend(10)],
        counts: (0, 10, 0),
        may: &[],
        may_not: &[0, 1, 10],
    },
    Row {
        name: "a server that has refused a version",
        max: 10,
        steps: &[Step::Took(0), Step::Posted(1), Step::SpendRequest],
        counts: (0, 0, 10),
        may: &[],
        may_not: &[0, 1, 10],
    },
    Row {
        name: "a server that keeps its last credit",
        max: 10,
        steps: &[
            Step::Took(0),
            Step::Posted(1),
            Step::Spend(10),
            Step::Took(2),
            Step::Spend(0),
        ],
        counts: (1, 9, 0),
        may: &[],
        may_not: &[0, 1],
    },
    Row {
        name: "the most credits",
        max: 255,
        steps: &[Step::Took(65_534)],
        counts: (65_535, 0, 254),
        may: &[0, 254],
        may_not: &[255],
    },
    Row {
        name: "no more than the most credits",
        max: 255,
        steps: &[Step::Took(65_535), Step::Spend(1), Step::Took(65_535)],
        counts: (65_535, 0, 253),
        may: &[0, 253],
        may_not: &[254],
    },
];

/// Does one step, whose condition holds.
fn does(rt: &impl Abort, ledger: &mut Ledger, max: u16, step: Step)
    requires { ledger.old.max_receives ≡ max }
    ensures { ledger.new.max_receives ≡ max }
{
    match step {
        Step::Posted(n) => {
            let stand = ledger.grantable() as u32 + ledger.outstanding() as u32;
            assert!(rt; stand + n as u32 <= max as u32);
            ledger.posted(n);
        }
        Step::Took(granted) => {
            assert!(rt; ledger.outstanding() >= 1);
            ledger.took(granted);
        }
        Step::Spend(grant) => {
            assert!(rt; ledger.may_spend(grant));
            ledger.spend(grant);
        }
        Step::SpendRequest => {
            assert!(rt; ledger.held() == 1);
            ledger.spend_request();
        }
    }
}

/// The ledger of an end of so many receives after these steps.
fn follow(rt: &impl Abort, max: u16, steps: &[Step]) -> Ledger {
    assert!(rt; 3 <= max && max <= 255);
    let mut ledger = Ledger::open(max);
    for step in steps {
        does(rt, &mut ledger, max, *step);
    }
    ledger
}

/// Looks at what a ledger holds and may spend.
fn stands(rt: &impl Abort, ledger: &Ledger, row: &Row<'_>) {
    let name = row.name;
    let counts = (ledger.held(), ledger.outstanding(), ledger.grantable());
    assert!(rt; counts == row.counts, "{name}");
    for grant in row.may {
        assert!(rt; ledger.may_spend(*grant), "{name}: {grant}");
    }
    for grant in row.may_not {
        assert!(rt; !ledger.may_spend(*grant), "{name}: {grant}");
    }
}

#[test]
fn ledgers_count_and_keep_the_last_credit(rt: HostRuntime) {
    for row in ROWS {
        let ledger = follow(&rt, row.max, row.steps);
        stands(&rt, &ledger, row);
    }
}
