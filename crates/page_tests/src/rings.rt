//! A ring of two places.

ghost use Rattle.completion_ring.specs.Rings.{SameJobs, SameDone};

use crate::MEMORY;
use completion_ring::{Done, Full, Jobs, beside, pair};
use std::process::Abort;

/// Whether a number comes back, since there is no room.
fn comes_back(offered: Result<(), Full<u32>>, number: u32) -> bool {
    match offered {
        Ok(()) => false,
        Err(Full(back)) => back == number,
    }
}

/// Offers three numbers, of which the third comes back.
fn offer_three(rt: &impl Abort, jobs: &mut Jobs<u32>)
    ensures { SameJobs jobs.old jobs.new }
{
    assert!(rt; jobs.offer(7).is_ok());
    assert!(rt; jobs.offer(8).is_ok());
    assert!(rt; comes_back(jobs.offer(9), 9));
}

/// Takes out what is known: the first two numbers, and then nothing.
fn take_two(rt: &impl Abort, done: &mut Done<u32>)
    ensures { SameDone done.old done.new }
{
    assert!(rt; done.count() == 2);
    assert!(rt; done.next() == Some(7));
    assert!(rt; done.next() == Some(8));
    assert!(rt; done.next() == None);
}

#[test]
fn a_ring_of_two_gives_back_the_third(rt: HostRuntime) {
    let (mut jobs, mut done) = pair(rt.alloc(), 2).expect(&rt, MEMORY);
    offer_three(&rt, &mut jobs);
    beside(&mut jobs, &mut done);
    take_two(&rt, &mut done);
    beside(&mut jobs, &mut done);
    assert!(&rt; jobs.offer(9).is_ok());
    beside(&mut jobs, &mut done);
    assert!(&rt; done.next() == Some(9));
}
