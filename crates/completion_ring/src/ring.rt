//! A new ring, and its two ends beside each other.

ghost use Rattle.std.specs.Prelude.{◌≡◌, ◌+◌, ◌≤◌, [], ◌++◌, length, IfOk};
ghost use Rattle.completion_ring.specs.Rings.{sent, free, room, received, known, ArePair, SameJobs, SameDone};

use crate::done::Done;
use crate::jobs::Jobs;
use rtrb::RingBuffer;
use smbd_base::NoMemory;
use std::alloc::Global;

/// Both ends of a new ring with room for so many items, from 1 to 4,096 (this project's own).
pub fn pair<T: Drop>(alloc: Global, capacity: u32) -> Result<(Jobs<T>, Done<T>), NoMemory>
    requires some { 1 ≤ capacity }
    requires most { capacity ≤ 4096 }
    ensures pair { IfOk result (λ r. ArePair r.0 r.1) }
    ensures jobs { IfOk result (λ r. (sent r.0 ≡ []) × (free r.0 ≡ capacity) × (room r.0 ≡ capacity)) }
    ensures done { IfOk result (λ r. (received r.1 ≡ []) × (known r.1 ≡ [])) }
{
    let (producer, consumer) = RingBuffer::new(alloc, capacity as usize)?;
    Ok((Jobs { producer }, Done { consumer }))
}

/// Sets the two ends of a ring beside each other: both then know what was offered and what came out, which is a front of it.
pub fn beside<T>(jobs: &mut Jobs<T>, done: &mut Done<T>)
    requires { ArePair jobs.old done.old }
    ensures ring { SameJobs jobs.old jobs.new × SameDone done.old done.new }
    ensures pair { ArePair jobs.new done.new }
    ensures sent { sent jobs.new ≡ sent jobs.old }
    ensures received { received done.new ≡ received done.old }
    ensures known { received done.new ++ known done.new ≡ sent jobs.new }
    ensures free { room jobs.new + length (received done.new) ≤ free jobs.new + length (sent jobs.new) }
{
    jobs.producer.slots_beside(&mut done.consumer);
    done.consumer.slots_beside(&mut jobs.producer);
}
