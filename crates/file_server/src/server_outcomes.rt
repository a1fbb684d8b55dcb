//! What came of the jobs of one request.

ghost use Rattle.std.specs.Prelude.{◌≡◌, ◌≤◌, ◌+◌, List, ◌++◌, map, IfOk, Some, None, ◌<◌, length, slice_set, vec_capacity, vec_len};
ghost use Rattle.std.specs.List.{flat_map};
ghost use Rattle.file_messages.specs.declared.job.Work.{Work};
ghost use Rattle.file_server.specs.ServerTurn.{AreFitting, status_from, status_then, fetched_in, total_in, outcome_bytes};

use file_messages::{Work, WorkResult};
use smbd_base::NoMemory;
use std::alloc::Global;
use std::collections::VecDeque;

/// The status of a request with these outcomes: that of the first refused job in the list, or 0. None as long as one job
/// is not completed.
pub(crate) fn status_of(outcomes: &[Option<WorkResult>]) -> Option<u16>
    ensures { result ≡ status_from 0 outcomes.now }
{
    let mut status = 0;
    for outcome in outcomes {
        match outcome {
            Some(result) => status = status_after(status, result),
            None => return None,
        }
    }
    Some(status)
}

fn status_after(status: u16, outcome: &WorkResult) -> u16
    ensures { result ≡ status_then status outcome.now }
{
    match outcome {
        WorkResult::Refused(refusal) if status == 0 => *refusal,
        _ => status,
    }
}

/// The bytes that the Fetches brought, one after another, put into the room that was made for them.
pub(crate) fn joined(mut room: Vec<u8>, outcomes: &[Option<WorkResult>]) -> Vec<u8>
    requires { vec_len room + outcome_bytes outcomes.now ≤ vec_capacity room }
    ensures { result.items ≡ room.items ++ flat_map fetched_in outcomes.now }
{
    for outcome in outcomes {
        if let Some(WorkResult::Fetched(part)) = outcome {
            room.extend_from_slice(part.bytes()).unwrap();
        }
    }
    room
}

/// None of these jobs is completed.
pub(crate) fn none_yet(
    alloc: Global,
    jobs: &VecDeque<Work>,
) -> Result<Vec<Option<WorkResult>>, NoMemory>
    ensures { IfOk result (λ v. v.items ≡ map (λ (w : Work). None) jobs.now.items) }
{
    Ok(jobs.iter().map(|_job| None).collect(alloc)?)
}

/// The job at this place is completed so.
pub(crate) fn note(outcomes: &mut Vec<Option<WorkResult>>, place: usize, came: WorkResult)
    requires { place < length outcomes.old.items }
    ensures { outcomes.new.items ≡ slice_set outcomes.old.items place (Some came) }
{
    outcomes[place] = Some(came);
}
