ghost use Rattle.std.specs.Prelude.{◌≡◌, ◌<◌, ◌≤◌, ℕ, All, Contains, IfOk, vec_len, slice_index_or};

use crate::close::close;
use crate::gate::Gate;
use crate::job::Job;
use crate::open::open;
use crate::order::in_order;
use crate::tickets::Tickets;
use crate::work::work_each;
use std::alloc::{AllocError, Global};
use std::thread::Threads;

/// One result for each job, in order of number.
///
/// Each state is one worker, which is numbered by the state's place, and the states come back in their order. The
/// workers run beside each other, in threads: with one state none is started, and the caller does the work of one that
/// can't be started. The error is out of memory, here or in a worker; the others then stop before their next job.
pub fn run_all<R: Threads + Sync, J: Job + Sync, G: Gate + Sync>(
    rt: &R,
    alloc: Global,
    jobs: u32,
    states: &mut Vec<J::State>,
    job: &J,
    gate: &G,
) -> Result<Vec<J::Done>, AllocError>
    requires workers { (0 < vec_len states.old) × (vec_len states.old ≤ 64) }
    requires fit { All (J.is_fit job.now) states.old.items }
    requires jobs { (n : ℕ) → n < jobs → J.is_job job.now n }

    // The states, after an error too.
    ensures workers { vec_len states.new ≡ vec_len states.old }
    ensures fit { All (J.is_fit job.now) states.new.items }
    ensures onward { (k : ℕ) (s : J.State) → k < vec_len states.old
        → J.goes_on job.now (slice_index_or states.old.items k s) (slice_index_or states.new.items k s) }

    // Each result is right beside the state that its worker is left with.
    ensures len { IfOk result (λ all. vec_len all ≡ jobs) }
    ensures right { IfOk result (λ all. (i : ℕ) (d : J.Done) → i < jobs
        → (s : J.State) × Contains states.new.items s
        × J.is_right job.now i s (slice_index_or all.items i d)) }
{
    let (tickets, seat) = Tickets::new(alloc, jobs)?;
    let mut stations = Vec::with_capacity(alloc, states.len())?;
    open(alloc, &tickets, job, seat, states, &mut stations);
    work_each(rt, &tickets, job, gate, &mut stations);
    let results = close(&tickets, job, stations, states)?;
    in_order(alloc, jobs, results)
}
