ghost use Rattle.std.specs.Prelude.{◌≡◌, ◌<◌, ◌+◌, [], ℕ, All, OnOk, length, slice_index_or, vec_len};
ghost use Rattle.std.specs.List.{AllZip};
ghost use Rattle.work_share.specs.Seat.{spare_of, jobs_of, IsSeatOf};
ghost use Rattle.work_share.specs.Station.{IsReady, IsOver, HasFinished, HasWorked, states_of, weights_of};

use crate::gate::Gate;
use crate::job::Job;
use crate::station::{Numbered, Station};
use crate::tickets::Tickets;
use std::alloc::{AllocError, Global};
use std::sync::atomic::{AtomicBool, Ordering};
use std::thread;
use std::thread::Threads;

// Draws and runs jobs until none is left. The error is out of memory, here or in another worker.
fn run_jobs<J: Job, G: Gate>(
    tickets: &Tickets,
    job: &J,
    gate: &G,
    stopped: &AtomicBool,
    station: &mut Station<J::State, J::Done>,
) -> Result<(), AllocError>
    requires { IsReady (J.is_job job.now) (J.is_fit job.now) tickets.now station.old }
    ensures ours { IsSeatOf tickets.now station.new.seat }
    ensures spare { spare_of station.new.seat ≡ spare_of station.old.seat }
    ensures fit { J.is_fit job.now station.new.state }
    ensures onward { J.goes_on job.now station.old.state station.new.state }
    ensures finished { OnOk result
        (HasFinished (J.is_right job.now) (jobs_of tickets.now) station.new) }
{
    while let Some(number) = tickets.draw(&mut station.seat) {
        if stopped.load(Ordering::SeqCst) {
            return Err(AllocError);
        }
        gate.began(station.worker, number);
        let done = job.run(number, &mut station.state)?;
        station.results.push(Numbered { number, done })?;
    }
    Ok(())
}

// One worker. Where it runs out of memory it tells the others, so that they stop soon.
fn work_at<J: Job, G: Gate>(
    tickets: &Tickets,
    job: &J,
    gate: &G,
    stopped: &AtomicBool,
    station: &mut Station<J::State, J::Done>,
)
    requires { IsReady (J.is_job job.now) (J.is_fit job.now) tickets.now station.old }
    ensures { HasWorked (J.is_fit job.now) (J.goes_on job.now) (J.is_right job.now) tickets.now
        station.old station.new }
{
    match run_jobs(tickets, job, gate, stopped, station) {
        Ok(()) => {}
        Err(_) => {
            station.failed = true;
            stopped.store(true, Ordering::SeqCst);
        }
    }
}

// One worker at each station, each in a thread of its own where one can be started.
fn work_at_all<R: Threads + Sync, J: Job + Sync, G: Gate + Sync>(
    rt: &R,
    tickets: &Tickets,
    job: &J,
    gate: &G,
    stations: &mut [Station<J::State, J::Done>],
)
    requires ready { All (IsReady (J.is_job job.now) (J.is_fit job.now) tickets.now) stations.old }
    requires some { 0 < length stations.old }
    ensures { (k : ℕ) (d : _) → k < length stations.old
        → HasWorked (J.is_fit job.now) (J.goes_on job.now) (J.is_right job.now) tickets.now
        (slice_index_or stations.old k d) (slice_index_or stations.new k d) }
{
    let stopped = AtomicBool::new(false);
    let count = stations.len();
    thread::for_each_mut(
        rt,
        stations,
        count,
        &|_: usize, station: &mut Station<J::State, J::Done>|
            requires { IsReady (J.is_job job.now) (J.is_fit job.now) tickets.now station.now }
            ensures { HasWorked (J.is_fit job.entry.now) (J.goes_on job.entry.now) (J.is_right job.entry.now)
                tickets.entry.now station.entry.now station.exit.now }
        { work_at(tickets, job, gate, &stopped, station) },
    );
}

// The same for the stations of a `Vec`.
pub(crate) fn work_each<R: Threads + Sync, J: Job + Sync, G: Gate + Sync>(
    rt: &R,
    tickets: &Tickets,
    job: &J,
    gate: &G,
    stations: &mut Vec<Station<J::State, J::Done>>,
)
    requires ready { All (IsReady (J.is_job job.now) (J.is_fit job.now) tickets.now) stations.old.items }
    requires some { 0 < vec_len stations.old }
    ensures over { All (IsOver (J.is_fit job.now) (J.is_right job.now) tickets.now) stations.new.items }
    ensures onward { AllZip (J.goes_on job.now) (states_of stations.old.items) (states_of stations.new.items) }
    ensures weights { weights_of stations.new.items ≡ weights_of stations.old.items }
    ensures count { vec_len stations.new ≡ vec_len stations.old }
{
    work_at_all(rt, tickets, job, gate, stations.as_mut_slice());
}
