ghost use Rattle.std.specs.Prelude.{◌≡◌, ◌<◌, ◌≤◌, ◌+◌, ◌++◌, ◌∷◌, [], false, All, IfOk, vec_len, vec_capacity};
ghost use Rattle.work_share.specs.Counts.{IsEachBelow};
ghost use Rattle.work_share.specs.Seat.{spare_of, jobs_of, IsSeatOf};
ghost use Rattle.work_share.specs.Station.{IsOver, HasGathered, IsRightBeside, numbers_of, states_of, weights_of};

use crate::job::Job;
use crate::open::add;
use crate::station::{Numbered, Station};
use crate::tickets::{TicketSeat, Tickets};
use std::alloc::AllocError;

// What is taken in of stations: their seats as one, their results in any order, and whether a worker failed.
#[derive(Drop)]
pub(crate) struct Gathered<D> {
    pub(crate) seat: TicketSeat,
    pub(crate) results: Vec<Numbered<D>>,
    pub(crate) failed: bool,
}

// Takes in the first station, whose state goes back.
fn gather_first<J: Job>(
    tickets: &Tickets,
    job: &J,
    station: Station<J::State, J::Done>,
    states: &mut Vec<J::State>,
) -> Gathered<J::Done>
    requires over { IsOver (J.is_fit job.now) (J.is_right job.now) tickets.now station }
    requires room { vec_len states.old < vec_capacity states.old }
    requires empty { states.old.items ≡ [] }
    ensures seat { result.seat ≡ station.seat }
    ensures states { states.new.items ≡ station.state ∷ [] }
    ensures len { vec_len states.new ≡ 1 }
    ensures room { vec_capacity states.old ≤ vec_capacity states.new }
    ensures gathered { result.failed ≡ false
        → HasGathered (J.is_right job.now) (jobs_of tickets.now) states.new.items result }
{
    let Station {
        worker: _,
        seat,
        state,
        results,
        failed,
    } = station;
    add(states, state);
    Gathered {
        seat,
        results,
        failed,
    }
}

// Takes in one station more.
fn gather<J: Job>(
    tickets: &Tickets,
    job: &J,
    station: Station<J::State, J::Done>,
    states: &mut Vec<J::State>,
    gathered: &mut Gathered<J::Done>,
)
    requires seat { IsSeatOf tickets.now gathered.old.seat }
    requires over { IsOver (J.is_fit job.now) (J.is_right job.now) tickets.now station }
    requires room { vec_len states.old < vec_capacity states.old }
    ensures seat { IsSeatOf tickets.now gathered.new.seat }
    ensures spare { spare_of gathered.new.seat ≡ spare_of gathered.old.seat + spare_of station.seat + 1 }
    ensures states { states.new.items ≡ states.old.items ++ station.state ∷ [] }
    ensures len { vec_len states.new ≡ vec_len states.old + 1 }
    ensures room { vec_capacity states.old ≤ vec_capacity states.new }
    ensures before { gathered.new.failed ≡ false → gathered.old.failed ≡ false }
    ensures gathered { gathered.new.failed ≡ false
        → HasGathered (J.is_right job.now) (jobs_of tickets.now) states.old.items gathered.old
        → HasGathered (J.is_right job.now) (jobs_of tickets.now) states.new.items gathered.new }
{
    let Station {
        worker: _,
        seat,
        state,
        mut results,
        failed,
    } = station;
    add(states, state);
    tickets.join(&mut gathered.seat, seat);
    let kept = gathered.results.append(&mut results).is_ok();
    gathered.failed = gathered.failed || failed || !kept;
}

// Ends all stations: the states go back in their order, and so do all results, in any order. The error is that a worker
// ran out of memory.
pub(crate) fn close<J: Job>(
    tickets: &Tickets,
    job: &J,
    mut stations: Vec<Station<J::State, J::Done>>,
    states: &mut Vec<J::State>,
) -> Result<Vec<Numbered<J::Done>>, AllocError>
    requires over { All (IsOver (J.is_fit job.now) (J.is_right job.now) tickets.now) stations.items }
    requires some { 0 < vec_len stations }
    requires weights { weights_of stations.items ≡ 64 }
    requires room { vec_len stations ≤ vec_capacity states.old }
    requires empty { states.old.items ≡ [] }
    ensures count { vec_len states.new ≡ vec_len stations }
    ensures states { states.new.items ≡ states_of stations.items }
    ensures numbers { IfOk result (λ all. IsEachBelow (jobs_of tickets.now) (numbers_of all.items)) }
    ensures right { IfOk result (λ all. All (IsRightBeside (J.is_right job.now) states.new.items) all.items) }
{
    let Some(first) = stations.pop() else {
        unreachable!()
    };
    let mut gathered = gather_first(tickets, job, first, states);
    while let Some(station) = stations.pop() {
        gather(tickets, job, station, states, &mut gathered);
    }
    stations.destroy_empty();
    all_of(tickets, job, states, gathered)
}

// All results, where no worker failed.
fn all_of<J: Job>(
    tickets: &Tickets,
    job: &J,
    states: &[J::State],
    gathered: Gathered<J::Done>,
) -> Result<Vec<Numbered<J::Done>>, AllocError>
    requires seat { IsSeatOf tickets.now gathered.seat }
    requires whole { spare_of gathered.seat ≡ 63 }
    requires gathered { gathered.failed ≡ false
        → HasGathered (J.is_right job.now) (jobs_of tickets.now) states.now gathered }
    ensures numbers { IfOk result (λ all. IsEachBelow (jobs_of tickets.now) (numbers_of all.items)) }
    ensures right { IfOk result (λ all. All (IsRightBeside (J.is_right job.now) states.now) all.items) }
{
    let Gathered {
        mut seat,
        results,
        failed,
    } = gathered;
    // A join tells the only seat that no number is missing.
    let other = tickets.split(&mut seat);
    tickets.join(&mut seat, other);
    if failed { Err(AllocError) } else { Ok(results) }
}
