ghost use Rattle.std.specs.Prelude.{◌≡◌, ◌<◌, ◌≤◌, ◌+◌, ◌++◌, ◌∷◌, [], ℕ, false, All, length, vec_len, vec_capacity};
ghost use Rattle.std.specs.List.{range_with_len};
ghost use Rattle.work_share.specs.Seat.{drawn_of, spare_of, jobs_of, IsSeatOf};
ghost use Rattle.work_share.specs.Station.{IsReady, states_of, weights_of, workers_of};

use crate::job::Job;
use crate::station::Station;
use crate::tickets::{TicketSeat, Tickets};
use std::alloc::Global;

// Adds an element where there is room for it.
pub(crate) fn add<T>(row: &mut Vec<T>, element: T)
    requires { vec_len row.old < vec_capacity row.old }
    ensures items { row.new.items ≡ row.old.items ++ element ∷ [] }
    ensures len { vec_len row.new ≡ vec_len row.old + 1 }
    ensures room { vec_capacity row.old ≤ vec_capacity row.new }
{
    match row.push(element) {
        Ok(()) => {}
        Err(_failed) => unreachable!(),
    }
}

// A station whose worker hasn't begun.
fn station<S, D>(alloc: Global, worker: u32, seat: TicketSeat, state: S) -> Station<S, D>
    ensures worker { result.worker ≡ worker }
    ensures seat { result.seat ≡ seat }
    ensures state { result.state ≡ state }
    ensures results { result.results.items ≡ [] }
    ensures going { result.failed ≡ false }
{
    Station {
        worker,
        seat,
        state,
        results: Vec::new(alloc),
        failed: false,
    }
}

// Moves each state into a station of its own, the last state first, and deals out the seats.
pub(crate) fn open<J: Job>(
    alloc: Global,
    tickets: &Tickets,
    job: &J,
    mut seat: TicketSeat,
    states: &mut Vec<J::State>,
    stations: &mut Vec<Station<J::State, J::Done>>,
)
    requires seat { IsSeatOf tickets.now seat × (drawn_of seat ≡ []) }
    requires some { 0 < vec_len states.old }
    requires seats { vec_len states.old ≤ spare_of seat + 1 }
    requires few { vec_len states.old ≤ 64 }
    requires room { vec_len states.old ≤ vec_capacity stations.old }
    requires empty { stations.old.items ≡ [] }
    requires fit { All (J.is_fit job.now) states.old.items }
    requires jobs { (n : ℕ) → n < jobs_of tickets.now → J.is_job job.now n }
    ensures states { states_of stations.new.items ≡ states.old.items }
    ensures workers { workers_of stations.new.items ≡ range_with_len 0 (length stations.new.items) }
    ensures ready { All (IsReady (J.is_job job.now) (J.is_fit job.now) tickets.now) stations.new.items }
    ensures weights { weights_of stations.new.items ≡ spare_of seat + 1 }
    ensures count { vec_len stations.new ≡ vec_len states.old }
    ensures empty { states.new.items ≡ [] }
    ensures room { vec_len states.old ≤ vec_capacity states.new }
{
    while states.len() > 1 {
        let Some(state) = states.pop() else {
            unreachable!()
        };
        let beside = tickets.split(&mut seat);
        add(stations, station(alloc, states.len() as u32, beside, state));
    }
    let Some(state) = states.pop() else {
        unreachable!()
    };
    add(stations, station(alloc, 0, seat, state));
}
