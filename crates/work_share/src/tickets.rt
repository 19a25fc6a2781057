ghost use Rattle.std.specs.Prelude.{◌≡◌, ◌<◌, ◌≤◌, ◌+◌, ◌++◌, ◌||◌, ◌∷◌, [], ◌↔◌, true, false};
ghost use Rattle.std.specs.Prelude.{None, All, IfOk, IsTrue};

use crate::rule::{Beside, CounterRule, Draw, Look, SeatView, Together};
use atomic_table::{Seat, Table};
use std::alloc::{AllocError, Global};

/// What a worker draws numbers with. Only its own draws, splits and joins change it.
#[derive(Drop)]
pub struct TicketSeat {
    seat: Seat<(), SeatView>,
    ended: bool,
    ghost known: { ended ≡ seat.me.0.ended },
    ghost no_slot: { seat.me.1 ≡ [] },
    ghost weighs: { 0 < seat.me.0.weight },
}

/// The counter from which seats draw the numbers of jobs: each once, rising from 0.
#[derive(Drop)]
pub struct Tickets {
    table: Table<(), SeatView, u64, CounterRule, Global>,
    jobs: u32,
    ghost one_word: { table.shared.table_id.words ≡ 1 },
    ghost counted: { table.shared.key ≡ jobs },
}

impl Tickets {
    ghost use Rattle.work_share.specs.Seat.{drawn_of, has_ended, spare_of, number_drawn, jobs_of, job_below};
    ghost use Rattle.work_share.specs.Seat.{IsSeatOf, HasEachBelow};

    /// The tickets of this many jobs, and their first seat. A seat can be split until its spare is 0, so there are at
    /// most 64 at a time. The error is out of memory.
    pub fn new(alloc: Global, jobs: u32) -> Result<(Tickets, TicketSeat), AllocError>
        ensures jobs { IfOk result (λ made. jobs_of made.0 ≡ jobs) }
        ensures ours { IfOk result (λ made. IsSeatOf made.0 made.1) }
        ensures drawn { IfOk result (λ made. drawn_of made.1 ≡ []) }
        ensures going { IfOk result (λ made. has_ended made.1 ≡ false) }
        ensures spare { IfOk result (λ made. spare_of made.1 ≡ 63) }
    {
        let (table, seat) = Table::of_words(alloc, &[0], &u64::from(jobs))?;
        Ok((Tickets { table, jobs }, TicketSeat { seat, ended: false }))
    }

    /// A new seat beside this one, which has drawn nothing yet.
    pub fn split(&self, seat: &mut TicketSeat) -> TicketSeat
        requires ours { IsSeatOf self.now seat.old }
        requires spare { 0 < spare_of seat.old }

        // The seat gives one of its spare.
        ensures ours { IsSeatOf self.now seat.new }
        ensures spare { spare_of seat.new + 1 ≡ spare_of seat.old }
        ensures drawn { drawn_of seat.new ≡ drawn_of seat.old }
        ensures ended { has_ended seat.new ≡ has_ended seat.old }

        ensures new_ours { IsSeatOf self.now result }
        ensures new_spare { spare_of result ≡ 0 }
        ensures new_drawn { drawn_of result ≡ [] }
        ensures new_ended { has_ended result ≡ has_ended seat.old }
    {
        let ended = seat.ended;
        TicketSeat {
            seat: self.table.shared.split_seat::<Beside>(&mut seat.seat),
            ended,
        }
    }

    /// Puts what another seat has drawn behind what this one has, and the other is gone. A seat that is then the only
    /// one learns that no number is missing.
    pub fn join(&self, seat: &mut TicketSeat, other: TicketSeat)
        requires ours { IsSeatOf self.now seat.old }
        requires other_ours { IsSeatOf self.now other }
        ensures ours { IsSeatOf self.now seat.new }
        ensures spare { spare_of seat.new ≡ spare_of seat.old + spare_of other + 1 }
        ensures drawn { drawn_of seat.new ≡ drawn_of seat.old ++ drawn_of other }
        ensures ended { has_ended seat.new ≡ (has_ended seat.old || has_ended other) }
        ensures each { spare_of seat.new ≡ 63 → HasEachBelow (jobs_of self.now) seat.new }
    {
        let TicketSeat {
            seat: theirs,
            ended,
        } = other;
        self.table
            .shared
            .join_seat::<Together>(&mut seat.seat, theirs);
        seat.ended = seat.ended || ended;
        self.table.shared.load::<Look>(&mut seat.seat, 0);
    }

    /// Draws one number, in one step of the counter: a job's, or None where the counter has passed the last job.
    pub fn draw(&self, seat: &mut TicketSeat) -> Option<u32>
        requires { IsSeatOf self.now seat.old }
        ensures ours { IsSeatOf self.now seat.new }
        ensures spare { spare_of seat.new ≡ spare_of seat.old }

        // A seat that has ended draws no more.
        ensures after_end { has_ended seat.old ≡ true → (result ≡ None) × (seat.new ≡ seat.old) }

        // Any other draws one number more, and has ended with the first that is no job's.
        ensures drawn { has_ended seat.old ≡ false
            → drawn_of seat.new ≡ drawn_of seat.old ++ number_drawn seat.old seat.new ∷ [] }
        ensures greater { has_ended seat.old ≡ false
            → All (λ earlier. earlier < number_drawn seat.old seat.new) (drawn_of seat.old) }
        ensures answer { has_ended seat.old ≡ false
            → result ≡ job_below (jobs_of self.now) (number_drawn seat.old seat.new) }
        ensures ended { has_ended seat.old ≡ false
            → (IsTrue (has_ended seat.new) ↔ (jobs_of self.now ≤ number_drawn seat.old seat.new)) }
        ensures each { has_ended seat.old ≡ false
            → spare_of seat.new ≡ 63 → HasEachBelow (jobs_of self.now) seat.new }
    {
        if seat.ended {
            return None;
        }
        let jobs = self.jobs;
        let found = self.table.shared.fetch_add::<Draw>(&mut seat.seat, 0, 1);
        seat.ended = found >= u64::from(jobs);
        if seat.ended { None } else { Some(found as u32) }
    }
}
