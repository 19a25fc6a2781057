//! Numbers of jobs that threads draw from one counter, and the work that they do.
//!
//! `Tickets` is the counter, and a `TicketSeat` is what a worker draws from it with. A seat is seen as the list of the
//! numbers that it has drawn, whether it has ended, and how often it can be split. `run_all` runs the jobs, by one
//! worker for each state. It stands on `atomic_table`. Its contract gives the layer above one right result for each
//! job, in order of number, whatever the schedule: no number is drawn twice, and none is left out.
#![tactic(auto)]

mod close;
mod gate;
mod job;
mod open;
mod order;
mod rule;
mod run;
mod station;
#[cfg(test)]
mod tests;
mod tickets;
mod work;

pub use gate::{Gate, IdleGate};
pub use job::Job;
pub use run::run_all;
pub use tickets::{TicketSeat, Tickets};
