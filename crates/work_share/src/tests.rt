ghost use Rattle.std.specs.Prelude.{◌≡◌, ⊤};

use crate::{Gate, IdleGate, Job, Tickets, run_all};
use std::alloc::AllocError;
use std::sync::atomic::{AtomicBool, AtomicU64, Ordering};
use std::test::Fail;

#[test]
fn each_number_is_drawn_once_and_then_none(rt: HostRuntime) -> Result<(), Fail> {
    let (tickets, mut seat) = Tickets::new(rt.alloc(), 3)?;
    assert_eq!(rt; tickets.draw(&mut seat), Some(0));
    assert_eq!(rt; tickets.draw(&mut seat), Some(1));
    assert_eq!(rt; tickets.draw(&mut seat), Some(2));
    assert_eq!(rt; tickets.draw(&mut seat), None);
    assert_eq!(rt; tickets.draw(&mut seat), None);
    Ok(())
}

#[test]
fn two_seats_draw_from_one_counter(rt: HostRuntime) -> Result<(), Fail> {
    let (tickets, mut seat) = Tickets::new(rt.alloc(), 3)?;
    let mut other = tickets.split(&mut seat);
    assert_eq!(rt; tickets.draw(&mut other), Some(0));
    assert_eq!(rt; tickets.draw(&mut seat), Some(1));
    tickets.join(&mut seat, other);
    assert_eq!(rt; tickets.draw(&mut seat), Some(2));
    assert_eq!(rt; tickets.draw(&mut seat), None);
    Ok(())
}

// Gives each number back, and runs out of memory at one of them.
#[derive(Drop)]
struct Echo {
    failing: u32,
}

impl Job for Echo {
    type State = u32;

    type Done = u32;

    ghost use Rattle.std.specs.Prelude.{◌≡◌, ⊤, refl};
    ghost use Rattle.std.proofs.Common.{◌∙◌};

    ghost is_job = { λ _ _. ⊤ };

    ghost is_fit = { λ _ _. ⊤ };

    ghost goes_on = { λ _ state later. later ≡ state };

    ghost is_right = { λ _ number _ done. done ≡ number };

    fn run(&self, number: u32, _state: &mut u32) -> Result<u32, AllocError> {
        if number == self.failing {
            return Err(AllocError);
        }
        Ok(number)
    }

    ghost stays = { λ _ _. refl };

    ghost further = { λ _ _ _ _ first second. second ∙ first };

    ghost lasts = { λ _ _ _ _ _ right _. right };
}

#[test]
fn results_come_in_order_of_number(rt: HostRuntime) -> Result<(), Fail> {
    let alloc = rt.alloc();
    let job = Echo { failing: u32::MAX };
    for count in [1, 4, 64] {
        let mut states = vec![in alloc; 0; count]?;
        let wanted: Vec<u32> = (0..100).collect(alloc)?;
        let results = run_all(&rt, alloc, 100, &mut states, &job, &IdleGate)?;
        assert_eq!(rt; results, wanted, "by {count}");
        let none = run_all(&rt, alloc, 0, &mut states, &job, &IdleGate)?;
        assert!(rt; none.is_empty(), "by {count}");
    }
    Ok(())
}

#[test]
fn states_come_back_after_an_error(rt: HostRuntime) -> Result<(), Fail> {
    let alloc = rt.alloc();
    let mut states = vec![in alloc; 5, 6, 7]?;
    let job = Echo { failing: 11 };
    assert!(rt; run_all(&rt, alloc, 20, &mut states, &job, &IdleGate).is_err());
    assert_eq!(rt; states.as_slice(), [5, 6, 7].as_slice());
    Ok(())
}

// Holds job 0 until job 1 has begun, and notes where that takes too long.
#[derive(Drop)]
struct Meeting {
    second_began: AtomicBool,
    gave_up: AtomicBool,
}

impl Meeting {
    fn second_comes(&self) -> bool {
        for _ in 0..1_000_000_000u32 {
            if self.second_began.load(Ordering::SeqCst) {
                return true;
            }
        }
        false
    }
}

impl Gate for Meeting {
    fn began(&self, _worker: u32, job: u32) {
        if job == 1 {
            self.second_began.store(true, Ordering::SeqCst);
        }
        if job == 0 && !self.second_comes() {
            self.gave_up.store(true, Ordering::SeqCst);
        }
    }
}

#[test]
fn two_jobs_run_beside_each_other(rt: HostRuntime) -> Result<(), Fail> {
    let alloc = rt.alloc();
    let gate = Meeting {
        second_began: AtomicBool::new(false),
        gave_up: AtomicBool::new(false),
    };
    let mut states = vec![in alloc; 0, 0]?;
    run_all(&rt, alloc, 2, &mut states, &Echo { failing: 2 }, &gate)?;
    assert!(rt; !gate.gave_up.load(Ordering::SeqCst));
    Ok(())
}

// Which worker, counted from 1, was said to begin each of two jobs.
#[derive(Drop)]
struct Begun {
    first: AtomicU64,
    second: AtomicU64,
}

impl Begun {
    fn by(&self, job: u32) -> &AtomicU64 {
        if job == 0 { &self.first } else { &self.second }
    }
}

impl Gate for Begun {
    fn began(&self, worker: u32, job: u32) {
        self.by(job).store(u64::from(worker) + 1, Ordering::SeqCst);
    }
}

// Tells of each job whether the gate was told that the worker of this state begins it.
#[derive(Drop)]
struct Announced<'a> {
    begun: &'a Begun,
}

impl<'a> Job for Announced<'a> {
    type State = u32;

    type Done = bool;

    ghost is_job = { λ _ _. ⊤ };

    ghost is_fit = { λ _ _. ⊤ };

    ghost goes_on = { λ _ _ _. ⊤ };

    ghost is_right = { λ _ _ _ _. ⊤ };

    fn run(&self, number: u32, state: &mut u32) -> Result<bool, AllocError> {
        let worker = self.begun.by(number).load(Ordering::SeqCst);
        Ok(worker == u64::from(*state) + 1)
    }

    ghost stays = { λ _ _. tt };

    ghost further = { λ _ _ _ _ _ _. tt };

    ghost lasts = { λ _ _ _ _ _ _ _. tt };
}

#[test]
fn a_gate_is_told_of_each_job_before_it_runs(rt: HostRuntime) -> Result<(), Fail> {
    let alloc = rt.alloc();
    let begun = Begun {
        first: AtomicU64::new(0),
        second: AtomicU64::new(0),
    };
    let job = Announced { begun: &begun };
    let mut states = vec![in alloc; 0, 1]?;
    let told = run_all(&rt, alloc, 2, &mut states, &job, &begun)?;
    assert_eq!(rt; told.as_slice(), [true, true].as_slice());
    Ok(())
}
