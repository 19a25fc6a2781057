ghost use Rattle.std.specs.Prelude.{ℕ, IfOk};

use std::alloc::AllocError;

/// What workers run: one job for each number. Each worker has a state of its own, which its jobs change in turn.
///
/// A job says by ghost members which numbers are its jobs, which states it may be given, when one state goes on from
/// another, and which results are right for a number beside a state. A result that is right stays right beside every
/// state that goes on from that one.
pub trait Job {
    /// What a worker has of its own.
    type State: Send;

    /// What one job gives.
    type Done: Send + Drop;

    // The number is one of the jobs.
    ghost is_job: { Self → ℕ → Type 0 };

    // A job may be run with the state.
    ghost is_fit: { Self → Self.State → Type 0 };

    // The second state goes on from the first.
    ghost goes_on: { Self → Self.State → Self.State → Type 0 };

    // The result is right for the number beside the state.
    ghost is_right: { Self → ℕ → Self.State → Self.Done → Type 0 };

    /// Runs one job. The error is out of memory, and the state goes on after that too.
    fn run(&self, number: u32, state: &mut Self::State) -> Result<Self::Done, AllocError>
        requires number { is_job self.now number }
        requires fit { is_fit self.now state.old }
        ensures fit { is_fit self.now state.new }
        ensures onward { goes_on self.now state.old state.new }
        ensures right { IfOk result (λ done. is_right self.now number state.new done) };

    // A state goes on from itself.
    ghost stays: { (job : Self) (state : Self.State) → goes_on job state state };

    // What goes on from a state that goes on from a first one goes on from the first.
    ghost further: { (job : Self) (first second third : Self.State)
        → goes_on job first second → goes_on job second third → goes_on job first third };

    // A right result stays right.
    ghost lasts: { (job : Self) (number : ℕ) (state later : Self.State) (done : Self.Done)
        → is_right job number state done → goes_on job state later → is_right job number later done };
}
