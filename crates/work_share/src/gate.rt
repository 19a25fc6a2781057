/// Is told of each job before a worker runs it. What it does is its own affair, so that a test can watch the workers.
pub trait Gate {
    fn began(&self, worker: u32, job: u32);
}

/// A gate that does nothing.
#[derive(Clone, Copy, Debug, PartialEq, Eq)]
pub struct IdleGate;

impl Gate for IdleGate {
    fn began(&self, _worker: u32, _job: u32) {}
}
