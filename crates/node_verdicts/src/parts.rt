// The sets of a cache in parts, which workers share.
ghost use Rattle.std.specs.Prelude.{◌≡◌, ◌≤◌};
ghost use Rattle.node_verdicts.specs.Low.{low_of};

/// The least number of parts, also for one worker: an eighth of the sets has a much smaller graph than all of them.
const LEAST_PARTS: u32 = 8;

/// The most parts, each of which goes over the whole graph once.
const MOST_PARTS: u32 = 64;

/// The parts for each worker, so that one with much work leaves some for the others.
const PARTS_FOR_EACH: u32 = 4;

/// The sets of a cache in parts of `size` sets each, the last of which may be smaller.
#[derive(Clone, Copy)]
pub(crate) struct SetParts {
    sets: u32,
    size: u32,
    ghost some: { (1 ≤ sets) × (sets ≤ 4096) },
    ghost not_empty: { (1 ≤ size) × (size ≤ sets) },
}

impl SetParts {
    /// The sets in parts for some workers.
    pub(crate) fn new(sets: u32, workers: u32) -> Self
        requires { (1 ≤ sets) × (sets ≤ 4096) }
        ensures { result.sets ≡ sets }
    {
        let most = workers.min(MOST_PARTS / PARTS_FOR_EACH) * PARTS_FOR_EACH;
        let count = most.max(LEAST_PARTS);
        SetParts {
            sets,
            size: (sets - 1) / count + 1,
        }
    }

    /// The number of parts.
    pub(crate) fn count(&self) -> u32
        ensures most { result ≤ self.now.sets }
        ensures all { low_of self.now.size self.now.sets result ≡ self.now.sets }
    {
        self.sets.div_ceil(self.size)
    }

    /// The first set of a part, or the number of sets after the last part.
    pub(crate) fn low(&self, part: u32) -> u32
        requires { part ≤ 4096 }
        ensures { result ≡ low_of self.now.size self.now.sets part }
    {
        (part * self.size).min(self.sets)
    }
}
