ghost use Rattle.std.specs.Prelude.{◌≡◌, [], IfOk};
ghost use Rattle.icache_top.specs.JobRecords.{record_of, records_of};

use std::alloc::{AllocError, Global};
use std::marker::Model;
use top_words::Status;

/// The exact answer for a block at one configuration that fetches it, as numbers of families in the node table.
#[derive(Clone, Copy, Debug, PartialEq, Eq)]
pub struct Place {
    /// The configuration's number.
    pub node: u32,
    /// The least younger sets of the paths that hit.
    pub hit: u32,
    /// The greatest younger sets, unless some path misses.
    pub miss: Option<u32>,
}

/// The places of a block, rising by node.
#[derive(Debug, Drop)]
pub struct Places {
    places: Vec<Place>,
}

impl Model for Places {
    ghost use Rattle.std.specs.Prelude.{List};
    ghost use Rattle.icache_top.specs.declared.outcome.Place.{Place};

    ghost Value = { List Place };

    ghost view = { λ p. p.places.items };
}

impl Places {
    pub fn as_slice(&self) -> &[Place]
        ensures { result.now ≡ self.now }
    {
        &self.places
    }
}

/// A block with a fetch that the ages leave unclear. A search over all paths settles it.
#[derive(Debug, Drop)]
pub struct JobRecord {
    /// The block's number: an address in it, divided by the size of a line.
    pub block: u32,
    /// Where it was settled over the node table, which nothing is today.
    pub places: Option<Places>,
}

/// The blocks that the ages leave unclear, which a search settles, rising.
#[derive(Debug, Drop)]
pub struct Jobs {
    records: Vec<JobRecord>,
}

impl Model for Jobs {
    ghost use Rattle.std.specs.Prelude.{List};
    ghost use Rattle.icache_top.specs.declared.outcome.JobRecord.{JobRecord};

    ghost Value = { List JobRecord };

    ghost view = { λ j. j.records.items };
}

impl Jobs {
    pub(crate) fn none(alloc: Global) -> Self
        ensures { result ≡ [] }
    {
        Jobs {
            records: Vec::new(alloc),
        }
    }

    /// A record for each block, without places.
    pub(crate) fn of_blocks(alloc: Global, blocks: &[u32]) -> Result<Self, AllocError>
        ensures { IfOk result (λ jobs. jobs ≡ records_of blocks.now) }
    {
        let records = blocks.iter().map(|block| record_of(*block)).collect(alloc)?;
        Ok(Jobs { records })
    }

    pub fn as_slice(&self) -> &[JobRecord]
        ensures { result.now ≡ self.now }
    {
        &self.records
    }
}

fn record_of(block: u32) -> JobRecord
    ensures { result ≡ record_of block }
{
    JobRecord {
        block,
        places: None,
    }
}

/// The words of the node table, slot by slot.
#[derive(Debug, Drop)]
pub struct NodeWords {
    words: Vec<u64>,
}

impl Model for NodeWords {
    ghost use Rattle.std.specs.Prelude.{List, ℕ};

    ghost Value = { List ℕ };

    ghost view = { λ t. t.words.items };
}

impl NodeWords {
    pub(crate) fn none(alloc: Global) -> Self
        ensures { result ≡ [] }
    {
        NodeWords {
            words: Vec::new(alloc),
        }
    }

    pub fn as_slice(&self) -> &[u64]
        ensures { result.now ≡ self.now }
    {
        &self.words
    }
}

/// How a run ended, and what it had to settle by a search.
#[derive(Debug, Drop)]
pub struct Outcome {
    pub status: Status,
    /// Empty today: no run has a node table.
    pub table: NodeWords,
    /// The jobs of a report that was sent whole, and none at any other end.
    pub jobs: Jobs,
}
