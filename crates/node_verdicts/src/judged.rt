// What is judged of the nodes of a graph.
ghost use Rattle.std.specs.Prelude.{◌≡◌, ◌++◌, [], OnOk};

use std::alloc::{AllocError, Global};

/// A path that can hit and one that can miss, both with their first member first.
#[derive(Drop)]
pub(crate) struct Paths {
    pub hit: Vec<u32>,
    pub miss: Vec<u32>,
}

/// What the paths that end in a node can do there.
#[derive(Drop)]
pub(crate) enum Ends {
    Hits,
    Misses,
    /// Neither of these, with a path of each kind where they are kept.
    Both(Option<Paths>),
}

/// A node, and what the paths that end there can do.
#[derive(Drop)]
pub(crate) struct Judged {
    pub node: u32,
    pub ends: Ends,
}

/// What is judged of the nodes that fetch blocks which the ages settle, and the blocks that they leave unclear.
#[derive(Drop)]
pub(crate) struct Found {
    pub judged: Vec<Judged>,
    pub jobs: Vec<u32>,
}

impl Found {
    /// Nothing yet.
    pub(crate) fn none(alloc: Global) -> Self
        ensures judged { result.judged.items ≡ [] }
        ensures jobs { result.jobs.items ≡ [] }
    {
        Found {
            judged: Vec::new(alloc),
            jobs: Vec::new(alloc),
        }
    }

    /// Adds what is found of other nodes.
    pub(crate) fn append(&mut self, mut other: Found) -> Result<(), AllocError>
        ensures judged { OnOk result (self.new.judged.items ≡ self.old.judged.items ++ other.judged.items) }
        ensures jobs { OnOk result (self.new.jobs.items ≡ self.old.jobs.items ++ other.jobs.items) }
    {
        self.judged.append(&mut other.judged)?;
        self.jobs.append(&mut other.jobs)?;
        Ok(())
    }
}
