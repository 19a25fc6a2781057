use cache_geom::Geometry;
use cache_spec::Start;
use riscv_spec::Isa;

/// What the arguments of a command line ask for.
#[derive(Clone, Copy, Debug, PartialEq, Eq)]
pub struct Settings {
    /// The address in bytes at which the program is to begin; without it, that of the file's header.
    pub entry: Option<u32>,
    pub ask: Ask,
}

/// Which text is asked for.
#[derive(Clone, Copy, Debug, PartialEq, Eq)]
pub enum Ask {
    /// The report of the program.
    Report(ReportAsk),
    /// The text of the program's graph.
    Graph(GraphAsk),
}

/// Which report is asked for: of a program of these instructions in a cache of this shape that starts so, by address, or
/// with a line for each configuration.
#[derive(Clone, Copy, Debug, PartialEq, Eq)]
pub struct ReportAsk {
    pub geometry: Geometry,
    pub isa: Isa,
    pub start: Start,
    pub contexts: bool,
    /// How many workers settle the nodes: 1 to 64.
    pub workers: u32,
    /// How many words the node table is to have: 1 to 4,194,304. Read and tested; it changes nothing yet.
    pub nodes: u32,
}

/// Which graph is asked for: of a program of these instructions, fetched from cache lines of this size.
#[derive(Clone, Copy, Debug, PartialEq, Eq)]
pub struct GraphAsk {
    pub isa: Isa,
    /// The bytes of a line: a power of two from 4 to 256.
    pub line: u32,
}
