ghost use Rattle.std.specs.Prelude.{◌≡◌};
ghost use Rattle.std.specs.List.{list_all};
ghost use Rattle.report_spec.specs.Valid.{is_letter, is_valid_way, is_valid_verdict, is_valid};

use transition_spec::Way;

/// What is said of the fetches of some configurations that a path reaches, from all that the cache may start with.
#[derive(Debug, Drop)]
pub enum Verdict {
    /// No path that ends there can miss.
    AlwaysHit,
    /// No path that ends there can hit.
    AlwaysMiss,
    /// The first way names a path that can hit, the second one that can miss.
    Unknown { hit: Way, miss: Way },
}

/// A line of a report.
#[derive(Debug, Drop)]
pub enum Line {
    /// An address of the text that some path reaches.
    At {
        at: u32,
        verdict: Verdict,
    },
    /// A configuration: its number, its address, how many calls are open, and the return address of the newest.
    Context {
        node: u32,
        at: u32,
        depth: u32,
        back: Option<u32>,
        verdict: Verdict,
    },
    /// Addresses of the text, each 4 above the one before, that no path reaches.
    Unreachable {
        first: u32,
        last: u32,
    },
}

impl Line {
    /// Whether the line has a text: each way has a step and only letters for choices, a range doesn't end before it
    /// begins, and there is a newest return address exactly where a call is open.
    pub fn is_valid(&self) -> bool
        ensures { result ≡ is_valid self.now }
    {
        match self {
            Line::At { verdict, .. } => is_valid_verdict(verdict),
            Line::Context {
                depth,
                back,
                verdict,
                ..
            } => (*depth == 0) == back.is_none() && is_valid_verdict(verdict),
            Line::Unreachable { first, last } => first <= last,
        }
    }
}

fn is_valid_verdict(verdict: &Verdict) -> bool
    ensures { result ≡ is_valid_verdict verdict.now }
{
    match verdict {
        Verdict::AlwaysHit | Verdict::AlwaysMiss => true,
        Verdict::Unknown { hit, miss } => is_valid_way(hit) && is_valid_way(miss),
    }
}

fn is_valid_way(way: &Way) -> bool
    ensures { result ≡ is_valid_way way.now }
{
    way.steps > 0 && are_letters(way.choices.letters())
}

fn are_letters(letters: &[u8]) -> bool
    ensures { result ≡ list_all is_letter letters.now }
{
    letters
        .iter()
        .all(|letter| *letter == b'n' || *letter == b't')
}
