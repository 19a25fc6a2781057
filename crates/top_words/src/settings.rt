// The settings of what the arguments give.
ghost use Rattle.std.specs.Prelude.{◌≡◌};
ghost use Rattle.cache_spec.specs.Geometry.{is_line};
ghost use Rattle.command_spec.specs.Settings.{ask_for, entry_in, geometry_in, geometry_of, graph_in, graph_of, isa_in, line_in, nodes_in, number_in, report_in, settings_in, start_in, up_to, workers_in};
ghost use Rattle.top_words.specs.Given.{texts_of};

use crate::given::Given;
use crate::number::{address_of, number_of};
use cache_geom::Geometry;
use cache_spec::Start;
use command_spec::{Ask, Command, GraphAsk, ReportAsk, Settings};
use flow_spec::Isa;

/// The settings. `None` where a value isn't spelled or ranged as it is to be.
pub(crate) fn settings_in(given: &Given<'_, '_>) -> Option<Settings>
    ensures { result ≡ settings_in (texts_of given.now) }
{
    let ask = ask_for(given.command(), given)?;
    let entry = entry_in(given)?;
    Some(Settings { entry, ask })
}

/// What a command asks for.
fn ask_for(command: Command, given: &Given<'_, '_>) -> Option<Ask>
    ensures { result ≡ ask_for command (texts_of given.now) }
{
    match command {
        Command::Classify => report_in(given),
        Command::Graph => graph_in(given),
    }
}

fn report_in(given: &Given<'_, '_>) -> Option<Ask>
    ensures { result ≡ report_in (texts_of given.now) }
{
    let geometry = geometry_in(given)?;
    let isa = isa_in(given)?;
    let start = start_in(given)?;
    let workers = workers_in(given)?;
    let nodes = nodes_in(given)?;
    let contexts = given.has("--contexts");
    Some(Ask::Report(ReportAsk {
        geometry,
        isa,
        start,
        contexts,
        workers,
        nodes,
    }))
}

fn graph_in(given: &Given<'_, '_>) -> Option<Ask>
    ensures { result ≡ graph_in (texts_of given.now) }
{
    let isa = isa_in(given)?;
    let line = line_in(given)?;
    graph_of(isa, line)
}

/// The entry that the arguments give, if they give one. `None` where its text spells no address.
fn entry_in(given: &Given<'_, '_>) -> Option<Option<u32>>
    ensures { result ≡ entry_in (texts_of given.now) }
{
    match given.value("--entry") {
        None => Some(None),
        Some(text) => Some(Some(address_of(text)?)),
    }
}

/// What the arguments say that the cache starts with. `None` where their value says nothing known.
fn start_in(given: &Given<'_, '_>) -> Option<Start>
    ensures { result ≡ start_in (texts_of given.now) }
{
    match given.value("--start") {
        None | Some("empty") => Some(Start::Empty),
        Some("any") => Some(Start::Any),
        Some(_) => None,
    }
}

/// The instructions that the arguments name. `None` where their value names none known.
fn isa_in(given: &Given<'_, '_>) -> Option<Isa>
    ensures { result ≡ isa_in (texts_of given.now) }
{
    match given.value("--isa") {
        None | Some("rv32i") => Some(Isa::Rv32i),
        Some("rv32ic") => Some(Isa::Rv32ic),
        Some(_) => None,
    }
}

fn geometry_in(given: &Given<'_, '_>) -> Option<Geometry>
    ensures { result ≡ geometry_in (texts_of given.now) }
{
    let line = line_in(given)?;
    let sets = number_in("--sets", 64, given)?;
    let ways = number_in("--ways", 4, given)?;
    geometry_of(line, sets, ways)
}

/// How many bytes a line is to have, in its range or not.
fn line_in(given: &Given<'_, '_>) -> Option<u64>
    ensures { result ≡ line_in (texts_of given.now) }
{
    number_in("--line", 32, given)
}

/// How many workers settle the jobs.
fn workers_in(given: &Given<'_, '_>) -> Option<u32>
    ensures { result ≡ workers_in (texts_of given.now) }
{
    up_to(64, number_in("--workers", 4, given)?)
}

/// How many words the node table is to have.
fn nodes_in(given: &Given<'_, '_>) -> Option<u32>
    ensures { result ≡ nodes_in (texts_of given.now) }
{
    up_to(4194304, number_in("--nodes", 1048576, given)?)
}

/// A number from 1 to the greatest.
fn up_to(most: u32, n: u64) -> Option<u32>
    ensures { result ≡ up_to most n }
{
    if n < 1 || n > most as u64 {
        return None;
    }
    Some(n as u32)
}

/// The number that an option's value spells, or the default where no value is given.
fn number_in(name: &str, default: u64, given: &Given<'_, '_>) -> Option<u64>
    ensures { result ≡ number_in name.now default (texts_of given.now) }
{
    match given.value(name) {
        None => Some(default),
        Some(text) => number_of(text),
    }
}

fn geometry_of(line: u64, sets: u64, ways: u64) -> Option<Geometry>
    ensures { result ≡ geometry_of line sets ways }
{
    let most = u32::MAX as u64;
    if line > most || sets > most || ways > most {
        return None;
    }
    Geometry::new(line as u32, sets as u32, ways as u32)
}

fn graph_of(isa: Isa, line: u64) -> Option<Ask>
    ensures { result ≡ graph_of isa line }
{
    let line = u32::try_from(line).ok()?;
    if !is_line(line) {
        return None;
    }
    Some(Ask::Graph(GraphAsk { isa, line }))
}

/// Whether a geometry may have lines of this size, in bytes.
fn is_line(line: u32) -> bool
    ensures { result ≡ is_line line }
{
    Geometry::new(line, 1, 1).is_some()
}
