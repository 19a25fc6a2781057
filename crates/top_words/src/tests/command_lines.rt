use crate::read_words;
use cache_geom::Geometry;
use cache_spec::Start;
use command_spec::{Ask, GraphAsk, ReportAsk, Settings};
use flow_spec::Isa;
use std::alloc::{AllocError, Global};
use std::test::Fail;

/// The settings of a line, whose words are cut at white space; `''` is a word without a character.
fn settings(alloc: Global, line: &str) -> Result<Option<Settings>, AllocError> {
    let mut words = Vec::new(alloc);
    for word in line.split_whitespace() {
        let word = if word == "''" { "" } else { word };
        words.push(String::from_str(alloc, word)?)?;
    }
    read_words(alloc, &words)
}

/// Whether the line gives these settings.
fn gives(alloc: Global, line: &str, wanted: &Option<Settings>) -> Result<bool, AllocError> {
    match settings(alloc, line) {
        Ok(found) => Ok(found == *wanted),
        Err(error) => Err(error),
    }
}

/// Whether the line gives no settings.
fn gives_none(alloc: Global, line: &str) -> Result<bool, AllocError> {
    gives(alloc, line, &None)
}

/// Whether both lines give settings, and the same ones.
fn give_the_same(alloc: Global, line: &str, other: &str) -> Result<bool, AllocError> {
    match settings(alloc, other) {
        Ok(wanted) => Ok(wanted.is_some() && gives(alloc, line, &wanted)?),
        Err(error) => Err(error),
    }
}

/// A report of RV32I from an empty cache of this line, sets and ways, by address, with the default workers and nodes.
fn report(line: u32, sets: u32, ways: u32) -> Option<ReportAsk> {
    Some(ReportAsk {
        geometry: Geometry::new(line, sets, ways)?,
        isa: Isa::Rv32i,
        start: Start::Empty,
        contexts: false,
        workers: 4,
        nodes: 1048576,
    })
}

/// Settings that ask for a report with these lines, sets and ways.
fn of_shape(shape: (u32, u32, u32), entry: Option<u32>) -> Option<Settings> {
    let (line, sets, ways) = shape;
    let ask = Ask::Report(report(line, sets, ways)?);
    Some(Settings { entry, ask })
}

/// Settings that ask for a report with these workers and nodes.
fn with_workers(workers: u32, nodes: u32) -> Option<Settings> {
    let ask = report(32, 64, 4)?;
    Some(Settings {
        entry: None,
        ask: Ask::Report(ReportAsk {
            workers,
            nodes,
            ..ask
        }),
    })
}

/// Settings that ask for a report with this start, these instructions, and contexts or not.
fn with_start(start: Start, isa: Isa, contexts: bool) -> Option<Settings> {
    let ask = report(32, 64, 4)?;
    Some(Settings {
        entry: None,
        ask: Ask::Report(ReportAsk {
            start,
            isa,
            contexts,
            ..ask
        }),
    })
}

/// Settings that ask for a graph.
fn of_graph(entry: Option<u32>, isa: Isa, line: u32) -> Option<Settings> {
    Some(Settings {
        entry,
        ask: Ask::Graph(GraphAsk { isa, line }),
    })
}

#[test]
fn options_have_defaults_and_stand_in_any_order(rt: HostRuntime) -> Result<(), Fail> {
    for (line, shape, entry) in [
        ("classify", (32, 64, 4), None),
        ("classify --line 16 --sets 1 --ways 1", (16, 1, 1), None),
        (
            "classify --ways 16 --line 256 --sets 4096",
            (256, 4096, 16),
            None,
        ),
        ("classify --line 4", (4, 64, 4), None),
        ("classify --sets 2", (32, 2, 4), None),
        ("classify --line 0016", (16, 64, 4), None),
        ("classify --line 0000000016", (16, 64, 4), None),
        ("classify --entry 0x10", (32, 64, 4), Some(0x10)),
        (
            "classify --entry 0xFFFFfff0 --ways 2",
            (32, 64, 2),
            Some(0xfffffff0),
        ),
    ] {
        let wanted = of_shape(shape, entry);
        assert!(rt; gives(rt.alloc(), line, &wanted)?, "at {line}");
    }
    Ok(())
}

#[test]
fn workers_and_nodes_are_read_for_a_report(rt: HostRuntime) -> Result<(), Fail> {
    for (line, workers, nodes) in [
        ("classify --workers 1", 1, 1048576),
        ("classify --workers 64", 64, 1048576),
        ("classify --nodes 1", 4, 1),
        ("classify --nodes 4194304", 4, 4194304),
        ("classify --nodes 0004194304 --workers 02", 2, 4194304),
        ("classify --workers=7 --nodes=1000", 7, 1000),
    ] {
        let wanted = with_workers(workers, nodes);
        assert!(rt; gives(rt.alloc(), line, &wanted)?, "at {line}");
    }
    Ok(())
}

#[test]
fn a_report_may_have_a_start_an_isa_and_contexts(rt: HostRuntime) -> Result<(), Fail> {
    for (line, start, isa, contexts) in [
        ("classify --start empty", Start::Empty, Isa::Rv32i, false),
        ("classify --start any", Start::Any, Isa::Rv32i, false),
        ("classify --isa rv32i", Start::Empty, Isa::Rv32i, false),
        (
            "classify --line 32 --isa rv32ic --sets 64",
            Start::Empty,
            Isa::Rv32ic,
            false,
        ),
        ("classify --contexts", Start::Empty, Isa::Rv32i, true),
        (
            "classify --contexts --line 32",
            Start::Empty,
            Isa::Rv32i,
            true,
        ),
        (
            "classify --sets 64 --contexts --ways 4",
            Start::Empty,
            Isa::Rv32i,
            true,
        ),
        (
            "classify --isa rv32ic --contexts --start any --line 32",
            Start::Any,
            Isa::Rv32ic,
            true,
        ),
        (
            "classify --start any --line 32 --isa rv32ic --contexts",
            Start::Any,
            Isa::Rv32ic,
            true,
        ),
    ] {
        let wanted = with_start(start, isa, contexts);
        assert!(rt; gives(rt.alloc(), line, &wanted)?, "at {line}");
    }
    Ok(())
}

#[test]
fn a_graph_may_have_an_entry_a_line_and_an_isa(rt: HostRuntime) -> Result<(), Fail> {
    for (line, entry, isa, bytes) in [
        ("graph", None, Isa::Rv32i, 32),
        ("graph --entry 0x0001000a", Some(0x1000a), Isa::Rv32i, 32),
        ("graph --isa rv32i", None, Isa::Rv32i, 32),
        ("graph --isa rv32ic", None, Isa::Rv32ic, 32),
        ("graph --line 4", None, Isa::Rv32i, 4),
        (
            "graph --line 256 --entry 0x10 --isa rv32ic",
            Some(0x10),
            Isa::Rv32ic,
            256,
        ),
    ] {
        let wanted = of_graph(entry, isa, bytes);
        assert!(rt; gives(rt.alloc(), line, &wanted)?, "at {line}");
    }
    Ok(())
}

// A value may stand after `=` in the argument of its option, and `--` may stand last.
#[test]
fn what_is_not_in_plain_form_is_read_as_clap_reads_it(rt: HostRuntime) -> Result<(), Fail> {
    for (line, plain) in [
        ("classify --line=16", "classify --line 16"),
        ("classify --line=0000000016", "classify --line 16"),
        (
            "classify --sets=2 --contexts --ways 1",
            "classify --sets 2 --ways 1 --contexts",
        ),
        (
            "classify --start=any --isa=rv32ic",
            "classify --start any --isa rv32ic",
        ),
        (
            "classify --entry=0xFF --workers=1",
            "classify --workers 1 --entry 0xff",
        ),
        ("classify --nodes=4194304", "classify --nodes 4194304"),
        ("classify --", "classify"),
        ("classify --contexts --", "classify --contexts"),
        ("classify --line 16 --", "classify --line 16"),
        ("graph --line=4 --isa rv32ic", "graph --isa rv32ic --line 4"),
        ("graph --entry=0x10 --", "graph --entry 0x10"),
    ] {
        assert!(rt; give_the_same(rt.alloc(), line, plain)?, "at {line}");
    }
    Ok(())
}

#[test]
fn other_arguments_give_no_settings(rt: HostRuntime) -> Result<(), Fail> {
    for line in [
        // No command, one that isn't built, or more than one.
        "",
        "''",
        "'' classify",
        "--",
        "-- classify",
        "--help",
        "-h",
        "help",
        "help classify",
        "--version",
        "Classify",
        "--line 16 classify",
        "sample",
        "sample --number 1",
        "classify graph",
        "classify classify",
        "classify --line 16 graph",
        // Arguments that are no option and no value of one.
        "classify 16",
        "classify ''",
        "classify -",
        "classify -4",
        "classify --help",
        "classify -h",
        "classify --version",
        "classify --lines 16",
        "classify --lin 16",
        "classify -line 16",
        "classify ---line 16",
        "classify --=16",
        "classify -- --line 16",
        "classify --line 16 -- 2",
        "classify --number 1",
        "graph 0x10000",
        // An option of another command.
        "graph --contexts",
        "graph --sets 1",
        "graph --ways=4",
        "graph --workers 4",
        "graph --nodes=1",
        "graph --start any",
        // An option twice.
        "classify --line 16 --line 16",
        "classify --line=16 --line 16",
        "classify --line 16 --line=32",
        "classify --contexts --contexts",
        "classify --contexts --line 16 --contexts",
        "classify --start any --start empty",
        "graph --isa rv32i --isa rv32i",
        // A value that is missing, or one for a flag.
        "classify --line",
        "classify --line --sets 2",
        "classify --line --contexts",
        "classify --line --",
        "classify --line -- 16",
        "classify --line=",
        "classify --line ''",
        "classify --start",
        "classify --workers",
        "classify --nodes= 1",
        "classify --contexts 1",
        "classify --contexts=true",
        "classify --contexts=",
        "graph --isa",
        "graph --line",
        // A number that is spelled in another way.
        "classify --line +16",
        "classify --line -16",
        "classify --line=-16",
        "classify --line==16",
        "classify --line 16=16",
        "classify --line 0x10",
        "classify --line 00000000016",
        "classify --line 4294967312",
        "classify --workers +1",
        "classify --workers 00000000004",
        "classify --nodes 1_000",
    ] {
        assert!(rt; gives_none(rt.alloc(), line)?, "at {line}");
    }
    Ok(())
}

#[test]
fn values_out_of_their_ranges_give_no_settings(rt: HostRuntime) -> Result<(), Fail> {
    for line in [
        "classify --line 0",
        "classify --line 2",
        "classify --line 12",
        "classify --line=512",
        "classify --sets 0",
        "classify --sets 3",
        "classify --sets 8192",
        "classify --ways 0",
        "classify --ways 17",
        "classify --ways=17",
        "classify --workers 0",
        "classify --workers 65",
        "classify --workers=65",
        "classify --workers 4294967297",
        "classify --nodes 0",
        "classify --nodes 4194305",
        "classify --nodes=4194305",
        "classify --nodes 9999999999",
        "classify --entry 65536",
        "classify --entry 0X10000",
        "classify --entry 0x",
        "classify --entry=0x000010000",
        "classify --entry 0x1000g",
        "classify --start full",
        "classify --start EMPTY",
        "classify --start an",
        "classify --start=anything",
        "classify --isa rv64",
        "graph --isa rv32",
        "graph --isa=RV32I",
        "graph --line 2",
        "graph --line 3",
        "graph --line=512",
        "graph --line 4294967328",
    ] {
        assert!(rt; gives_none(rt.alloc(), line)?, "at {line}");
    }
    Ok(())
}
