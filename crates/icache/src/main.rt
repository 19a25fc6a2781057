//! The program `icache`: it makes ports over the standard streams, hands them to `icache_top::run` with the arguments after
//! its name, and ends with the status's code.
//!
//! What `ended` and `refused` promise is what the process does, over any source and sinks; `main` adds the standard
//! streams and the arguments alone.
#![tactic(auto)]

ghost use Rattle.std.specs.Prelude.{◌≡◌, ◌≢◌, drop};
ghost use Rattle.std.specs.Process.{exit_status};
ghost use Rattle.byte_port.specs.Sent.{Reports};
ghost use Rattle.top_words.specs.FaultText.{fault_text};
ghost use Rattle.top_words.specs.Status.{code_of};
ghost use Rattle.top_words.specs.Views.{bytes_of};
ghost use Rattle.icache_top.specs.Answer.{Answers, ReadsFor, WritesFor};

use byte_port::{ReadPort, Sink, Source, WritePort};
use icache_top::{IdleGate, Status, run};
use std::alloc::Global;
use std::env;
use std::io::ErrorKind;
use std::process::ExitCode;
use std::rt::Env;
use std::thread::Threads;
use top_words::explain;

fn main(rt: HostRuntime) -> ExitCode {
    let mut source = ReadPort::new(rt.stdin());
    let mut out = WritePort::new(rt.stdout());
    let mut err = WritePort::new(rt.stderr());
    match arguments(&rt) {
        Ok(arguments) => ended(&rt, rt.alloc(), &arguments, &mut source, &mut out, &mut err),
        Err(status) => refused(&mut err, &status),
    }
}

/// Runs the program, and gives the code of its status.
fn ended<R: Threads + Sync, S: Source, O: Sink, E: Sink>(
    rt: &R,
    alloc: Global,
    arguments: &[String],
    source: &mut S,
    out: &mut O,
    err: &mut E,
) -> ExitCode
    ensures { (status : Status) × (exit_status result ≡ code_of status)
        × Answers (bytes_of arguments.now) status (S.left source.old) (S.left source.new) (O.sent out.old) (O.sent out.new)
        × ReadsFor S.reads S.left S.faults status source.old source.new
        × WritesFor O.writes status out.old out.new
        × (status ≡ Status.Done → err.new ≡ err.old)
        × (status ≢ Status.Done → Reports E.Sink (fault_text status) err.old err.new) }
{
    let outcome = run(rt, alloc, arguments, source, out, err, &IdleGate);
    exit_code(&outcome.status)
}

/// Ends without a run, and says why.
fn refused<E: Sink>(err: &mut E, status: &Status) -> ExitCode
    ensures code { exit_status result ≡ code_of status.now }
    ensures reported { Reports E.Sink (fault_text status.now) err.old err.new }
{
    explain(err, status);
    exit_code(status)
}

/// The code of a status, as the process ends with it.
fn exit_code(status: &Status) -> ExitCode
    ensures { exit_status result ≡ code_of status.now }
{
    ExitCode::from(status.code())
}

/// The arguments after the program's name. One that isn't text makes the command line a faulty one.
fn arguments(rt: &(impl Env + Alloc<A = Global>)) -> Result<Vec<String>, Status> {
    let all = match env::args(rt) {
        Ok(all) => all,
        Err(error) if error.kind() == ErrorKind::OutOfMemory => return Err(Status::OutOfMemory),
        Err(_) => return Err(Status::Usage),
    };
    Ok(after_name(all.collect(rt.alloc())?))
}

/// All but the first, which is the program's name.
fn after_name(mut all: Vec<String>) -> Vec<String>
    ensures { result.items ≡ drop 1 all.items }
{
    if !all.is_empty() {
        all.remove(0);
    }
    all
}
