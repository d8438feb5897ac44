//! Checks claims about sliding-tile puzzles.
#![tactic(auto)]

use byte_io::disk::DiskShelf;
use byte_io::watched::Watched;
use pdb_early::{KeptStart, Look, fault_ahead, file_may_be_last, input_may_be_last, takes_long};
use pdb_program::{ArgumentFault, ProgramCall, ReadArguments, RunHost, start};
use pdb_progress::{Watch, checked_files, is_asked_for};
use pdb_reason::{Beginning, Reason, SolvableLast, Summary};
use pdb_request::Request;
use pdb_run::{Beside, Cause, Ended, Status, Tally};
use pdb_verdict::Fault;
use std::env::Env;
use std::fs::File;
use std::io::{Read, Write};
use std::process::ExitCode;
use std::{env, fs, io, str};

/// The system lets no argument take more bytes.
const MOST_ARGUMENT: usize = 131_072;

/// All arguments, of which the first is the program's own name.
fn arguments(rt: &HostRuntime) -> Result<Vec<String>, ArgumentFault> {
    match env::args(rt) {
        Ok(all) => all.collect(rt.alloc()).map_err(|_| ArgumentFault::Memory),
        Err(error) => match error.kind() {
            io::ErrorKind::OutOfMemory => Err(ArgumentFault::Memory),
            _ => Err(unreadable(rt)),
        },
    }
}

/// The first argument that is no UTF-8 text.
fn unreadable(rt: &HostRuntime) -> ArgumentFault {
    let Ok(mut room) = vec![in rt.alloc(); 0_u8; MOST_ARGUMENT] else {
        return ArgumentFault::Memory;
    };
    for place in 0..usize::MAX {
        match rt.arg(place, room.as_mut_slice()) {
            Ok(length) if str::from_utf8(&room.as_slice()[..length]).is_ok() => {}
            _ => return ArgumentFault::Unreadable(place),
        }
    }
    ArgumentFault::Memory
}

/// What a file begins with. Of what is no plain file, as a pipe, nothing is read.
fn beginning_of(rt: &HostRuntime, name: &str) -> io::Result<Beginning> {
    let mut bytes = [0; 4096];
    if !fs::metadata(rt, name)?.is_file() {
        return Ok(Beginning::OfAny);
    }
    let count = File::open(rt, name)?.read(&mut bytes)?;
    Ok(Beginning::of(&bytes[..count]))
}

/// Tells on standard error why a run ended without a yes, or why it will end so, where standard input begins so as far as it is read.
/// What can't be told is left out.
fn tell_reason<'n>(
    rt: &HostRuntime,
    asked: &Request<'n>,
    reason: Option<Reason<'n>>,
    input: &[u8],
) -> io::Result<()> {
    let Some(reason) = reason else {
        return Ok(());
    };
    let reason = reason.on_shelf(asked, &DiskShelf::new(rt));
    let beginning = match reason.name() {
        Some(name) => beginning_of(rt, name).unwrap_or(Beginning::OfAny),
        None if reason.is_of_input() => Beginning::of(input),
        None => Beginning::OfAny,
    };
    rt.eprintln(reason.beginning(beginning))
}

/// How long the line is that a build writes at the end of the program's file.
const SOURCES_LINE: usize = 73;

/// Tells of which sources the program was made, where the end of its file says so.
fn tell_sources(rt: &HostRuntime) -> io::Result<()> {
    let Ok(file) = fs::read(rt, "/proc/self/exe") else {
        return Ok(());
    };
    let file = file.as_slice();
    let line = &file[file.len().saturating_sub(SOURCES_LINE)..];
    if line.starts_with(b"sources ") {
        rt.stdout().write_all(line)?;
    }
    Ok(())
}

/// Whether arguments that are well-formed ask for the version.
fn asks_for_version(all: &Result<Vec<String>, ArgumentFault>) -> bool {
    match all {
        Ok(all) => all
            .as_slice()
            .get(1)
            .is_some_and(|word| matches!(word.as_str(), "--version" | "-V")),
        Err(_) => false,
    }
}

/// What is said of a board that may be meant to have the blank last at home, where progress is told.
const BLANK_FIRST: &str = "pdb_cli: home has the blank first: --goal last has it last";

/// Tells what is known before a run that does what was asked: a refusal that is to come, and where the blank is at home, where that
/// may be missed. The run goes on, whether this can be told or not.
#[inline(never)] // so that the stack hasn't its values while the run is on
fn tell_before(rt: &HostRuntime, asked: &Request<'_>) {
    let look = Look {
        alloc: rt.alloc(),
        files: rt,
    };
    if takes_long(rt, asked)
        && let Some(fault) = fault_ahead(&look, asked)
    {
        let reason = Reason::of(asked, Cause::Refused(fault));
        let _ = tell_reason(rt, asked, reason.map(|reason| reason.ahead()), b"");
    }
    if is_asked_for(rt) && file_may_be_last(&look, asked) {
        let _ = rt.eprintln(BLANK_FIRST);
    }
}

/// Tells what is to be told of a run that has ended and read this start of standard input. Nobody is left to be told that standard error
/// failed.
fn tell_after<'n>(rt: &HostRuntime, asked: &Request<'n>, ended: &Ended<'n, Fault>, input: &[u8]) {
    if let Some(why) = ended.why {
        let reason = Reason::of(asked, why).map(|reason| reason.beside(ended.beside));
        let _ = tell_reason(rt, asked, reason, input);
    }
    if is_asked_for(rt) && input_may_be_last(asked, input) {
        let _ = rt.eprintln(BLANK_FIRST);
    }
    if let Beside::Tally(tally) = ended.beside {
        tell_tally(rt, tally);
    }
}

/// Tells how claims were answered.
fn tell_tally(rt: &HostRuntime, tally: Tally) {
    if tally.solvable_last > 0 {
        let _ = rt.eprintln(SolvableLast(tally.solvable_last));
    }
    if is_asked_for(rt) {
        let _ = rt.eprintln(Summary(tally));
    }
}

/// The files that the run checks, in order, where they are to be told and can be.
fn files_to_tell<'a>(rt: &HostRuntime, asked: Option<&Request<'a>>) -> Vec<&'a str> {
    let none = Vec::new(rt.alloc());
    match asked {
        Some(asked) if is_asked_for(rt) => checked_files(rt.alloc(), asked).unwrap_or(none),
        _ => none,
    }
}

fn main(rt: HostRuntime) -> ExitCode {
    let mut shelf = DiskShelf::new(&rt);
    let mut stdin = rt.stdin();
    let mut stdout = rt.stdout();
    let mut input = KeptStart::new(&mut stdin);
    let mut reader = Watched::new(&mut input);
    let mut out = Watched::new(&mut stdout);
    let mut err = rt.stderr();
    let all = arguments(&rt);
    let read = match &all {
        Ok(all) => Ok(ReadArguments::of(rt.alloc(), all.as_slice())),
        Err(fault) => Err(*fault),
    };
    let asked = read.as_ref().ok().and_then(|read| read.asked.as_ref());
    if let Some(asked) = asked {
        tell_before(&rt, asked);
    }
    let gate = Watch::asked_for(&rt, files_to_tell(&rt, asked));
    let call = ProgramCall {
        host: RunHost {
            rt: &rt,
            alloc: rt.alloc(),
            gate: &gate,
        },
        arguments: read.as_ref().map_err(|fault| *fault),
    };
    let ended = start(call, &mut shelf, &mut reader, &mut out, &mut err);
    gate.ends_claim();
    if let Some(asked) = asked {
        tell_after(&rt, asked, &ended, input.kept());
    }
    if ended.why.is_none() && asks_for_version(&all) && tell_sources(&rt).is_err() {
        return ExitCode::from(Status::Fault.code());
    }
    ExitCode::from(ended.status.code())
}
