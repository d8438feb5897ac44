//! Arguments as the system gives them.

use crate::runs::{Ended, owned};
use crate::same::same;
use byte_io::memory::MemShelf;
use pdb_program::{ArgumentFault, ProgramCall, ReadArguments, RunHost, start};
use std::alloc::Global;
use std::sync::Wait;
use std::test::Fail;
use std::thread::Threads;
use work_run::OpenGate;

/// A run on these arguments.
fn started<H: Threads + Wait + Sync>(
    rt: &H,
    alloc: Global,
    arguments: Result<&[String], ArgumentFault>,
) -> Result<Ended, Fail> {
    let mut shelf = MemShelf::of(alloc, &[("six", b"3 2 1 0 ; ULDRUL".as_slice())])?;
    let mut reader = b"1 0 2 3 ; L".as_slice();
    let mut out = b"before\n".to_vec(alloc)?;
    let mut err = Vec::new(alloc);
    let read = match arguments {
        Ok(all) => Ok(ReadArguments::of(alloc, all)),
        Err(fault) => Err(fault),
    };
    let call = ProgramCall {
        host: RunHost {
            rt,
            alloc,
            gate: &OpenGate,
        },
        arguments: match &read {
            Ok(read) => Ok(read),
            Err(fault) => Err(*fault),
        },
    };
    let ended = start(call, &mut shelf, &mut reader, &mut out, &mut err);
    let status = ended.status.code();
    Ok(Ended { status, out, err })
}

/// A run on these words says these lines, with this status.
fn expect_started<H: Threads + Wait + Sync>(
    rt: &H,
    alloc: Global,
    words: &[&str],
    lines: &[u8],
    status: u8,
) -> Result<(), Fail> {
    let arguments = owned(alloc, words)?;
    started(rt, alloc, Ok(arguments.as_slice()))?.expect(lines, status)
}

#[test]
fn the_first_argument_is_the_program_itself(rt: HostRuntime) -> Result<(), Fail> {
    let cases: [(&[&str], &[u8], u8); 5] = [
        (&[], b"before\nsolution 1\n", 0),
        (&["pdb_cli"], b"before\nsolution 1\n", 0),
        (&["table"], b"before\nsolution 1\n", 0),
        (&["pdb_cli", "replay", "six"], b"before\nsolution 6\n", 0),
        (
            &["", "replay", "pdb_cli"],
            b"before\nfault read pdb_cli\n",
            2,
        ),
    ];
    for (words, lines, status) in cases {
        expect_started(&rt, rt.alloc(), words, lines, status)?;
    }
    Ok(())
}

/// What is said of the third word where it is no UTF-8 text.
const UNREADABLE: &[u8] =
    b"error: word 3 is no UTF-8 text\n\nUsage: pdb_cli [COMMAND]\n\nFor more information, try '--help'.\n";

#[test]
fn arguments_that_cannot_be_taken(rt: HostRuntime) -> Result<(), Fail> {
    let ended = started(&rt, rt.alloc(), Err(ArgumentFault::Memory))?;
    ended.expect(b"before\nno memory\n", 3)?;
    let ended = started(&rt, rt.alloc(), Err(ArgumentFault::Unreadable(3)))?;
    same(&rt, &ended.status, &2);
    same(&rt, &ended.out.as_slice(), &b"before\n".as_slice());
    same(&rt, &ended.err.as_slice(), &UNREADABLE);
    Ok(())
}
