//! What a run says: how often it writes, and that digests come at all.

use crate::same::equal;
use crate::sha256;
use pdb_run::{CommandAnswer, Digested, beside, lines, say};
use std::alloc::{AllocError, AllocGlobal, Global};
use std::io::ErrorKind;
use std::process::Abort;
use std::sync::Wait;
use std::test::Fail;
use std::thread::Threads;
use test_samples::{Failing, SampleWriter};
use work_run::{OpenGate, Workers};

/// Files, no two neighbours the same, and their digest lines.
const KNOWN: [(&[u8], &[u8]); 3] = [
    (b"abc", sha256::OF_ABC),
    (sha256::LETTERS, sha256::OF_LETTERS),
    (b"", sha256::OF_NOTHING),
];

/// So many of the known files, over and over.
fn known_files(alloc: Global, count: usize) -> Result<Vec<Vec<u8>>, AllocError> {
    let mut files = Vec::new(alloc);
    for (file, _) in KNOWN.iter().cycle().take(count) {
        files.push(file.to_vec(alloc)?)?;
    }
    Ok(files)
}

/// The digest lines of so many of the known files, and of no bytes.
fn known_digests(alloc: Global, count: usize) -> Result<Vec<u8>, AllocError> {
    let mut lines = Vec::new(alloc);
    for (_, line) in KNOWN.iter().cycle().take(count) {
        lines.extend_from_slice(line)?;
    }
    lines.extend_from_slice(sha256::OF_NOTHING)?;
    Ok(lines)
}

#[test]
fn an_answer_is_one_write(rt: HostRuntime) -> Result<(), Fail> {
    let alloc = rt.alloc();
    let files = known_files(alloc, 16)?;
    let mut out = SampleWriter::new(alloc).failing(1, u64::MAX, Failing::ByError(ErrorKind::Other));
    let answer = CommandAnswer {
        digested: Digested::Files(files.as_slice(), Some(b"")),
        made: None,
        made_digest: None,
        lines: lines(&["bound ", "6", "\n"]),
        is_yes: true,
    };
    let said = say(&answer, &mut out);
    assert!(rt; said.is_ok() && out.calls() == 1);
    let mut want = known_digests(alloc, 16)?;
    want.extend_from_slice(b"bound 6\n")?;
    assert!(rt; out.taken() == want.as_slice());
    Ok(())
}

/// Ends the test where digests that are made beside a check, by so many workers, are wrong, or none are made though there are workers
/// and at most sixteen files.
fn expect_beside<H: AllocGlobal + Threads + Wait + Abort + Sync>(
    rt: &H,
    workers: u8,
    files: &[Vec<u8>],
    want: &[u8],
) {
    let workers = match workers {
        1..=64 => Workers::new(rt, rt.alloc(), workers, &OpenGate),
        _ => panic!(rt; "1 to 64 workers"),
    };
    let (digests, answer) = beside(&workers, files, Some(b""), || 6u8);
    let are_right = match digests {
        Some(digests) => equal(&digests.as_slice(), &want),
        None => workers.count == 1 || files.len() > 16,
    };
    assert!(rt; are_right && answer == 6);
}

#[test]
fn digests_are_made_beside_a_check(rt: HostRuntime) -> Result<(), Fail> {
    for count in [0usize, 1, 5, 16, 17] {
        let files = known_files(rt.alloc(), count)?;
        let want = known_digests(rt.alloc(), count)?;
        for workers in [1u8, 2, 7, 64] {
            expect_beside(&rt, workers, files.as_slice(), want.as_slice());
        }
    }
    Ok(())
}
