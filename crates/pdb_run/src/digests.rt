//! Digest lines, and how they are made beside a check.

ghost use Rattle.std.specs.Prelude.{◌≡◌, ◌<◌, ◌≤◌, ◌+◌, ◌++◌, None, IfOk, IfSome, IsOk, OnOk, length};
ghost use Rattle.pdb_run.specs.Answers.{digest_lines};
ghost use Rattle.pdb_run.specs.Writing.{all_files, digest_line, digests_of};

use crate::answers::Digested;
use arrayvec::{ArrayVec, CapacityError};
use sha2::{Digest, Sha256};
use std::thread::{Threads, join};
use work_run::Workers;

/// How many bytes a digest line has: `sha256 `, 64 digits and its end.
pub const DIGEST_LEN: usize = 72;

/// Where its digits begin.
const DIGITS: usize = 7;

/// The most files before the last one whose digests are made beside a check.
pub const FILES_BESIDE: usize = 16;

/// How many bytes their digest lines and that of the last one have.
pub const DIGESTS_LEN: usize = (FILES_BESIDE + 1) * DIGEST_LEN;

/// Digest lines, as a value.
pub type Digests = ArrayVec<u8, DIGESTS_LEN>;

/// Digest lines that were made, or too many of them.
type MadeDigests = Result<Digests, CapacityError>;

/// The digest lines of files and of a last one, where there is one, and what a check answers. The lines are made beside the check: in
/// threads of their own, at most as many as workers. Where a thread can't be started, its digests are made after the check or after
/// others. With one worker, or more files than `FILES_BESIDE`, they are still to be made.
pub fn digested_beside<'f, R: Threads + Sync, G, T, F: FnOnce() -> T>(
    workers: &Workers<'_, R, G>,
    files: &'f [Vec<u8>],
    last: Option<&'f [u8]>,
    check: F,
) -> (Digested<'f>, T)
    requires { F.pre check }
    ensures digested { let all = all_files files.entry.now last.entry in
        digest_lines result.0 ≡ digests_of all }
    ensures answer { F.post check result.1 }
{
    let (rt, groups) = (workers.rt, workers.count);
    if groups < 2 || files.len() > FILES_BESIDE {
        return (Digested::Files(files, last), check());
    }
    let digests = || -> MadeDigests
        ensures { IfOk result
            (λ digests. digests.items ≡ digests_of (all_files files.entry.now last.entry)) }
    { digests_in_groups(rt, groups, files, last) };
    let (digests, answer) = join(rt, digests, check);
    let digested = match digests {
        Ok(lines) => Digested::Lines(lines),
        Err(_) => Digested::Files(files, last),
    };
    (digested, answer)
}

/// As `digested_beside`, but where the lines are still to be made, there are none: for files that are not there any more when the
/// lines are written.
pub fn beside<R: Threads + Sync, G, T, F: FnOnce() -> T>(
    workers: &Workers<'_, R, G>,
    files: &[Vec<u8>],
    last: Option<&[u8]>,
    check: F,
) -> (Option<Digests>, T)
    requires { F.pre check }
    ensures digests { IfSome result.0
        (λ digests. digests.items ≡ digests_of (all_files files.now last.entry)) }
    ensures answer { F.post check result.1 }
{
    let (digested, answer) = digested_beside(workers, files, last, check);
    let digests = match digested {
        Digested::Lines(lines) => Some(lines),
        Digested::Files(..) => None,
    };
    (digests, answer)
}

/// What a check of a file answers, and behind the lines so far the file's digest line: made in a thread of its own beside the
/// check, or behind it, where there is one worker or the thread can't be started.
pub fn with_digest<R: Threads, G, T, F: FnOnce() -> T>(
    workers: &Workers<'_, R, G>,
    digests: &mut Digests,
    file: &[u8],
    check: F,
) -> T
    requires check { F.pre check }
    requires room { length digests.old.items + DIGEST_LEN ≤ DIGESTS_LEN }
    ensures line { digests.new.items ≡ digests.old.items ++ digest_line file.now }
    ensures length { length digests.new.items ≡ length digests.old.items + DIGEST_LEN }
    ensures answer { F.post check result }
{
    let (line, answer) = line_beside(workers, file, check);
    let _fits = digests.try_extend_from_slice(&line);
    answer
}

/// A file's digest line, and what a check answers beside which it is made, where there is more than one worker.
fn line_beside<R: Threads, G, T, F: FnOnce() -> T>(
    workers: &Workers<'_, R, G>,
    file: &[u8],
    check: F,
) -> ([u8; DIGEST_LEN], T)
    requires { F.pre check }
    ensures line { result.0 ≡ digest_line file.now }
    ensures answer { F.post check result.1 }
{
    if workers.count < 2 {
        let answer = check();
        return (digest_line(file), answer);
    }
    let line = || -> [u8; DIGEST_LEN]
        ensures { result ≡ digest_line file.entry.now }
    { digest_line(file) };
    join(workers.rt, line, check)
}

/// The digest lines of files, and of a last one, where there is one: by at most so many groups, each but the last one in a
/// thread of its own. The groups are halved at each step, so the stack grows as the logarithm of their number.
fn digests_in_groups<R: Threads + Sync>(
    rt: &R,
    groups: u8,
    files: &[Vec<u8>],
    last: Option<&[u8]>,
) -> MadeDigests
    ensures { IfOk result
        (λ digests. digests.items ≡ digests_of (all_files files.now last.entry)) }
{
    if groups < 2 || files.len() + usize::from(last.is_some()) < 2 {
        return digests_in_order(files, last);
    }
    let (front, behind) = files.split_at(files.len().div_ceil(2));
    let front_digests = || -> MadeDigests
        requires { 1 < groups }
        ensures { IfOk result
            (λ digests. digests.items ≡ digests_of (all_files front.entry.now None)) }
    { digests_in_groups(rt, groups / 2, front, None) };
    let digests_behind = || -> MadeDigests
        requires { 1 < groups }
        ensures { IfOk result
            (λ digests. digests.items ≡ digests_of (all_files behind.entry.now last.entry)) }
    { digests_in_groups(rt, groups - groups / 2, behind, last) };
    let (front, behind) = join(rt, front_digests, digests_behind);
    in_order(front, behind)
}

/// The digest lines of files, and of the last one, where there is one.
fn digests_in_order(files: &[Vec<u8>], last: Option<&[u8]>) -> MadeDigests
    ensures { IfOk result
        (λ digests. digests.items ≡ digests_of (all_files files.now last.entry)) }
{
    let mut digests = Digests::new();
    for file in files {
        digests.try_extend_from_slice(&digest_line(file.as_slice()))?;
    }
    if let Some(file) = last {
        digests.try_extend_from_slice(&digest_line(file))?;
    }
    Ok(digests)
}

/// Lines, and the lines behind them.
fn in_order(front: MadeDigests, behind: MadeDigests) -> MadeDigests
    ensures lines { IfOk result
        (λ all. IfOk front (λ f. IfOk behind (λ b. all.items ≡ f.items ++ b.items))) }
    ensures both { OnOk result (IsOk front × IsOk behind) }
{
    let mut all = front?;
    let behind = behind?;
    all.try_extend_from_slice(behind.as_slice())?;
    Ok(all)
}

/// The SHA-256 of a file, in a line (FIPS 180-4).
pub(crate) fn digest_line(file: &[u8]) -> [u8; DIGEST_LEN]
    ensures { result ≡ digest_line file.now }
{
    let digest = Sha256::digest(file);
    let mut line = [b'\n'; DIGEST_LEN];
    line[..DIGITS].copy_from_slice(b"sha256 ");
    let _ = hex::encode_to_slice(digest, &mut line[DIGITS..DIGEST_LEN - 1]);
    line
}
