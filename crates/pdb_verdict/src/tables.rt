//! What is found over the tables of a command, and their digest lines.

ghost use Rattle.std.specs.Prelude.{◌≡◌, ◌≤◌, ◌+◌, Err, false, true, length, IfSome, MatchResult};
ghost use Rattle.pdb_run.specs.Answers.{all_bytes, digest_lines};
ghost use Rattle.pdb_run.specs.Writing.{all_files, digests_of};
ghost use Rattle.pdb_verdict.specs.FileBundles.{IfRead, IsReadAnd};
ghost use Rattle.pdb_verdict.specs.Steps.{AreNextParts, ArePartsOf, IsCauseForTables, IsGivenUp, given_or};

use crate::bundles::{bundle_of, folded_part, parts_of, with_part};
use crate::verdicts::Fault;
use pdb_run::{
    DIGEST_LEN, DIGESTS_LEN, Digested, Digests, FILES_BESIDE, digested_beside, with_digest,
};
use set_sum::{Bundle, Part};
use std::mem;
use std::sync::Wait;
use std::thread::Threads;
use work_run::{Gate, Workers};

/// The files of tables, in their order, and whether each table is folded once it is checked.
pub struct TableFiles<'t> {
    /// All of them, where the bytes of each are given up once its table is folded.
    pub given: Option<Vec<Vec<u8>>>,
    /// Else all of them, and their bytes stay. They are only borrowed, so that a caller can give them up once neither what is found
    /// nor the digest lines are needed.
    pub kept: &'t [Vec<u8>],
    pub fold: bool,
}

/// The files, taken out of their place, where their tables are to be folded. Of more files than a bundle has tables the bytes
/// stay.
pub fn given_up(files: &mut Vec<Vec<u8>>, fold: bool) -> Option<Vec<Vec<u8>>>
    ensures all { given_or result files.new.items ≡ files.old.items }
    ensures given { IfSome result (IsGivenUp fold) }
    ensures full { fold ≡ false → files.new ≡ files.old }
{
    if fold && files.len() <= FILES_BESIDE {
        let none = Vec::new(*files.allocator());
        return Some(mem::replace(files, none));
    }
    None
}

/// What is found over the bundle of table files and a set text, or of why there is none; and the digest lines of the files and of
/// a last one, where there is one. The lines are made beside the checks and what is looked for, where there are workers for both.
pub fn over_tables<'t, H, G, A, F>(
    files: TableFiles<'t>,
    last: Option<&'t [u8]>,
    sets: &[u8],
    workers: &Workers<'_, H, G>,
    find: F,
) -> (Digested<'t>, A)
where
    H: Threads + Wait + Sync,
    G: Gate + Sync,
    F: FnOnce(Result<Bundle<'t>, Fault>) -> A,
    requires given { IfSome files.given (IsGivenUp files.fold) }
    requires read { let all = given_or files.given files.kept.now in
        IfRead files.fold (all_bytes all) sets.now (F.pre find) }
    ensures digested { let all = given_or files.entry.given files.entry.kept.now in
        digest_lines result.0 ≡ digests_of (all_files all last.entry) }
    ensures found { let all = given_or files.entry.given files.entry.kept.now in
        IsReadAnd files.entry.fold (all_bytes all) sets.entry.now
        (λ read. F.post find read result.1) }
{
    let TableFiles { given, kept, fold } = files;
    match given {
        Some(given) => over_given_up(given, last, sets, workers, find),
        None => over_kept(kept, last, Bundling { sets, fold }, workers, find),
    }
}

/// What makes a bundle of tables: a set text, and whether each table is folded.
#[derive(Clone, Copy)]
struct Bundling<'a> {
    sets: &'a [u8],
    fold: bool,
}

/// As `over_tables` where the bytes of all files stay.
#[inline(never)] // so that the stack has the values of one way alone
fn over_kept<'t, H, G, A, F>(
    files: &'t [Vec<u8>],
    last: Option<&'t [u8]>,
    bundling: Bundling<'_>,
    workers: &Workers<'_, H, G>,
    find: F,
) -> (Digested<'t>, A)
where
    H: Threads + Wait + Sync,
    G: Gate + Sync,
    F: FnOnce(Result<Bundle<'t>, Fault>) -> A,
    requires { IfRead bundling.fold (all_bytes files.now) bundling.sets.now (F.pre find) }
    ensures digested { let all = all_files files.entry.now last.entry in
        digest_lines result.0 ≡ digests_of all }
    ensures found { let sets = bundling.entry.sets.now in
        IsReadAnd bundling.entry.fold (all_bytes files.entry.now) sets
        (λ read. F.post find read result.1) }
{
    let check = || -> A
        requires { IfRead bundling.fold (all_bytes files.now) bundling.sets.now (F.pre find) }
        ensures { let sets = bundling.entry.sets.now in
            IsReadAnd bundling.entry.fold (all_bytes files.entry.now) sets
            (λ read. F.post find read result) }
    {
        let parts = parts_of(files, bundling.fold, workers);
        find(bundle_of(parts, bundling.sets))
    };
    digested_beside(workers, files, last, check)
}

/// As `over_tables` where each table is folded, and the bytes of its file are given up.
#[inline(never)] // so that the stack has the values of one way alone
fn over_given_up<'t, H, G, A, F>(
    files: Vec<Vec<u8>>,
    last: Option<&'t [u8]>,
    sets: &[u8],
    workers: &Workers<'_, H, G>,
    find: F,
) -> (Digested<'t>, A)
where
    H: Threads + Wait + Sync,
    G: Gate + Sync,
    F: FnOnce(Result<Bundle<'t>, Fault>) -> A,
    requires few { length files.items ≤ FILES_BESIDE }
    requires read { IfRead true (all_bytes files.items) sets.now (F.pre find) }
    ensures digested { let all = all_files files.items last.entry in
        digest_lines result.0 ≡ digests_of all }
    ensures found { IsReadAnd true (all_bytes files.items) sets.entry.now
        (λ read. F.post find read result.1) }
{
    let (mut digests, parts) = fold_files(files, workers);
    let bundle = bundle_of(parts, sets);
    let check = || -> A
        requires { F.pre find bundle }
        ensures { F.post find bundle.entry result }
    { find(bundle) };
    let found = match last {
        Some(last) => with_digest(workers, &mut digests, last, check),
        None => check(),
    };
    (Digested::Lines(digests), found)
}

/// The folded tables of files, and the digest lines of the files. The bytes of each file are given up once its table is folded
/// and its digest line is made, before the next is looked at. Behind a file that is refused the others are digested alone.
#[inline(never)] // so that the stack hasn't its values while a bundle is in use
fn fold_files<'x, H: Threads + Wait + Sync, G: Gate + Sync>(
    files: Vec<Vec<u8>>,
    workers: &Workers<'_, H, G>,
) -> (Digests, Result<Vec<Part<'x>>, Fault>)
    requires { length files.items ≤ FILES_BESIDE }
    ensures digests { result.0.items ≡ digests_of (all_bytes files.items) }
    ensures room { length result.0.items + DIGEST_LEN ≤ DIGESTS_LEN }
    ensures parts { let files = all_bytes files.items in
        MatchResult result.1 (λ parts. ArePartsOf true files parts.items) (IsCauseForTables files) }
{
    let mut digests = Digests::new();
    let mut parts = Ok(Vec::new(workers.alloc));
    for file in files {
        let file = file.as_slice();
        let next = || -> Result<Vec<Part<'_>>, Fault>
            ensures { MatchResult parts.entry
                (λ before. AreNextParts true before.items file.entry.now result)
                (λ refused. result ≡ Err refused) }
        {
            let parts = parts?;
            with_part(parts, folded_part(file, workers))
        };
        parts = with_digest(workers, &mut digests, file, next);
    }
    (digests, parts)
}
