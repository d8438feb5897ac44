//! A shelf that keeps files, and tries whether it can, over a system whose calls fail or which stops.

use crate::calls::expect_calls;
use crate::same::{holds_for, same, same_for};
use byte_io::disk::DiskShelf;
use byte_io::shelf::{KeepFault, Shelf};
use std::alloc::{AllocError, AllocGlobal, Global};
use std::fs::OpenOptions;
use std::io;
use std::process::Abort;
use std::test::Fail;
use test_samples::{Call, SampleFiles};

const OLD: &[u8] = b"old";

const NEW: &[u8] = b"new bytes";

/// The calls that keep nine bytes.
const CALLS: &[Call] = &[
    Call::Look,
    Call::Create,
    Call::Write,
    Call::Write,
    Call::Write,
    Call::Sync,
    Call::Rename,
];

/// The calls that keep nine bytes where something stands under the first two names of the temporary file.
const CALLS_BESIDE: &[Call] = &[
    Call::Look,
    Call::Create,
    Call::Create,
    Call::Create,
    Call::Write,
    Call::Write,
    Call::Write,
    Call::Sync,
    Call::Rename,
];

/// Files, the name under which the new bytes are to stand there, and the calls that keep them.
#[derive(Clone, Copy)]
struct Case<'a> {
    files: &'a [(&'a str, &'a [u8])],
    name: &'a str,
    calls: &'a [Call],
}

/// A name with old bytes, one without, and one beside files of others: a user's, and one that was left over.
const CASES: [Case<'_>; 3] = [
    Case {
        files: &[("a", OLD), ("b", OLD)],
        name: "a",
        calls: CALLS,
    },
    Case {
        files: &[("a", OLD), ("b", OLD)],
        name: "c",
        calls: CALLS,
    },
    Case {
        files: &[("a", OLD), ("a.unkept", b"a user's"), ("a.1.unkept", b"ne")],
        name: "a",
        calls: CALLS_BESIDE,
    },
];

impl Case<'_> {
    /// Its system.
    fn system(&self, alloc: Global) -> Result<SampleFiles, AllocError> {
        SampleFiles::new(alloc, self.files)
    }

    /// Whether each file has what it had, but for what stands under the name.
    fn others_stay(&self, files: &SampleFiles) -> bool {
        self.files.iter().all(|(name, bytes)| *name == self.name || files.has(name, bytes))
    }

    /// Whether each file has what it had.
    fn all_stay(&self, files: &SampleFiles) -> bool {
        self.files
            .iter()
            .all(|(name, bytes)| files.has(name, bytes))
    }

    /// How many names there are once the new bytes have theirs.
    fn count_with_new(&self) -> usize {
        let others = self.files.iter().filter(|(name, _)| *name != self.name);
        others.count().saturating_add(1)
    }
}

/// Keeps bytes under a name of a system, and says whether the shelf failed then.
fn keep(
    alloc: Global,
    files: &SampleFiles,
    name: &str,
    bytes: &[u8],
) -> (Result<(), KeepFault>, bool) {
    let mut shelf = DiskShelf::new(files);
    let kept = shelf.keep(alloc, name, bytes);
    (kept, shelf.failed())
}

/// What comes of a device that fails.
const FAILED: (Result<(), KeepFault>, bool) = (Err(KeepFault::F3), true);

#[test]
fn a_file_gets_its_name_when_it_is_whole(rt: HostRuntime) -> Result<(), Fail> {
    for case in CASES {
        let files = case.system(rt.alloc())?;
        same(
            &rt,
            &keep(rt.alloc(), &files, case.name, NEW),
            &(Ok(()), false),
        );
        expect_calls(&rt, &files, case.calls)?;
        assert!(rt; files.has(case.name, NEW) && case.others_stay(&files));
        same(&rt, &files.count(), &case.count_with_new());
    }
    Ok(())
}

/// Ends the test where a keep doesn't fail by this call, or changes a file.
fn expect_call_fails<R: AllocGlobal + Abort>(
    rt: &R,
    case: &Case<'_>,
    call: u64,
) -> Result<(), AllocError> {
    let files = case.system(rt.alloc())?;
    files.fail(call, call.saturating_add(1));
    let ended = keep(rt.alloc(), &files, case.name, NEW);
    same_for(rt, &ended, &FAILED, &("call", call));
    let is_as_before = case.all_stay(&files) && files.count() == case.files.len();
    holds_for(rt, is_as_before, &("call", call));
    Ok(())
}

#[test]
fn a_call_that_fails_leaves_what_was_there(rt: HostRuntime) -> Result<(), Fail> {
    for case in CASES {
        for call in 1..case.calls.len() as u64 {
            expect_call_fails(&rt, &case, call)?;
        }
    }
    Ok(())
}

#[test]
fn a_file_is_kept_where_nothing_is_told_of_its_name(rt: HostRuntime) -> Result<(), Fail> {
    let files = CASES[0].system(rt.alloc())?;
    files.fail(0, 1);
    same(&rt, &keep(rt.alloc(), &files, "a", NEW), &(Ok(()), false));
    assert!(rt; files.has("a", NEW) && files.count() == 2);
    Ok(())
}

/// Ends the test where a keep over a system that stops at a call leaves something else than the old file or the new one, or where
/// the name can't be kept under again then, or something else is left over.
fn expect_stopped<R: AllocGlobal + Abort>(
    rt: &R,
    case: &Case<'_>,
    call: usize,
) -> Result<(), AllocError> {
    let files = case.system(rt.alloc())?;
    files.fail(call as u64, u64::MAX);
    let ended = keep(rt.alloc(), &files, case.name, NEW);
    if call < case.calls.len() {
        same_for(rt, &ended, &FAILED, &("call", call));
        holds_for(rt, case.all_stay(&files), &("call", call));
    } else {
        holds_for(rt, files.has(case.name, NEW), &("call", call));
    }
    files.fail(0, 0);
    let again = keep(rt.alloc(), &files, case.name, b"newest");
    same_for(rt, &again, &(Ok(()), false), &("call", call));
    let is_kept = files.has(case.name, b"newest") && case.others_stay(&files);
    holds_for(rt, is_kept, &("call", call));
    // What was made and not yet renamed is left over.
    let made = case.calls.iter().position(|it| *it == Call::Write);
    let is_left = made.is_some_and(|made| made <= call && call < case.calls.len());
    let count = case.count_with_new().saturating_add(usize::from(is_left));
    same_for(rt, &files.count(), &count, &("call", call));
    Ok(())
}

#[test]
fn a_system_that_stops_leaves_the_old_file_or_the_new_one(rt: HostRuntime) -> Result<(), Fail> {
    for case in CASES {
        for call in 0..=case.calls.len() {
            expect_stopped(&rt, &case, call)?;
        }
    }
    Ok(())
}

/// Makes a file without bytes where nothing stands.
fn make(files: &SampleFiles, name: &str) -> io::Result<()> {
    let _file = OpenOptions::new()
        .write(true)
        .create_new(true)
        .open(files, name)?;
    Ok(())
}

#[test]
fn a_thousand_names_are_tried(rt: HostRuntime) -> Result<(), Fail> {
    let files = SampleFiles::new(rt.alloc(), &[("a", OLD), ("a.unkept", b"a user's")])?;
    for number in 1..999 {
        let name = format!(in rt.alloc(); "a.{number}.unkept")?;
        make(&files, name.as_str())?;
    }
    same(&rt, &keep(rt.alloc(), &files, "a", NEW), &(Ok(()), false));
    assert!(rt; files.has("a", NEW) && files.count() == 1000);
    make(&files, "a.999.unkept")?;
    same(&rt, &keep(rt.alloc(), &files, "a", NEW), &FAILED);
    same(&rt, &files.count(), &1001);
    Ok(())
}

/// Tries a name of a system, and says whether the shelf failed then.
fn try_name(alloc: Global, files: &SampleFiles, name: &str) -> (Result<(), KeepFault>, bool) {
    let mut shelf = DiskShelf::new(files);
    let tried = shelf.try_keep(alloc, name);
    (tried, shelf.failed())
}

#[test]
fn what_is_no_plain_file_is_only_looked_at(rt: HostRuntime) -> Result<(), Fail> {
    let files = SampleFiles::new(rt.alloc(), &[("folder/", b"")])?;
    same(&rt, &try_name(rt.alloc(), &files, "folder/"), &FAILED);
    same(&rt, &keep(rt.alloc(), &files, "folder/", NEW), &FAILED);
    same(&rt, &try_name(rt.alloc(), &files, ""), &FAILED);
    expect_calls(&rt, &files, &[Call::Look, Call::Look])?;
    Ok(())
}

#[test]
fn a_trial_makes_a_file_and_removes_it(rt: HostRuntime) -> Result<(), Fail> {
    for case in CASES {
        let files = case.system(rt.alloc())?;
        same(
            &rt,
            &try_name(rt.alloc(), &files, case.name),
            &(Ok(()), false),
        );
        assert!(rt; case.all_stay(&files) && files.count() == case.files.len());
        let creates = case.calls.iter().filter(|it| **it == Call::Create).count();
        let calls = files.calls()?;
        same(&rt, &calls.len(), &creates.saturating_add(2));
        same(&rt, &calls.last(), &Some(&Call::Remove));
    }
    Ok(())
}

/// Ends the test where a trial during which calls from one to before another fail ends otherwise, changes a file, or leaves another
/// number of new ones.
fn expect_trial<R: AllocGlobal + Abort>(
    rt: &R,
    case: &Case<'_>,
    (from, to): (u64, u64),
    fails: bool,
    left: usize,
) -> Result<(), AllocError> {
    let files = case.system(rt.alloc())?;
    files.fail(from, to);
    let (tried, failed) = try_name(rt.alloc(), &files, case.name);
    same_for(rt, &(tried.is_err(), failed), &(fails, fails), &(from, to));
    holds_for(rt, case.all_stay(&files), &(from, to));
    let count = case.files.len().saturating_add(left);
    same_for(rt, &files.count(), &count, &(from, to));
    Ok(())
}

#[test]
fn a_trial_that_fails_leaves_what_others_made(rt: HostRuntime) -> Result<(), Fail> {
    // Where nothing is told of the name, it is tried. What can't be removed is tried again, twice, and then stays.
    let alone = [
        ((0, 1), false, 0),
        ((1, 2), true, 0),
        ((2, 3), false, 0),
        ((2, 4), false, 0),
        ((2, 5), true, 1),
    ];
    for (calls, fails, left) in alone {
        expect_trial(&rt, &CASES[0], calls, fails, left)?;
    }
    for (calls, left) in [((3, 4), 0), ((3, 9), 0), ((4, 7), 1), ((0, 9), 0)] {
        expect_trial(&rt, &CASES[2], calls, true, left)?;
    }
    Ok(())
}
