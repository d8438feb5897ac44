//! Bundles over table files.

use set_sum::{Bundle, Part};
use std::process::Abort;
use std::sync::Wait;
use std::thread::Threads;
use tab_check::{check_table, fold};
use work_run::OpenGate;

/// The table of a file, checked by one worker.
fn full<'a, R: Threads + Wait + AllocGlobal + Abort>(rt: &R, file: &'a [u8]) -> Part<'a> {
    match check_table(rt, rt.alloc(), file, 1, &OpenGate) {
        Ok(table) => Part::Full(table),
        Err(_) => panic!(rt; "an exact table"),
    }
}

/// The folded table of a file. The bytes that were checked are dropped.
fn folded<R: Threads + Wait + AllocGlobal + Abort>(rt: &R, file: &[u8]) -> Part<'static> {
    let bytes = file.to_vec(rt.alloc()).expect(rt, "memory");
    match check_table(rt, rt.alloc(), &bytes, 1, &OpenGate) {
        Ok(table) => Part::Folded(fold(rt.alloc(), &table).expect(rt, "memory")),
        Err(_) => panic!(rt; "an exact table"),
    }
}

/// The bundle of tables and a set text.
fn bundle_of<'a>(rt: &impl Abort, tables: Vec<Part<'a>>, text: &[u8]) -> Bundle<'a> {
    match Bundle::read(tables, text) {
        Ok(bundle) => bundle,
        Err(_) => panic!(rt; "a bundle"),
    }
}

/// The bundle of table files and a set text.
pub(crate) fn bundle<'a, R: Threads + Wait + AllocGlobal + Abort>(
    rt: &R,
    files: &[&'a [u8]],
    text: &[u8],
) -> Bundle<'a> {
    let mut tables = Vec::new(rt.alloc());
    for file in files {
        tables.push(full(rt, *file)).expect(rt, "memory");
    }
    bundle_of(rt, tables, text)
}

/// The same of files that were made.
pub(crate) fn bundle_of_made<'a, R: Threads + Wait + AllocGlobal + Abort>(
    rt: &R,
    files: &'a [Vec<u8>],
    text: &[u8],
) -> Bundle<'a> {
    let mut tables = Vec::new(rt.alloc());
    for file in files {
        tables.push(full(rt, file)).expect(rt, "memory");
    }
    bundle_of(rt, tables, text)
}

/// The bundle of one folded table, in one set.
pub(crate) fn over_folded<R: Threads + Wait + AllocGlobal + Abort>(
    rt: &R,
    file: &[u8],
) -> Bundle<'static> {
    let mut tables = Vec::new(rt.alloc());
    tables.push(folded(rt, file)).expect(rt, "memory");
    bundle_of(rt, tables, b"set 0\n")
}

/// The bundle of one table file, in one set.
pub(crate) fn over_one<'a, R: Threads + Wait + AllocGlobal + Abort>(
    rt: &R,
    file: &'a [u8],
) -> Bundle<'a> {
    bundle(rt, &[file], b"set 0\n")
}
