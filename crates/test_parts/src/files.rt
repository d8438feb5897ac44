//! Known table files viewed, and headers written by hand from the form.

use crate::given::pattern_with;
use crate::same::same;
use std::process::Abort;
use tab_file::{TableView, header_of, view};
use test_samples::files::{TILE_24, TILES_12, TILES_123};

/// The view of a table file.
pub(crate) fn viewed<'a>(rt: &impl Abort, file: &'a [u8]) -> TableView<'a> {
    view(file).ok().expect(rt, "a table file")
}

/// The side and the mask that a table file names, and the entries that are viewed in it.
fn parts<'a>(rt: &impl Abort, file: &'a [u8]) -> (u8, u32, &'a [u8]) {
    let table = viewed(rt, file);
    let pattern = table.pattern();
    (pattern.side().get(), pattern.mask(), table.entries())
}

#[test]
fn table_files_are_viewed(rt: HostRuntime) {
    let files: [(&[u8], u8, u32); 3] = [
        (&TILES_123, 2, 14),
        (&TILES_12, 2, 6),
        (&TILE_24, 5, 1 << 24),
    ];
    for (file, n, mask) in files {
        let (header, entries) = file.split_at(file.len().min(20));
        same(&rt, &parts(&rt, file), &(n, mask, entries));
        let named = header_of(&pattern_with(&rt, n, mask));
        same(&rt, &named.as_slice(), &header);
    }
    let table = viewed(&rt, &TILES_12);
    assert!(rt; table.pattern().count() == 12 && table.pattern().width() == 2);
    same(&rt, &(table.entry(2, 1), table.entry(7, 1)), &(2, 4));
}

#[test]
fn headers_name_their_patterns(rt: HostRuntime) {
    let eight = b"PDBT\x01\x04\x08\0\0\0\x01\xFE\0\0\0\0\xF7\x70\x88\0";
    same(&rt, &header_of(&pattern_with(&rt, 4, 510)), eight);
    let six = b"PDBT\x01\x05\x06\0\0\0\0\x7E\0\0\0\0\x35\x33\xC0\x40";
    same(&rt, &header_of(&pattern_with(&rt, 5, 126)), six);
}
