//! Why nothing is kept under a name.

use crate::texts::{
    OUT_IS_ANOTHER_LOG, OUT_IS_ANOTHER_TABLE, OUT_IS_LOG, OUT_IS_NEITHER, OUT_IS_READ,
    OUT_IS_READ_ONLY, OUT_IS_TABLE,
};
use byte_io::shelf::Shelf;
use pdb_request::{Request, Solve};

/// How a table begins.
const TABLE: &[u8] = b"PDBT\x01";

/// How a log of each version begins.
const LOGS: [&[u8]; 2] = [b"PDBL\x01", b"PDBL\x02"];

/// Why what is under this name is spared, by what the shelf has there.
pub(crate) fn spared_text<S: Shelf>(asked: &Request<'_>, name: &str, shelf: &S) -> &'static str {
    let is_table = shelf.begins_with(name, TABLE);
    let is_log = LOGS.iter().any(|log| shelf.begins_with(name, log));
    match asked {
        _ if shelf.is_read_only(name) => OUT_IS_READ_ONLY,
        Request::Solve(search) if is_read(search, name, shelf) => OUT_IS_READ,
        Request::Solve(_) if is_table => OUT_IS_TABLE,
        Request::Solve(_) if is_log => OUT_IS_ANOTHER_LOG,
        _ if is_table => OUT_IS_ANOTHER_TABLE,
        _ if is_log => OUT_IS_LOG,
        _ => OUT_IS_NEITHER,
    }
}

/// Whether a search reads what is under this name.
fn is_read<S: Shelf>(search: &Solve<'_, &str>, name: &str, shelf: &S) -> bool {
    let mut tables = search.tables.as_slice().iter();
    shelf.are_one(name, search.board)
        || shelf.are_one(name, search.sets)
        || tables.any(|table| shelf.are_one(name, table))
}

/// Why nothing can be kept under this name, where what the shelf has there tells it.
pub(crate) fn unkept_text<S: Shelf>(name: &str, shelf: &S) -> Option<&'static str> {
    shelf.is_read_only(name).then_some(OUT_IS_READ_ONLY)
}
