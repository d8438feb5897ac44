//! The headers of table files.

use crate::fronts::FileStart;
use byteorder::{BigEndian, ByteOrder};
use pat_place::Pattern;
use puz_board::Side;
use std::alloc::Global;
use std::rt::Files;
use tab_file::{HEADER_LEN, HeadFault, view};

/// The pattern that the header of a table file names, or why the header is refused.
fn pattern_in(front: &FileStart) -> Option<Result<Pattern, HeadFault>> {
    match view(front.bytes()) {
        Ok(_) | Err(HeadFault::T6) => {}
        Err(fault) => return Some(Err(fault)),
    }
    let header = front.bytes().first_chunk::<HEADER_LEN>()?;
    let pattern = Pattern::of_mask(Side::of(header[5])?, BigEndian::read_u32(&header[8..]))?;
    let entries = BigEndian::read_u64(&header[12..]);
    if entries.checked_add(HEADER_LEN as u64) == Some(front.length()) {
        Some(Ok(pattern))
    } else {
        Some(Err(HeadFault::T6))
    }
}

/// The patterns of tables, by the headers of their files; none where a header isn't seen. Or which table is the first whose header
/// is refused, and why.
pub(crate) fn patterns_of<R: Files>(
    alloc: Global,
    files: &R,
    tables: &[&str],
) -> Result<Option<Vec<Pattern>>, (usize, HeadFault)> {
    let mut patterns = Vec::new(alloc);
    let mut are_all = true;
    for (number, name) in tables.iter().enumerate() {
        let seen = FileStart::of(alloc, files, name).and_then(|front| pattern_in(&front));
        let is_kept = match seen {
            Some(Ok(pattern)) => patterns.push(pattern).is_ok(),
            Some(Err(fault)) => return Err((number, fault)),
            None => false,
        };
        are_all = are_all && is_kept;
    }
    Ok(if are_all { Some(patterns) } else { None })
}
