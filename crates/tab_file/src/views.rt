//! Views of table files.

ghost use Rattle.std.specs.Prelude.{◌≡◌, ℕ, ◌+◌, ◌*◌, ◌<◌, ◌^◌, IfErr, IfOk, List, Ok, length, slice_index};
ghost use Rattle.tab_file.specs.HeadFaults.{IsFirstFault, table_of_file};
ghost use Rattle.tab_file.specs.TableFiles.{IsTableFile};
ghost use Rattle.tab_file.specs.Tables.{IsTable, Table, entry_at, placement_count, slot_count};

use crate::headers::{HEADER_LEN, HeadFault, SIGNATURE, entry_count};
use byteorder::{BigEndian, ByteOrder};
use pat_place::Pattern;
use puz_board::Side;
use std::marker::Model;

/// A pattern database (Korf and Felner 2002) in the bytes of its file: the pattern, and an entry for each placement of
/// its tiles and each slot. What the entries say isn't looked at.
#[derive(Drop)]
pub struct TableView<'a> {
    pattern: Pattern,
    width: usize,
    file: &'a [u8],
    entries: &'a [u8],
}

impl<'a> Model for TableView<'a> {
    ghost use Rattle.tab_file.specs.Tables.{Table};

    ghost Value = { Table };

    ghost use Rattle.tab_file.specs.StoredTables.{IsStoredTable, table_shown};

    ghost view = { table_shown };

    ghost invariant = { IsStoredTable };
}

/// Views the bytes of a table file as its table. None of them is copied.
pub fn view(file: &[u8]) -> Result<TableView<'_>, HeadFault>
    // A view comes exactly of a table file, and is that of its table.
    ensures ok { IfOk result (λ table. IsTableFile table file.now) }
    ensures viewed { (table : Table) → IsTableFile table file.now → result ≡ Ok table }

    // Which fault it is.
    ensures fault { IfErr result (λ fault. IsFirstFault fault file.now) }
    ensures exact { result ≡ table_of_file file.now }
{
    read_table(file)
}

/// Reads the header, and takes the bytes behind it as the entries.
fn read_table(file: &[u8]) -> Result<TableView<'_>, HeadFault>
    ensures { result ≡ table_of_file file.now }
{
    if file.len() < HEADER_LEN {
        return Err(HeadFault::T1);
    }
    if !file.starts_with(SIGNATURE) {
        return Err(HeadFault::T2);
    }
    let Some(side) = Side::of(file[5]) else {
        return Err(HeadFault::T3);
    };
    let Some(pattern) = Pattern::of_mask(side, BigEndian::read_u32(&file[8..])) else {
        return Err(HeadFault::T4);
    };
    if file[6] != pattern.size() || file[7] != 0 {
        return Err(HeadFault::T4);
    }
    let count = entry_count(&pattern);
    if BigEndian::read_u64(&file[12..]) != count {
        return Err(HeadFault::T5);
    }
    let entries = &file[HEADER_LEN..];
    if entries.len() as u64 != count {
        return Err(HeadFault::T6);
    }
    let width = usize::from(pattern.width());
    Ok(TableView {
        pattern,
        width,
        file,
        entries,
    })
}

impl<'a> TableView<'a> {
    /// The pattern that the header names.
    pub fn pattern(&self) -> Pattern
        ensures pattern { result ≡ self.now.pattern }
        ensures table { IsTable self.now }
    {
        self.pattern
    }

    /// The bytes of the file: the header, and behind it the entries.
    pub fn file(&self) -> &'a [u8]
        ensures { IsTableFile self.now result.now }
    {
        self.file
    }

    /// The entries, which are all bytes behind the header: rank by rank, and slot by slot for each rank.
    pub fn entries(&self) -> &'a [u8]
        ensures entries { result.now ≡ self.now.entries }
        ensures table { IsTable self.now }
        ensures few { length self.now.entries < 2 ^ 32 }
    {
        self.entries
    }

    /// The entry of a rank and a slot.
    #[inline]
    pub fn entry(&self, rank: u64, slot: u8) -> u8
        requires rank { rank < placement_count self.now.pattern }
        requires slot { slot < slot_count self.now.pattern }
        ensures entry { result ≡ entry_at self.now rank slot }

        // It is this byte of the file.
        ensures byte { (file : List ℕ) → IsTableFile self.now file
            → result ≡ slice_index file (20 + rank * slot_count self.now.pattern + slot) }
    {
        self.entries[rank as usize * self.width + usize::from(slot)]
    }
}
