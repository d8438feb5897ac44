//! The headers of table files.

ghost use Rattle.std.specs.Prelude.{◌≡◌, ℕ, ◌<◌, ◌^◌, ◌++◌, List, Ok, length};
ghost use Rattle.pat_place.specs.Patterns.{IsPattern};
ghost use Rattle.tab_file.specs.HeadFaults.{table_of_file};
ghost use Rattle.tab_file.specs.TableFiles.{IsTableFile};
ghost use Rattle.tab_file.specs.Tables.{entry_count};

use byteorder::{BigEndian, ByteOrder};
use pat_place::Pattern;

/// How many bytes a header has.
pub const HEADER_LEN: usize = 20;

/// The most bytes of a table file.
pub const MOST_BYTES: u64 = 1 << 32;

/// How a header begins: the letters of the format, and its version.
pub(crate) const SIGNATURE: &[u8; 5] = b"PDBT\x01";

/// Why bytes are no table file. The first of these that stands is answered.
///
/// Places of bytes are counted from 0.
#[derive(Clone, Copy, Debug, PartialEq, Eq)]
pub enum HeadFault {
    /// There are fewer than 20 bytes.
    T1,
    /// The first five bytes aren't `PDBT` and 1.
    T2,
    /// The side, byte 5, isn't one of 2 to 5.
    T3,
    /// The mask is no pattern of that side, byte 6 isn't the number of its tiles, or byte 7 isn't 0.
    T4,
    /// The number of entries isn't that of the pattern.
    T5,
    /// The file hasn't 20 bytes and that many entries.
    T6,
}

/// The header of the table files of a pattern.
pub fn header_of(pattern: &Pattern) -> [u8; HEADER_LEN]
    // With the entries of a table behind it, it is that table's file, and is viewed as that table.
    ensures file { (entries : List ℕ) → length entries ≡ entry_count pattern.now
        → IsTableFile (record { pattern = pattern.now; entries = entries }) (result ++ entries) }
    ensures viewed { (entries : List ℕ) → length entries ≡ entry_count pattern.now
        → table_of_file (result ++ entries)
        ≡ Ok (record { pattern = pattern.now; entries = entries }) }
{
    let mut header = [0; HEADER_LEN];
    header[..5].copy_from_slice(SIGNATURE);
    header[5] = pattern.side().get();
    header[6] = pattern.size();
    BigEndian::write_u32(&mut header[8..], pattern.mask());
    BigEndian::write_u64(&mut header[12..], entry_count(pattern));
    header
}

/// How many entries a table of the pattern has.
pub(crate) fn entry_count(pattern: &Pattern) -> u64
    requires { IsPattern pattern.now }
    ensures count { result ≡ entry_count pattern.now }
    ensures few { result < 2 ^ 32 }
{
    pattern.count() * u64::from(pattern.width())
}
