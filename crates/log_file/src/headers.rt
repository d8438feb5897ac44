//! The headers of log files.

ghost use Rattle.std.specs.Prelude.{IfNone, IfSome};
ghost use Rattle.log_file.specs.FormFaults.{HasHeader};
ghost use Rattle.log_file.specs.LogFiles.{IsLogHeader};
ghost use Rattle.log_file.specs.Logs.{IsSize, IsVersion};

use byteorder::{BigEndian, ByteOrder};
use puz_board::Side;

/// How many bytes a header has.
pub const HEADER_LEN: usize = 10;

/// How a header begins: the letters of the format.
pub const SIGNATURE: &[u8; 4] = b"PDBL";

/// The newest version of the format. There are this one and version 1.
pub const NEWEST_VERSION: u8 = 2;

/// The most bytes of a log file.
pub const MOST_BYTES: usize = 1 << 30;

/// The most lemmas of a log.
pub const MOST_LEMMAS: u32 = 1 << 20;

/// What a header says.
#[derive(Clone, Copy)]
pub(crate) struct Header {
    /// The version of the format.
    pub(crate) version: u8,
    /// The side of the boards.
    pub(crate) side: Side,
    /// How many lemmas there are.
    pub(crate) count: u32,
}

/// Reads the header of a log file.
pub(crate) fn read_header(file: &[u8]) -> Option<Header>
    ensures some { IfSome result (λ h. IsLogHeader h.version h.side h.count file.now
        × IsVersion h.version × IsSize h.side h.count) }
    ensures none { IfNone result (¬ HasHeader file.now) }
{
    if file.len() < HEADER_LEN || !file.starts_with(SIGNATURE) {
        return None;
    }
    let version = file[4];
    if version != 1 && version != NEWEST_VERSION {
        return None;
    }
    let side = Side::of(file[5])?;
    let count = BigEndian::read_u32(&file[6..]);
    if 1 <= count && count <= MOST_LEMMAS {
        Some(Header {
            version,
            side,
            count,
        })
    } else {
        None
    }
}
