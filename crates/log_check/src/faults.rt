//! Why a log proves no bound.

use log_file::FormFault;

/// Why bytes are no good log for a board. The first of these that stands is answered.
///
/// Lemmas are counted from 0.
#[derive(Clone, Copy, Debug, PartialEq, Eq)]
pub enum LogRefusal {
    /// They are no log file: L1, L2 or L3.
    Form(FormFault),
    /// The log, the bundle and the board haven't one side.
    L4,
    /// The last lemma's board isn't the given one.
    L5,
    /// The lemma with this number is the first that isn't good.
    L6(u32),
}

/// Why no bound comes of bytes.
#[derive(Clone, Copy, Debug, PartialEq, Eq)]
pub enum LogFault {
    /// They are no good log for the board.
    Refused(LogRefusal),
    /// They are a log file, and there isn't the memory to check it.
    Memory,
}
