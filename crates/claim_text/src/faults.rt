//! Why a text isn't read as claims.

/// Why a text isn't read as claims.
///
/// Lines are counted from 0.
#[derive(Clone, Copy, Debug, PartialEq, Eq)]
pub enum ClaimsFault {
    /// This line is the first that is no claim and no remark. The line 1,048,576 is none, whatever it says. Where all lines are
    /// remarks, it is the one behind the last.
    Q1 { line: u32 },
    /// Each line is a claim or a remark, and there isn't the memory to list the claims.
    Memory,
}
