//! What calls answer.

ghost use Rattle.std.specs.Prelude.{◌≡◌, ◌≤◌, Err, length, take};
ghost use Rattle.pdb_checker.specs.Answers.{IsAnswerOf, count_of, moves_in, status_of};

use pdb_run::lines;
use pdb_verdict::{Fault, Verdict, line_of};

/// A yes.
pub(crate) const YES: u8 = 0;
/// A solution has fewer moves than is claimed.
pub(crate) const SHORTER: u8 = 1;
/// What was given is refused.
pub(crate) const REFUSED: u8 = 2;
/// Memory is wanting.
pub(crate) const NO_MEMORY: u8 = 3;
/// The call doesn't fit together.
pub(crate) const MISUSED: u8 = 4;

/// Room for the letters of a solution, and a zero behind them.
const LETTERS_ROOM: usize = 256;
/// Room for a line, and a zero behind it.
const LINE_ROOM: usize = 321;

/// What a call answers: its status, and what it tells besides.
#[repr(C)]
#[derive(Clone, Copy)]
pub struct Answer {
    /// How many moves the solution has, or the bound.
    pub count: u16,
    /// How many letters the moves are.
    pub letters: u16,
    /// How many bytes the line has.
    pub length: u16,
    /// As the call itself returns it.
    pub status: u8,
    /// The letters of a solution, and zeros behind them.
    pub moves: [u8; LETTERS_ROOM],
    /// The line of `replay` and `table`, or of a refusal, and zeros behind it.
    pub line: [u8; LINE_ROOM],
}

impl Answer {
    /// The answer that tells a verdict, a refusal or want of memory.
    pub(crate) fn of(found: &Result<Verdict, Fault>) -> Answer
        ensures { IsAnswerOf found.now result }
    {
        Answer::with_moves(found, &[])
    }

    /// The same with the letters of a solution.
    pub(crate) fn with_moves(found: &Result<Verdict, Fault>, letters: &[u8]) -> Answer
        requires { length letters.now ≤ 255 }
        ensures answer { IsAnswerOf found.now result }
        ensures moves { moves_in result ≡ letters.now }
    {
        let line = line_of(found);
        let bytes = line.as_str().as_bytes();
        Answer {
            count: count_of(found),
            letters: letters.len() as u16,
            length: bytes.len() as u16,
            status: status_of(found),
            moves: padded(letters),
            line: padded(bytes),
        }
    }

    /// The answer that tells a refusal or want of memory.
    pub(crate) fn refused(fault: Fault) -> Answer
        ensures answer { IsAnswerOf (Err fault) result }
        ensures status { 2 ≤ result.status }
    {
        Answer::of(&Err(fault))
    }

    /// The answer that has a solution of fewer moves than is claimed.
    pub(crate) fn shorter(letters: &[u8]) -> Answer
        requires { length letters.now ≤ 255 }
        ensures status { result.status ≡ 1 }
        ensures moves { moves_in result ≡ letters.now }
    {
        let line = lines(&["refused O2\n"]);
        let bytes = line.as_str().as_bytes();
        Answer {
            count: letters.len() as u16,
            letters: letters.len() as u16,
            length: bytes.len() as u16,
            status: SHORTER,
            moves: padded(letters),
            line: padded(bytes),
        }
    }

    /// The answer that tells a status and a number alone.
    pub(crate) fn bare(status: u8, count: u16) -> Answer
        ensures status { result.status ≡ status }
        ensures count { result.count ≡ count }
    {
        Answer {
            count,
            letters: 0,
            length: 0,
            status,
            moves: [0; LETTERS_ROOM],
            line: [0; LINE_ROOM],
        }
    }
}

/// How many moves a verdict tells, or the bound; and 0 of all else.
fn count_of(found: &Result<Verdict, Fault>) -> u16
    ensures { result ≡ count_of found.now }
{
    match found {
        Ok(Verdict::Solution(moves)) => *moves,
        Ok(Verdict::Bound(bound)) => u16::from(*bound),
        Ok(Verdict::Optimal(moves)) => u16::from(*moves),
        _ => 0,
    }
}

/// The status of a verdict, a refusal or want of memory.
fn status_of(found: &Result<Verdict, Fault>) -> u8
    ensures { result ≡ status_of found.now }
{
    match found {
        Ok(_) => YES,
        Err(Fault::Memory) => NO_MEMORY,
        Err(_) => REFUSED,
    }
}

/// These bytes, and zeros behind them.
fn padded<const N: usize>(bytes: &[u8]) -> [u8; N]
    requires { length bytes.now ≤ N }
    ensures { take (length bytes.now) result ≡ bytes.now }
{
    let mut all = [0; N];
    all[..bytes.len()].copy_from_slice(bytes);
    all
}
