//! The lemma at the front of bytes.

ghost use Rattle.std.specs.Prelude.{◌≡◌, IfNone, IfSome};
ghost use Rattle.log_file.specs.Parts.{lemma_shown};
ghost use Rattle.log_file.specs.LogFiles.{HasLemma, behind, front_lemma};

use byteorder::{BigEndian, ByteOrder};
use puz_board::Side;

/// How many bytes stand between a lemma's board and its tree: one for the bound, four for the length of the tree.
pub const BOUND_AND_LENGTH: usize = 5;

/// The parts of a lemma, as they lie in its bytes.
#[derive(Clone, Copy)]
pub(crate) struct Parts<'a> {
    /// The numbers of its board, which may be none.
    pub(crate) cells: &'a [u8],
    /// The number of moves that it claims at least.
    pub(crate) bound: u8,
    /// The bytes of its tree.
    pub(crate) tree: &'a [u8],
}

/// The lemma at the front of the bytes, for boards of this side, and the bytes behind it; none where it is cut short.
pub(crate) fn front(side: Side, bytes: &[u8]) -> Option<(Parts<'_>, &[u8])>
    ensures some { IfSome result (λ r. HasLemma side bytes.now
        × (lemma_shown r.0 ≡ front_lemma side bytes.now) × (r.1.now ≡ behind side bytes.now)) }
    ensures none { IfNone result (¬ HasLemma side bytes.now) }
{
    let cells = usize::from(side.cells());
    if bytes.len() < cells + BOUND_AND_LENGTH {
        return None;
    }
    let length = BigEndian::read_u32(&bytes[cells + 1..]) as usize;
    let rest = &bytes[cells + BOUND_AND_LENGTH..];
    if rest.len() < length {
        return None;
    }
    let parts = Parts {
        cells: &bytes[..cells],
        bound: bytes[cells],
        tree: &rest[..length],
    };
    Some((parts, &rest[length..]))
}
