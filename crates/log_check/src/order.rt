//! The order of a branch's children.

ghost use Rattle.std.specs.Prelude.{◌≡◌};
ghost use Rattle.log_check.specs.Refutations.{takes_back};

use puz_board::Move;

/// Whether a move takes back the arriving one.
pub(crate) fn takes_back(arriving: Option<Move>, mv: Move) -> bool
    ensures { result ≡ takes_back arriving mv }
{
    match arriving {
        Some(arriving) => arriving.reverse() == mv,
        None => false,
    }
}
