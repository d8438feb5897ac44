//! What all parts of a search share.

ghost use Rattle.std.specs.Prelude.{◌≤◌};
ghost use Rattle.puz_board.specs.Boards.{IsBoardOf};
ghost use Rattle.move_strings.specs.Automata.{IsState};

use crate::guides::Guide;
use crate::prefixes::Prefix;
use puz_walk::Start;

/// A search for a solution of a board of fewer moves than a bound.
#[derive(Drop)]
pub(crate) struct Search<'a> {
    pub(crate) guide: &'a Guide<'a>,
    /// The first board.
    pub(crate) start: &'a Start,
    pub(crate) bound: u8,
    /// Which moves are searched.
    pub(crate) prefix: Prefix,
    ghost first_state: { IsState guide.now.steps 0 },
    ghost one_side: { IsBoardOf guide.now.bundle.side start.now.board },
    ghost small: { bound ≤ 255 },
}
