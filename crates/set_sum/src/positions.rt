//! Boards that are moved in place, with the cells of their numbers.

ghost use Rattle.std.specs.Prelude.{◌≡◌, ℕ, ◌*◌, ◌<◌, ◌≤◌, ◌↔◌, IsTrue, length};
ghost use Rattle.puz_board.specs.Boards.{IsBoardOf, IsGoal, at, blank, side_of, slid};
ghost use Rattle.puz_board.specs.Cells.{Adjacent, step_of};
ghost use Rattle.puz_board.specs.Parity.{blank_parity};
ghost use Rattle.tab_file.specs.EntryBytes.{greatest_count};
ghost use Rattle.tab_rule.specs.declared.tables.Count.TheVariants.{Finite};
ghost use Rattle.set_sum.specs.Known.{said_by};
ghost use Rattle.set_sum.specs.Members.{MemberSays};

use crate::bundles::{Bundle, MOST_CELLS};
use crate::cells::{cell_after, has_numbers, is_in_order, numbers_of, parity_of};
use crate::known::entry_of;
use crate::members::Member;
use crate::tables::mirrored;
use puz_board::{Board, Move};
use std::marker::Model;
use tab_rule::Count;

/// A board of which the members of a bundle are asked, and which is moved in place.
#[derive(Drop)]
pub struct Position<'a> {
    bundle: &'a Bundle<'a>,
    /// The number in each cell.
    numbers: [u8; MOST_CELLS],
    /// The cell of each number.
    cells: [u8; MOST_CELLS],
    /// The same on the transposed board.
    transposed: [u8; MOST_CELLS],
}

impl<'a> Model for Position<'a> {
    ghost use Rattle.set_sum.specs.ShownSums.{ShownSums};

    ghost Value = { ShownSums };

    ghost use Rattle.set_sum.specs.StoredPositions.{IsStoredPosition, position_shown};

    ghost view = { position_shown };

    ghost invariant = { IsStoredPosition };
}

impl<'a> Position<'a> {
    /// The position of a board.
    pub fn new(bundle: &'a Bundle<'a>, board: &Board) -> Position<'a>
        requires { side_of board.now ≡ bundle.now.side }
        ensures { result ≡ record { bundle = bundle.now; board = board.now } }
    {
        let cells = board.cells_of_all();
        Position {
            bundle,
            numbers: numbers_of(board),
            cells,
            transposed: mirrored(board.side(), &cells),
        }
    }

    /// The bundle whose members are asked.
    #[inline]
    pub fn bundle(&self) -> &'a Bundle<'a>
        ensures { result.now ≡ self.now.bundle }
    {
        self.bundle
    }

    /// Whether the board is the goal board.
    pub fn is_goal(&self) -> bool
        ensures { IsTrue result ↔ IsGoal self.now.board }
    {
        is_in_order(self.numbers())
    }

    /// The parity of how many rows and columns lie between the blank's cell and cell 0: 0 or 1.
    pub fn blank_parity(&self) -> u8
        ensures parity { result ≡ blank_parity self.now.board }
        ensures bit { result ≤ 1 }
    {
        parity_of(self.bundle.side(), self.cells[0])
    }

    /// Whether this is the board.
    pub(crate) fn is_board(&self, board: &Board) -> bool
        requires { IsBoardOf self.now.bundle.side board.now }
        ensures { IsTrue result ↔ (board.now ≡ self.now.board) }
    {
        has_numbers(board, self.numbers())
    }

    /// The numbers in the cells, in the order of the cells.
    fn numbers(&self) -> &[u8]
        ensures numbers { result.now ≡ self.now.board }
        ensures board { IsBoardOf self.now.bundle.side self.now.board }
    {
        &self.numbers[..usize::from(self.bundle.side().cells())]
    }

    /// The blank's cell.
    #[inline]
    pub fn blank(&self) -> u8
        ensures cell { result ≡ blank self.now.board }
        ensures board { IsBoardOf self.now.bundle.side self.now.board }
    {
        self.cells[0]
    }

    /// The cell to which a move leads the blank, where it stays on the board.
    #[inline]
    pub fn after(&self, mv: Move) -> Option<u8>
        ensures { result ≡ step_of self.now.bundle.side (blank self.now.board) mv }
    {
        cell_after(self.bundle.side(), self.cells[0], mv)
    }

    /// Moves the blank to a cell beside its own, and the tile there into its own. The answer is the tile.
    #[inline]
    pub fn slide(&mut self, to: u8) -> u8
        requires { Adjacent self.old.bundle.side (blank self.old.board) to }
        ensures board { self.new
            ≡ record { bundle = self.old.bundle; board = slid self.old.board to } }
        ensures tile { result ≡ at self.old.board to }
        ensures below { result < self.old.bundle.side * self.old.bundle.side }
    {
        let bundle = self.bundle;
        let from = self.cells[0];
        let tile = self.numbers[usize::from(to)];
        self.numbers[usize::from(from)] = tile;
        self.numbers[usize::from(to)] = 0;
        self.cells[usize::from(tile)] = from;
        self.cells[0] = to;
        self.transposed[usize::from(bundle.transposed(tile))] = bundle.transposed(from);
        self.transposed[0] = bundle.transposed(to);
        tile
    }

    /// What a member says of the board, as an entry of its table says it: 255 for never, and else the number.
    #[inline]
    pub fn entry(&self, member: Member) -> u8
        requires { member.table < length self.now.bundle.tables }
        ensures { MemberSays self.now.bundle.tables member self.now.board (said_by result) }
    {
        entry_of(self.look(member))
    }

    /// What the table of a member tells of the board.
    #[inline]
    fn look(&self, member: Member) -> Count
        requires { member.table < length self.now.bundle.tables }
        ensures says { MemberSays self.now.bundle.tables member self.now.board result }
        ensures few { (d : ℕ) → result ≡ Finite d → d ≤ greatest_count }
    {
        let cells = if member.is_transposed {
            &self.transposed
        } else {
            &self.cells
        };
        self.bundle.part(member.table).look_in(cells)
    }
}
