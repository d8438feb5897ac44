//! The cells beside a cell, as a mask.

ghost use Rattle.std.specs.Prelude.{◌≡◌, ℕ, ◌*◌, ◌<◌, ◌⊎◌, ◌↔◌, Some};
ghost use Rattle.std.specs.Int.{bit_at};
ghost use Rattle.puz_board.specs.Masks.{IsMaskOf};
ghost use Rattle.puz_board.specs.Cells.{Adjacent, step_of};
ghost use Rattle.tab_runs.specs.Beside.{AreBesideAll};

use puz_board::{Move, Side, masks, step};

/// The mask, and the cell to which a move leads.
#[inline]
fn with_step(mask: u32, side: Side, cell: u8, mv: Move) -> u32
    requires { cell < side * side }
    ensures { (x : ℕ) → (bit_at result x ≡ 1)
        ↔ ((bit_at mask x ≡ 1) ⊎ (step_of side cell mv ≡ Some x)) }
{
    match step(side, cell, mv) {
        Some(to) => masks::with(mask, to),
        None => mask,
    }
}

/// The cells beside a cell.
fn beside(side: Side, cell: u8) -> u32
    requires { cell < side * side }
    ensures { IsMaskOf result (Adjacent side cell) }
{
    // Asked only for what its contract says.
    let _n = side.get();
    let up = with_step(0, side, cell, Move::Up);
    let down = with_step(up, side, cell, Move::Down);
    let left = with_step(down, side, cell, Move::Left);
    with_step(left, side, cell, Move::Right)
}

/// The cells beside each cell.
pub(crate) fn beside_all(side: Side) -> [u32; 25]
    ensures { AreBesideAll side result }
{
    let mut masks = [0; 25];
    for cell in 0..side.cells() {
        masks[usize::from(cell)] = beside(side, cell);
    }
    masks
}
