//! Cells with rows and columns exchanged.

ghost use Rattle.std.specs.Prelude.{◌≡◌, ◌*◌, ◌<◌};
ghost use Rattle.puz_board.specs.Transposing.{transposed_cell};

use crate::sides::Side;

/// The cell whose row is the column of this one, and whose column is its row.
#[inline]
pub fn transposed_cell(side: Side, cell: u8) -> u8
    requires { cell < side * side }
    ensures value { result ≡ transposed_cell side cell }
    ensures within { result < side * side }
{
    let n = side.get();
    cell % n * n + cell / n
}
