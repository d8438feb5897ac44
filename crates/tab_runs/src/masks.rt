//! What a mask lacks.

ghost use Rattle.std.specs.Prelude.{◌≡◌, ℕ, ◌<◌, ◌≤◌, MatchOption};
ghost use Rattle.std.specs.Int.{bit_at};
ghost use Rattle.tab_runs.specs.Outside.{IsLastOutside};

use puz_board::masks::has_cell;

/// The greatest number below `count` that the mask lacks.
#[inline]
pub(crate) fn last_outside(mask: u32, count: u8) -> Option<u8>
    requires { count ≤ 32 }
    ensures { MatchOption result
        ((x : ℕ) → x < count → bit_at mask x ≡ 1)
        (IsLastOutside mask count) }
{
    let mut end = count;
    while end > 0 {
        if !has_cell(mask, end - 1) {
            return Some(end - 1);
        }
        end -= 1;
    }
    None
}
