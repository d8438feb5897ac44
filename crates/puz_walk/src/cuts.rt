//! Where a search need not go on.

ghost use Rattle.std.specs.Prelude.{◌≡◌, ℕ, ◌+◌, ◌<◌, ◌≤◌, IfNone, IfSome, MatchOption, length, slice_index};
ghost use Rattle.puz_board.specs.Boards.{side_of};
ghost use Rattle.tab_rule.specs.declared.tables.Count.TheVariants.{Finite};
ghost use Rattle.set_sum.specs.Bounds.{CountReaches};
ghost use Rattle.set_sum.specs.Bundles.{BundleSays};
ghost use Rattle.puz_walk.specs.Cuts.{GoesBeyond, margin_of};

use puz_board::Board;
use set_sum::{Bundle, MOST_SETS};
use tab_rule::Count;

/// How far each sum must be below a bound, where the blank's parity is this one: the raised sums are below the bound then.
pub(crate) fn margin_of(bound: u8, parity: u8) -> u8
    ensures { result ≡ margin_of bound parity }
{
    if bound % 2 == parity { 2 } else { 1 }
}

/// The sums of a board, where none is above a limit.
pub(crate) fn sums_of(bundle: &Bundle<'_>, board: &Board, most: u8) -> Option<[u8; MOST_SETS]>
    requires { side_of board.now ≡ bundle.now.side }
    ensures room { IfSome result (λ sums. length sums ≡ 16) }
    ensures some { IfSome result (λ sums. (set : ℕ) → set < length bundle.now.sets
        → BundleSays bundle.now set board.now (Finite (slice_index sums set))
        × (slice_index sums set ≤ most)) }
    ensures none { IfNone result (GoesBeyond bundle.now board.now (most + 1)) }
{
    let mut sums = [0; MOST_SETS];
    for set in 0..bundle.sets() {
        sums[usize::from(set)] = upto(bundle.sum(set, board), most)?;
    }
    Some(sums)
}

/// A finite count that isn't above a limit.
fn upto(count: Count, most: u8) -> Option<u8>
    ensures { MatchOption result
        (CountReaches count (most + 1))
        (λ sum. (count ≡ Finite sum) × (sum ≤ most)) }
{
    match count {
        Count::Finite(sum) => if sum <= u16::from(most) {
            Some(sum as u8)
        } else {
            None
        },
        Count::Never => None,
    }
}
