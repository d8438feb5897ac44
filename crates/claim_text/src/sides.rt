//! Claims on boards of another side.

ghost use Rattle.std.specs.Prelude.{◌≡◌, IfNone, IfSome, map};
ghost use Rattle.std.specs.List.{AllByRecursion};
ghost use Rattle.puz_board.specs.Boards.{side_of};
ghost use Rattle.claim_text.specs.Shown.{claim_shown};
ghost use Rattle.claim_text.specs.Texts.{AreClaims, IsFirstOfAnotherSide};

use crate::claims::Claim;
use crate::cuts::split_line;
use crate::texts::is_remark;
use puz_board::Side;

/// The number of the first line of a text whose claim has a board of another side. The text has these claims.
pub fn first_of_another_side(text: &[u8], claims: &[Claim<'_>], side: Side) -> Option<u32>
    requires { AreClaims text.now (map claim_shown claims.now) }
    ensures none { let shown = map claim_shown claims.now in
        IfNone result (AllByRecursion (λ claim. side_of claim.board ≡ side) shown) }
    ensures some { IfSome result (IsFirstOfAnotherSide text.now side) }
{
    let mut number = 0;
    let mut index = 0;
    let mut rest = text;
    while let Some((line, behind)) = split_line(rest) {
        if !is_remark(line) {
            if claims[index].board.side() != side {
                return Some(number);
            }
            index += 1;
        }
        number += 1;
        rest = behind;
    }
    None
}
