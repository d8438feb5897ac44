//! Boards that are out of reach.

use crate::bundles::over_one;
use crate::finding::board_of;
use crate::korf_board;
use crate::same::same;
use puz_board::is_solvable;
use puz_make::is_out_of_reach;
use test_samples::files::TILE_1;

/// Loyd's board, whose tiles 14 and 15 are exchanged: it has no solution (Johnson and Story 1879).
const LOYDS_BOARD: [u8; 16] = [0, 1, 2, 3, 4, 5, 6, 7, 8, 9, 10, 11, 12, 13, 15, 14];

#[test]
fn boards_without_a_solution_are_out_of_reach(rt: HostRuntime) {
    let one = over_one(&rt, &TILE_1);
    let board = board_of(&rt, &[0, 1, 3, 2]);
    assert!(rt; board.side() == one.side());
    same(&rt, &is_out_of_reach(&one, &board), &true);
    same(&rt, &is_solvable(&board_of(&rt, &LOYDS_BOARD)), &false);
    same(&rt, &is_solvable(&board_of(&rt, &korf_board::BOARD)), &true);
}
