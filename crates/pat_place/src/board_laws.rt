//! Laws of the placements of boards. Each function here says what holds of every board, and does nothing.

ghost use Rattle.pat_place.specs.BoardLaws.{EachPlacementIsOfABoard, BlankCellsAreFree, OtherTilesKeepThePlacement, EachTileMovesAlone};

/// Each placement and each of its free cells are those of a board and its blank.
pub fn each_placement_is_of_a_board()
    ensures { EachPlacementIsOfABoard }
{}

/// The blank's cell is free.
pub fn blank_cells_are_free()
    ensures { BlankCellsAreFree }
{}

/// A step that moves no tile of the pattern keeps the placement.
pub fn other_tiles_keep_the_placement()
    ensures { OtherTilesKeepThePlacement }
{}

/// A step that moves a tile of the pattern moves that one tile, to the cell where the blank was.
pub fn each_tile_moves_alone()
    ensures { EachTileMovesAlone }
{}
