//! The lemmas of a log, and the boards that they can be cited for.

use crate::board_table::BoardTable;
use crate::keys::Tiles;
use crate::log_bytes::LogBytes;
use log_file::tree_bytes::CITATION_LEN;
use tab_make::MakeFault;

/// The lemmas of a log, as far as they are written.
#[derive(Drop)]
pub(crate) struct Lemmas {
    /// The most lemmas of the log.
    most: u32,
    pub(crate) log: LogBytes,
    /// The boards that they may be cited for, with the numbers of their last lemmas.
    boards: BoardTable,
}

impl Lemmas {
    /// No lemmas as yet, of at most so many.
    pub(crate) fn new(log: LogBytes, most: u32, boards: BoardTable) -> Lemmas {
        Lemmas { most, log, boards }
    }

    /// Whether there is room for the last lemma alone.
    pub(crate) fn is_full(&self) -> bool {
        self.log.count().saturating_add(1) >= self.most as usize
    }

    /// How many bytes a lemma adds to the log besides its tree: those before the tree, and the citation in its place.
    pub(crate) fn cost(&self) -> usize {
        self.log.front_len().saturating_add(CITATION_LEN)
    }

    /// The number of a lemma that may be cited for a board from which so many moves are to be refuted.
    pub(crate) fn citable(&self, tiles: &Tiles, remaining: u8) -> Option<u32> {
        let number = self.boards.number_of(tiles.key, remaining)?;
        // Two boards may have one key.
        if self.log.is_of(number, tiles) {
            Some(number)
        } else {
            None
        }
    }

    /// Begins a lemma, up to its tree, which has so many bytes. Answers its number.
    pub(crate) fn begin(
        &mut self,
        tiles: &Tiles,
        bound: u8,
        length: usize,
    ) -> Result<u32, MakeFault> {
        let number = self.log.begin(tiles, bound, length)?;
        self.boards.put(tiles.key, number, bound);
        Ok(number)
    }
}
