//! Logs of a refutation: of many lemmas, or of one.

ghost use Rattle.std.specs.Prelude.{◌≡◌, IfErr};
ghost use Rattle.puz_board.specs.Boards.{side_of};
ghost use Rattle.puz_make.specs.Faults.{IsLogFault};

use crate::board_table::BoardTable;
use crate::keys::Tiles;
use crate::lemmas::Lemmas;
use crate::limits::Limits;
use crate::log_bytes::LogBytes;
use crate::refuting::Refuter;
use crate::repeats::find_repeats;
use crate::sharing::tree_by;
use crate::trees::{Refutation, unmark};
use crate::writing::Writer;
use log_file::tree_bytes::BRANCH;
use log_file::{BOUND_AND_LENGTH, HEADER_LEN};
use puz_board::Board;
use set_sum::Bundle;
use std::alloc::Global;
use std::thread::Threads;
use tab_make::MakeFault;
use work_run::{Gate, Workers};

/// A tree has mostly more than so many bytes for each lemma of its log. Of more lemmas the last ones aren't cited.
const BYTES_OF_LEMMA: usize = 128;

/// The log that proves that no solution of a board has fewer moves than a bound, where that is so.
///
/// Its tree is cut off wherever the sum of a set, raised to the parity of the solutions, says what remains. The workers write it
/// together. It has many lemmas where the tree is large.
pub fn log_of<H: Threads + Sync, G: Gate + Sync>(
    bundle: &Bundle<'_>,
    board: &Board,
    bound: u8,
    workers: &Workers<'_, H, G>,
) -> Result<Vec<u8>, MakeFault>
    requires { side_of board.now ≡ bundle.now.side }
    ensures { IfErr result IsLogFault }
{
    log_within(bundle, board, bound, &Limits::USUAL, workers)
}

/// The log that `log_of` gives, within other limits. Where a log of many lemmas would be longer than that of one, or there isn't
/// the memory to write it, it has one lemma.
pub fn log_within<H: Threads + Sync, G: Gate + Sync>(
    bundle: &Bundle<'_>,
    board: &Board,
    bound: u8,
    limits: &Limits,
    workers: &Workers<'_, H, G>,
) -> Result<Vec<u8>, MakeFault>
    requires { side_of board.now ≡ bundle.now.side }
    ensures { IfErr result IsLogFault }
{
    let alloc = workers.alloc;
    let tree = tree_by(bundle, board, bound, limits.tree, workers)?;
    let mut refutation = Refutation {
        board: *board,
        bound,
        tree,
    };
    if refutation.tree.len() >= limits.one_lemma_below && refutation.tree.first() == Some(&BRANCH) {
        if let Ok(log) = log_of_many(alloc, bundle, &mut refutation, limits.lemmas) {
            return Ok(log);
        }
        unmark(&mut refutation.tree);
    }
    log_of_one(alloc, &refutation)
}

/// The log of a refutation in at most so many lemmas. The tree is marked afterwards.
fn log_of_many(
    alloc: Global,
    bundle: &Bundle<'_>,
    refutation: &mut Refutation,
    most: u32,
) -> Result<Vec<u8>, MakeFault>
    requires { side_of refutation.old.board ≡ bundle.now.side }
{
    let refuter = Refuter::new(alloc, bundle, &refutation.board);
    let repeats = find_repeats(alloc, refutation)?;
    let boards = (refutation.tree.len() / BYTES_OF_LEMMA).min(most as usize);
    let lemmas = Lemmas::new(
        LogBytes::new(alloc, refutation.board.side(), length_of_one(refutation))?,
        most,
        BoardTable::new(alloc, boards)?,
    );
    let writer = Writer::new(alloc, refutation, refuter, lemmas, repeats)?;
    writer.write(&refutation.tree)
}

/// How many bytes the log of one lemma has.
fn length_of_one(refutation: &Refutation) -> usize {
    let cells = usize::from(refutation.board.side().cells());
    refutation
        .tree
        .len()
        .saturating_add(HEADER_LEN + BOUND_AND_LENGTH + cells)
}

/// The log of a refutation in one lemma.
fn log_of_one(alloc: Global, refutation: &Refutation) -> Result<Vec<u8>, MakeFault>
    ensures { IfErr result IsLogFault }
{
    let tiles = Tiles::new(&refutation.board);
    let length = length_of_one(refutation);
    let mut log = LogBytes::new(alloc, refutation.board.side(), length)?;
    log.begin(&tiles, refutation.bound, refutation.tree.len())?;
    log.add(&refutation.tree)?;
    log.finish()
}
