//! Where a walk stands: the board, and for each set its sum, and the indexes and words of its members.

ghost use Rattle.std.specs.Prelude.{◌≡◌, ◌*◌, ◌+◌, ◌<◌, if◌then◌else◌, ℕ, IfNone, IfSome, List, length, slice_index, slice_set, take};
ghost use Rattle.puz_board.specs.Boards.{IsBoardOf, at, side_of};
ghost use Rattle.set_sum.specs.Bundles.{IsBundle};
ghost use Rattle.edge_words.specs.Spots.{IsStepOf};
ghost use Rattle.puz_walk.specs.Cuts.{AreBelow, GoesBeyond};
ghost use Rattle.puz_walk.specs.Pasts.{IsPastOf};
ghost use Rattle.puz_walk.specs.Starts.{AreSumsOn};
ghost use Rattle.puz_walk.specs.WordBundles.{pattern_at};
ghost use Rattle.puz_walk.specs.WordSpots.{AreAllKept, AreKept, AreKeptOf, HasPlaces, IsFoundOn, IsSlideTo, IsSpotOf, member_place};

use crate::pasts::{Past, put_back};
use crate::word_bundles::WordBundle;
use puz_board::{Board, Move};
use set_sum::{MOST_SETS, Member};

/// How many places there are for members: 16 for each of 16 sets.
pub(crate) const MOST_PLACES: usize = 256;

/// What is kept of the members of all sets. Each set has two places for each table, the first for the plain member.
#[derive(Drop)]
pub(crate) struct Kept {
    /// The index of the placement that each looks up.
    pub(crate) indexes: [u32; MOST_PLACES],
    /// The word with this index.
    pub(crate) words: [u32; MOST_PLACES],
}

/// A board, and for each set its sum and what is kept of its members.
#[derive(Drop)]
pub(crate) struct Spot {
    /// The number in each cell.
    pub(crate) numbers: [u8; 25],
    /// The blank's cell.
    pub(crate) blank: u8,
    pub(crate) sums: [u8; MOST_SETS],
    pub(crate) kept: Kept,
}

/// A move of a tile.
#[derive(Clone, Copy)]
pub(crate) struct Slide {
    pub(crate) mv: Move,
    pub(crate) tile: u8,
    /// The cell where the tile is before the move, and the blank after it.
    pub(crate) to: u8,
}

/// Where the index and the word of a member of a set are kept.
#[inline]
pub(crate) fn member_place(set: u8, member: Member) -> usize
    requires { member.table < 8 }
    ensures { result ≡ member_place set member }
{
    16 * usize::from(set) + 2 * usize::from(member.table) + usize::from(member.is_transposed)
}

/// The sums after a move of a tile, where each is below a limit. It is given how many sets there are.
#[inline(always)]
pub(crate) fn judge(
    bundle: &WordBundle<'_>,
    spot: &Spot,
    slide: Slide,
    limit: u8,
    sets: u8,
) -> Option<[u8; MOST_SETS]>
    requires sets { sets ≡ length bundle.now.sets }
    requires small { (set : ℕ) → set < length bundle.now.sets
        → slice_index spot.now.sums set < 255 }
    requires step { (b : List ℕ) × (next : List ℕ) × (from : ℕ) × (to : ℕ)
        × IsStepOf bundle.now.side slide.mv b next slide.tile from to
        × AreKept bundle.now b spot.now.sums spot.now.kept }
    ensures some { IfSome result (λ sums. (b next : List ℕ) (from to : ℕ)
        → IsStepOf bundle.now.side slide.mv b next slide.tile from to
        → AreKept bundle.now b spot.now.sums spot.now.kept
        → AreSumsOn bundle.now next sums × AreBelow bundle.now next limit) }
    ensures none { IfNone result ((b next : List ℕ) (from to : ℕ)
        → IsStepOf bundle.now.side slide.mv b next slide.tile from to
        → AreKept bundle.now b spot.now.sums spot.now.kept
        → GoesBeyond bundle.now next limit) }
{
    // Asked only for what its contract says.
    let _sets = bundle.sets();
    let mut sums = [0; MOST_SETS];
    let mut is_below = true;
    for set in 0..sets {
        let sum = bundle.sum_after(spot, set, slide.tile, slide.mv);
        sums[usize::from(set)] = sum;
        is_below &= sum < limit;
    }
    if is_below { Some(sums) } else { None }
}

/// Moves the blank, and the tile into its cell. It is given the sums after the move, and how many sets there are.
#[inline(always)]
pub(crate) fn move_blank(
    bundle: &WordBundle<'_>,
    spot: &mut Spot,
    slide: Slide,
    sums: [u8; MOST_SETS],
    sets: u8,
)
    requires sets { sets ≡ length bundle.now.sets }
    requires slides { (b : List ℕ) × (next : List ℕ) × IsSlideTo bundle.now slide.mv b next slide.to
        × (slide.tile ≡ at b slide.to) × IsSpotOf bundle.now b spot.old
        × AreSumsOn bundle.now next sums }
    ensures { (b next : List ℕ) → IsSlideTo bundle.now slide.mv b next slide.to
        → slide.tile ≡ at b slide.to → IsSpotOf bundle.now b spot.old
        → AreSumsOn bundle.now next sums → IsSpotOf bundle.now next spot.new }
{
    // Asked only for what its contract says.
    let _sets = bundle.sets();
    exchange(&mut spot.numbers, spot.blank, slide);
    spot.blank = slide.to;
    spot.sums = sums;
    follow_sets(bundle, &mut spot.kept, slide, sets);
}

/// Moves the blank back, and the tile into its cell. It is given what a step has kept of the board that it came from, and how
/// many sets there are.
#[inline(always)]
pub(crate) fn move_back(
    bundle: &WordBundle<'_>,
    spot: &mut Spot,
    slide: Slide,
    past: &Past,
    sets: u8,
)
    requires sets { sets ≡ length bundle.now.sets }
    requires slides { (b : List ℕ) × (next : List ℕ) × IsSlideTo bundle.now slide.mv b next slide.to
        × (slide.tile ≡ at b slide.to) × IsSpotOf bundle.now b spot.old
        × IsPastOf bundle.now next slide.tile past.now }
    ensures { (b next : List ℕ) → IsSlideTo bundle.now slide.mv b next slide.to
        → slide.tile ≡ at b slide.to → IsSpotOf bundle.now b spot.old
        → IsPastOf bundle.now next slide.tile past.now → IsSpotOf bundle.now next spot.new }
{
    // Asked only for what its contract says.
    let _sets = bundle.sets();
    exchange(&mut spot.numbers, spot.blank, slide);
    spot.blank = slide.to;
    spot.sums = past.sums;
    put_back(bundle, &mut spot.kept, &past.held, slide, sets);
}

/// The numbers after a move of a tile into the blank's cell.
#[inline(always)]
fn exchange(numbers: &mut [u8; 25], blank: u8, slide: Slide)
    requires blank { blank < 25 }
    requires to { slide.to < 25 }
    requires room { length numbers.old ≡ 25 }
    ensures { numbers.new ≡ slice_set (slice_set numbers.old blank slide.tile) slide.to 0 }
{
    numbers[usize::from(blank)] = slide.tile;
    numbers[usize::from(slide.to)] = 0;
}

/// What is kept of the members of all sets after a move of a tile. It is given how many sets there are.
#[inline(always)]
fn follow_sets(bundle: &WordBundle<'_>, kept: &mut Kept, slide: Slide, sets: u8)
    requires sets { sets ≡ length bundle.now.sets }
    requires room { HasPlaces kept.old }
    requires step { (b : List ℕ) × (next : List ℕ) × (from : ℕ) × (to : ℕ)
        × IsStepOf bundle.now.side slide.mv b next slide.tile from to
        × AreAllKept bundle.now b kept.old }
    ensures room { HasPlaces kept.new }
    ensures all { (b next : List ℕ) (from to : ℕ)
        → IsStepOf bundle.now.side slide.mv b next slide.tile from to
        → AreAllKept bundle.now b kept.old → AreAllKept bundle.now next kept.new }
{
    for set in 0..sets {
        bundle.follow(kept, set, slide.tile, slide.mv);
    }
}

/// The spot of a board with these sums, where none is above a limit.
pub(crate) fn spot_of(
    bundle: &WordBundle<'_>,
    board: &Board,
    sums: &[u8; MOST_SETS],
    most: u8,
) -> Option<Spot>
    requires side { side_of board.now ≡ bundle.now.side }
    requires sums { AreSumsOn bundle.now board.now sums.now }
    ensures some { IfSome result (λ spot. IsSpotOf bundle.now board.now spot
        × AreBelow bundle.now board.now (most + 1)) }
    ensures none { IfNone result (GoesBeyond bundle.now board.now (most + 1)) }
{
    // Asked only for what its contract says.
    let _side = board.side();
    for set in 0..bundle.sets() {
        if sums[usize::from(set)] > most {
            return None;
        }
    }
    Some(Spot {
        numbers: numbers_of(board),
        blank: board.blank(),
        sums: *sums,
        kept: kept_of(bundle, board),
    })
}

/// The numbers of a board. Zeros stand behind them.
fn numbers_of(board: &Board) -> [u8; 25]
    ensures room { length result ≡ 25 }
    ensures numbers { take (length board.now) result ≡ board.now }
{
    let mut numbers = [0; 25];
    for cell in 0..board.side().cells() {
        numbers[usize::from(cell)] = board.at(cell);
    }
    numbers
}

/// What is kept of the members of all sets on a board.
fn kept_of(bundle: &WordBundle<'_>, board: &Board) -> Kept
    requires { side_of board.now ≡ bundle.now.side }
    ensures room { HasPlaces result }
    ensures each { (set : ℕ) → set < length bundle.now.sets
        → AreKeptOf bundle.now board.now result set }
{
    let turned = board.transposed();
    let mut kept = Kept {
        indexes: [0; MOST_PLACES],
        words: [0; MOST_PLACES],
    };
    for place in 0..16 * usize::from(bundle.sets()) {
        let looked_up = chosen(board, &turned, place % 2 == 1);
        let (index, word) = found_for(bundle, place % 16 / 2, &looked_up);
        kept.indexes[place] = index;
        kept.words[place] = word;
    }
    kept
}

/// The board, or the transposed one.
fn chosen(board: &Board, turned: &Board, is_transposed: bool) -> Board
    requires { side_of turned.now ≡ side_of board.now }
    ensures board { result ≡ (if is_transposed then turned.now else board.now) }
    ensures side { side_of result ≡ side_of board.now }
{
    if is_transposed { *turned } else { *board }
}

/// The index of a board in a table's words, and its word, where there is the table.
fn found_for(bundle: &WordBundle<'_>, table: usize, board: &Board) -> (u32, u32)
    requires { side_of board.now ≡ bundle.now.side }
    ensures { table < length bundle.now.tables
        → IsFoundOn (pattern_at bundle.now table) board.now result.0 result.1 }
{
    let words = bundle.words;
    let _side = board.side();
    if table < words.len() {
        let words = &words[table];
        let index = words.index_of(board);
        (index, words.word(index))
    } else {
        (0, 0)
    }
}
