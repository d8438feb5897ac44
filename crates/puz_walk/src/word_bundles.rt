//! Bundles whose tables have edge words.

ghost use Rattle.std.specs.Prelude.{◌≡◌, ◌≢◌, ◌*◌, ◌<◌, ◌≤◌, ◌↔◌, ℕ, IfNone, IfSome, IsTrue, List, length, slice_index};
ghost use Rattle.puz_board.specs.Cells.{step_of};
ghost use Rattle.puz_board.specs.Masks.{numbers_of};
ghost use Rattle.edge_words.specs.Spots.{IsStepOf};
ghost use Rattle.edge_words.specs.Words.{ShownWords};
ghost use Rattle.set_sum.specs.Bundles.{BundleSays, IsBundle};
ghost use Rattle.tab_rule.specs.declared.tables.Count.TheVariants.{Finite};
ghost use Rattle.puz_walk.specs.Seats.{IsSeatOf};
ghost use Rattle.puz_walk.specs.WordBundles.{HaveWords, most_worded};
ghost use Rattle.puz_walk.specs.WordSpots.{AreKept, AreKeptOf, HasPlaces};

use crate::outlines::Outline;
use crate::seats::Seat;
use crate::word_spots::{Kept, Spot};
use edge_words::{Words, raises};
use pat_place::Pattern;
use puz_board::{Move, Side};
use std::marker::Model;

/// A bundle each table of which has edge words.
#[derive(Drop)]
pub struct WordBundle<'a> {
    outline: &'a Outline,
    pub(crate) words: &'a [Words],
}

impl<'a> Model for WordBundle<'a> {
    ghost use Rattle.set_sum.specs.Bundles.{ShownBundle};

    ghost Value = { ShownBundle };

    ghost view = { λ w. w.outline.now };

    ghost use Rattle.puz_walk.specs.StoredWordBundles.{IsStoredWordBundle};

    ghost invariant = { IsStoredWordBundle };
}

impl<'a> WordBundle<'a> {
    /// The bundle with this outline and the words of each of its tables. There is none where there aren't as many words as
    /// tables, or where the words with a table's number aren't those of its pattern.
    pub fn of(outline: &'a Outline, words: &'a [Words]) -> Option<WordBundle<'a>>
        ensures some { IfSome result
            (λ made. (made ≡ outline.now) × HaveWords outline.now words.now) }
        ensures none { IfNone result (¬ HaveWords outline.now words.now) }
    {
        // Asked only for what its contract says.
        let _side = outline.side();
        if !have_words(outline, words) {
            return None;
        }
        Some(WordBundle { outline, words })
    }

    /// The side of the boards.
    pub fn side(&self) -> Side
        ensures side { result ≡ self.now.side }
        ensures bundle { IsBundle self.now }
    {
        self.outline.side()
    }

    /// How many sets there are.
    #[inline]
    pub fn sets(&self) -> u8
        ensures sets { result ≡ length self.now.sets }
        ensures bundle { IsBundle self.now }
        ensures few { length self.now.tables ≤ most_worded }
        ensures words { (words : List ShownWords) × HaveWords self.now words }
    {
        self.outline.sets()
    }

    /// The cell to which a move leads, where the blank stays on the board.
    #[inline]
    pub(crate) fn after(&self, cell: u8, mv: Move) -> Option<u8>
        requires { cell < self.now.side * self.now.side }
        ensures { result ≡ step_of self.now.side cell mv }
    {
        self.outline.after(cell, mv)
    }

    /// The seat of a tile in a set for a move.
    #[inline(always)]
    pub(crate) fn seat(&self, set: u8, tile: u8, mv: Move) -> Seat
        requires set { set < length self.now.sets }
        requires tile { tile < self.now.side * self.now.side }
        ensures seat { IsSeatOf self.now set tile mv result }
        ensures bundle { IsBundle self.now }
        ensures words { (words : List ShownWords) × HaveWords self.now words }
    {
        self.outline.seat(set, tile, mv)
    }

    /// The sum of a set after a move of a tile. No jump is taken for a rise or a fall.
    #[inline(always)]
    pub(crate) fn sum_after(&self, spot: &Spot, set: u8, tile: u8, mv: Move) -> u8
        requires set { set < length self.now.sets }
        requires small { slice_index spot.now.sums set < 255 }
        requires step { (b : List ℕ) × (next : List ℕ) × (from : ℕ) × (to : ℕ)
            × IsStepOf self.now.side mv b next tile from to
            × AreKept self.now b spot.now.sums spot.now.kept }
        ensures { (b next : List ℕ) (from to : ℕ)
            → IsStepOf self.now.side mv b next tile from to
            → AreKept self.now b spot.now.sums spot.now.kept
            → BundleSays self.now set next (Finite result) }
    {
        let seat = self.seat(set, tile, mv);
        let word = spot.kept.words[usize::from(seat.place)];
        let rises = u8::from(raises(word, seat.bit)) & seat.owners;
        let falls = seat.owners - rises;
        spot.sums[usize::from(set)] + rises - falls
    }

    /// What is kept of a set's members after a move of a tile.
    #[inline(always)]
    pub(crate) fn follow(&self, kept: &mut Kept, set: u8, tile: u8, mv: Move)
        requires set { set < length self.now.sets }
        requires room { HasPlaces kept.old }
        requires step { (b : List ℕ) × (next : List ℕ) × (from : ℕ) × (to : ℕ)
            × IsStepOf self.now.side mv b next tile from to
            × AreKeptOf self.now b kept.old set }
        ensures room { HasPlaces kept.new }
        ensures each { (b next : List ℕ) (from to : ℕ)
            → IsStepOf self.now.side mv b next tile from to
            → AreKeptOf self.now b kept.old set
            → AreKeptOf self.now next kept.new set }
        ensures others { (other : ℕ) (b : List ℕ) → other < length self.now.sets → other ≢ set
            → AreKeptOf self.now b kept.old other
            → AreKeptOf self.now b kept.new other }
    {
        let words = self.words;
        let seat = self.seat(set, tile, mv);
        let (table, place) = (usize::from(seat.table), usize::from(seat.place));
        if table < words.len() {
            let index = kept.indexes[place].wrapping_add(seat.step);
            kept.indexes[place] = index;
            kept.words[place] = words[table].word(index);
        }
    }
}

/// Whether each table of a bundle has its words.
fn have_words(outline: &Outline, words: &[Words]) -> bool
    ensures { IsTrue result ↔ HaveWords outline.now words.now }
{
    let (side, tables) = (outline.side(), outline.tables());
    if words.len() != tables {
        return false;
    }
    for table in 0..tables {
        if !is_of(&words[table].pattern(), side, outline.mask(table)) {
            return false;
        }
    }
    true
}

/// Whether a pattern is the one of this side whose tiles are the numbers of a mask.
fn is_of(pattern: &Pattern, side: Side, mask: u32) -> bool
    ensures { IsTrue result
        ↔ (pattern.now ≡ record { side = side; tiles = numbers_of mask }) }
{
    pattern.side().get() == side.get() && pattern.mask() == mask
}
