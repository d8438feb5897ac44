//! What a step keeps of the board before it, by which it is taken back.

ghost use Rattle.std.specs.Prelude.{◌≡◌, ◌*◌, ◌<◌, ℕ, List, length, slice_set};
ghost use Rattle.edge_words.specs.Spots.{IsStepOf};
ghost use Rattle.puz_walk.specs.Pasts.{AreHeld, IsHeldOf};
ghost use Rattle.puz_walk.specs.WordSpots.{AreAllKept, AreKeptOf, HasPlaces};

use crate::word_bundles::WordBundle;
use crate::word_spots::{Kept, Slide};
use puz_board::Move;
use set_sum::MOST_SETS;

/// Of how many sets a step holds what is kept of them. In others the move is followed back.
const MOST_HELD: u8 = 2;

/// What is held of each of the first sets.
pub(crate) type AllHeld = [Held; 2];

/// What is kept of one member of a set: the one that a move of a tile changes.
#[derive(Clone, Copy)]
pub(crate) struct Held {
    place: u8,
    index: u32,
    word: u32,
}

/// What a step keeps of the board before it.
#[derive(Clone, Copy)]
pub(crate) struct Past {
    pub(crate) sums: [u8; MOST_SETS],
    pub(crate) held: AllHeld,
}

impl WordBundle<'_> {
    /// What a move of a tile changes of what is kept of a set.
    #[inline(always)]
    fn hold(&self, kept: &Kept, set: u8, tile: u8, mv: Move) -> Held
        requires set { set < length self.now.sets }
        requires tile { tile < self.now.side * self.now.side }
        requires room { HasPlaces kept.now }
        ensures { (b : List ℕ) → AreKeptOf self.now b kept.now set
            → IsHeldOf self.now b set tile result }
    {
        let place = self.seat(set, tile, mv).place;
        Held {
            place,
            index: kept.indexes[usize::from(place)],
            word: kept.words[usize::from(place)],
        }
    }
}

impl Kept {
    /// Puts back what is held.
    #[inline(always)]
    fn put(&mut self, held: Held)
        requires { HasPlaces self.old }
        ensures indexes { self.new.indexes ≡ slice_set self.old.indexes held.place held.index }
        ensures words { self.new.words ≡ slice_set self.old.words held.place held.word }
    {
        let place = usize::from(held.place);
        self.indexes[place] = held.index;
        self.words[place] = held.word;
    }
}

/// What is held of the first sets before a move of a tile. It is given how many sets there are.
#[inline(always)]
pub(crate) fn held_of(bundle: &WordBundle<'_>, kept: &Kept, slide: Slide, sets: u8) -> AllHeld
    requires sets { sets ≡ length bundle.now.sets }
    requires tile { slide.tile < bundle.now.side * bundle.now.side }
    requires room { HasPlaces kept.now }
    ensures { (b : List ℕ) → AreAllKept bundle.now b kept.now
        → AreHeld bundle.now b slide.tile result }
{
    let mut held = [Held {
        place: 0,
        index: 0,
        word: 0,
    }; 2];
    for set in 0..MOST_HELD {
        if set < sets {
            held[usize::from(set)] = bundle.hold(kept, set, slide.tile, slide.mv);
        }
    }
    held
}

/// What is kept of the members of all sets after a move of a tile by which a step is taken back. It is given how many sets there
/// are.
#[inline(always)]
pub(crate) fn put_back(
    bundle: &WordBundle<'_>,
    kept: &mut Kept,
    held: &AllHeld,
    slide: Slide,
    sets: u8,
)
    requires sets { sets ≡ length bundle.now.sets }
    requires room { HasPlaces kept.old }
    requires step { (b : List ℕ) × (next : List ℕ) × (from : ℕ) × (to : ℕ)
        × IsStepOf bundle.now.side slide.mv b next slide.tile from to
        × AreAllKept bundle.now b kept.old × AreHeld bundle.now next slide.tile held.now }
    ensures room { HasPlaces kept.new }
    ensures all { (b next : List ℕ) (from to : ℕ)
        → IsStepOf bundle.now.side slide.mv b next slide.tile from to
        → AreAllKept bundle.now b kept.old → AreHeld bundle.now next slide.tile held.now
        → AreAllKept bundle.now next kept.new }
{
    // Asked only for what its contract says.
    let _sets = bundle.sets();
    for set in 0..sets {
        if set < MOST_HELD {
            kept.put(held[usize::from(set)]);
        } else {
            bundle.follow(kept, set, slide.tile, slide.mv);
        }
    }
}
