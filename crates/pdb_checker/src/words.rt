//! Edge words of the tables of a bundle.

ghost use Rattle.std.specs.Prelude.{◌≡◌, IfOk, IfSome};
ghost use Rattle.set_sum.specs.Parts.{part_pattern};
ghost use Rattle.puz_walk.specs.Outlines.{CanHaveWords};
ghost use Rattle.puz_walk.specs.WordBundles.{HaveWords};

use edge_words::{WordRoom, Words, index_count};
use puz_walk::{Outline, WordBundle};
use set_sum::{Bundle, Part};
use std::alloc::{AllocError, Global};

/// The most tables of a bundle that has words.
const MOST_WORDED: u8 = 8;

/// The words of the tables of a bundle, with what a search over them needs of the bundle besides.
#[derive(Drop)]
pub(crate) struct Worded {
    pub(crate) outline: Box<Outline>,
    words: Vec<Words>,
    ghost have: { HaveWords outline.value words.items },
}

impl Worded {
    /// The words of all tables of a bundle, where there can be words of them and there is memory for these.
    pub(crate) fn of(alloc: Global, bundle: &Bundle<'_>) -> Option<Worded>
        ensures { IfSome result (λ worded. worded.outline.value ≡ bundle.now) }
    {
        let outline = boxed_outline(alloc, bundle)?;
        let words = all_words(alloc, bundle).ok()??;
        Some(Worded { outline, words })
    }

    /// The bundle with these words.
    pub(crate) fn bundle(&self) -> WordBundle<'_>
        ensures { result ≡ self.now.outline.value }
    {
        let Some(bundle) = WordBundle::of(self.outline.as_ref(), self.words.as_slice()) else {
            unreachable!();
        };
        bundle
    }
}

/// How many placements the tables of a bundle have together. None where they are too many for words, or where the pattern of one
/// has more indexes than there may be words.
pub(crate) fn placements(bundle: &Bundle<'_>) -> Option<u64> {
    if bundle.tables() > MOST_WORDED {
        return None;
    }
    let mut count: u64 = 0;
    for number in 0..bundle.tables() {
        let pattern = bundle.part(number).pattern();
        index_count(&pattern)?;
        count = count.saturating_add(pattern.count());
    }
    Some(count)
}

/// The outline of a bundle, where there is one, and memory for it.
#[inline(never)] // so that no search has the room for it on the stack
fn boxed_outline(alloc: Global, bundle: &Bundle<'_>) -> Option<Box<Outline>>
    ensures { IfSome result (λ outline. (outline.value ≡ bundle.now) × CanHaveWords bundle.now) }
{
    let outline = Outline::of(bundle)?;
    Box::new(alloc, outline).ok()
}

/// The words of each table of a bundle, where there is memory for them.
fn all_words(alloc: Global, bundle: &Bundle<'_>) -> Result<Option<Vec<Words>>, AllocError>
    requires { CanHaveWords bundle.now }
    ensures { IfOk result (λ found. IfSome found (λ words. HaveWords bundle.now words.items)) }
{
    let mut all = Vec::new(alloc);
    for number in 0..bundle.tables() {
        let Some(words) = words_of(alloc, bundle.part(number)) else {
            return Ok(None);
        };
        all.push(words)?;
    }
    Ok(Some(all))
}

/// The words of a table, where it is full, there can be words of it and there is memory for these.
fn words_of(alloc: Global, part: &Part<'_>) -> Option<Words>
    ensures { IfSome result (λ words. words.pattern ≡ part_pattern part.now) }
{
    let Part::Full(table) = part else {
        return None;
    };
    let room = WordRoom::of(alloc, &table.pattern()).ok()??;
    Some(room.fill_alone(table))
}
