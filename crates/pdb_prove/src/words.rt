//! The edge words of the tables of a bundle, for which all memory is taken before the first is made.

ghost use Rattle.std.specs.Prelude.{◌≡◌, IfOk, IfSome, false};
ghost use Rattle.tab_file.specs.Tables.{Table};
ghost use Rattle.tab_rule.specs.ExactTables.{IsExactFile};
ghost use Rattle.set_sum.specs.Bundles.{ShownBundle};
ghost use Rattle.puz_walk.specs.Outlines.{CanHaveWords};
ghost use Rattle.puz_walk.specs.WordBundles.{HaveWords};
ghost use Rattle.puz_search.specs.StoredGuides.{bundle_of};
ghost use Rattle.byte_io.specs.Shelf.{Bytes};
ghost use Rattle.pdb_run.specs.Answers.{all_bytes};
ghost use Rattle.pdb_verdict.specs.FileBundles.{IsBundleOfFiles};
ghost use Rattle.pdb_prove.specs.Steps.{HaveRooms, IsRoomFor, placements_of};

use edge_words::{WordRoom, Words, index_count};
use pdb_verdict::known_table;
use puz_search::Sets;
use puz_walk::{Outline, WordBundle};
use set_sum::{Bundle, Part};
use std::alloc::{AllocError, Global};
use std::thread::Threads;
use work_run::Workers;

/// The most tables of a bundle that has words.
const MOST_WORDED: u8 = 8;

/// The words of the tables of a bundle, and what a search over them needs of the bundle besides. All memory for them is taken
/// before any are made, and they are made as the bytes of the tables go.
#[derive(Drop)]
pub(crate) struct TableWords {
    outline: Box<Outline>,
    /// The memory for the words of each table that has none yet.
    rooms: Vec<WordRoom>,
    /// With room for the words of all tables.
    words: Vec<Words>,
}

/// How many placements the tables of a bundle have together. None where they are too many for words, where one is folded, or
/// where its pattern has more indexes than there may be words.
pub(crate) fn wordable(bundle: &Bundle<'_>) -> Option<u64>
    ensures { IfSome result (λ count. count ≡ placements_of bundle.now) }
{
    if bundle.tables() > MOST_WORDED {
        return None;
    }
    let mut count = 0;
    for number in 0..bundle.tables() {
        let pattern = match bundle.part(number) {
            Part::Full(table) => table.pattern(),
            Part::Folded(_) => return None,
        };
        index_count(&pattern)?;
        count += pattern.count();
    }
    Some(count)
}

impl TableWords {
    /// The memory for the words of the tables of a bundle, where there can be words.
    pub(crate) fn room(sets: Sets<'_>, alloc: Global) -> Result<Option<TableWords>, AllocError>
        ensures { IfOk result (λ found. IfSome found (IsRoomFor (bundle_of sets.entry))) }
    {
        let Sets::Sums(bundle) = sets else {
            return Ok(None);
        };
        let Some(outline) = boxed_outline(bundle, alloc)? else {
            return Ok(None);
        };
        let Some(rooms) = rooms_for(bundle, alloc)? else {
            return Ok(None);
        };
        let words = Vec::with_capacity(alloc, rooms.len())?;
        Ok(Some(TableWords {
            outline,
            rooms,
            words,
        }))
    }

    /// The words of the tables of these files, made one after the other by all workers. The bytes of each file are given up before
    /// the words of the next are made. No memory is taken.
    pub(crate) fn fill<R: Threads + Sync, G>(
        self,
        files: Vec<Vec<u8>>,
        workers: &Workers<'_, R, G>,
    ) -> TableWords
        requires { (sets : Bytes) × (v : ShownBundle)
            × IsBundleOfFiles false (all_bytes files.items) sets v × IsRoomFor v self }
        ensures outline { result.outline.value ≡ self.outline.value }
        ensures words { (sets : Bytes) (v : ShownBundle)
            → IsBundleOfFiles false (all_bytes files.items) sets v
            → IsRoomFor v self → HaveWords v result.words.items }
    {
        let TableWords {
            outline,
            mut rooms,
            mut words,
        } = self;
        for file in files {
            let room = rooms.remove(0);
            words
                .push(words_in(room, file.as_slice(), workers))
                .unwrap();
        }
        TableWords {
            outline,
            rooms,
            words,
        }
    }

    /// The bundle with the words of its tables.
    pub(crate) fn bundle(&self) -> WordBundle<'_>
        requires { HaveWords self.now.outline.value self.now.words.items }
        ensures { result ≡ self.now.outline.value }
    {
        match WordBundle::of(self.outline.as_ref(), self.words.as_slice()) {
            Some(bundle) => bundle,
            None => unreachable!(),
        }
    }
}

/// The outline of a bundle, where there is one. It is too large to be handed about on the stack.
#[inline(never)] // so that no search has the room for it on the stack
fn boxed_outline(bundle: &Bundle<'_>, alloc: Global) -> Result<Option<Box<Outline>>, AllocError>
    ensures { IfOk result (λ found.
        IfSome found (λ outline. (outline.value ≡ bundle.now) × CanHaveWords bundle.now)) }
{
    match Outline::of(bundle) {
        Some(outline) => Ok(Some(Box::new(alloc, outline)?)),
        None => Ok(None),
    }
}

/// The memory for the words of each table of a bundle, where there can be words of all of them.
fn rooms_for(bundle: &Bundle<'_>, alloc: Global) -> Result<Option<Vec<WordRoom>>, AllocError>
    ensures { IfOk result (λ found. IfSome found (λ rooms. HaveRooms bundle.now rooms.items)) }
{
    let mut rooms = Vec::new(alloc);
    for number in 0..bundle.tables() {
        let Some(room) = WordRoom::of(alloc, &bundle.part(number).pattern())? else {
            return Ok(None);
        };
        rooms.push(room)?;
    }
    Ok(Some(rooms))
}

/// The words of the table of a file.
fn words_in<R: Threads + Sync, G>(room: WordRoom, file: &[u8], workers: &Workers<'_, R, G>) -> Words
    requires { (table : Table) × IsExactFile table file.now × (room ≡ table.pattern) }
    ensures { (table : Table) × IsExactFile table file.now × (result.pattern ≡ table.pattern) }
{
    room.fill(&known_table(file), workers)
}
