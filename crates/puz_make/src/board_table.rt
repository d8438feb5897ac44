//! A table of boards, each with a number, with open addressing and linear probing (Knuth 1973).

ghost use Rattle.std.specs.Prelude.{◌≡◌, ◌<◌, IfSome, vec_len};

use crate::keys::Key;
use std::alloc::{AllocError, Global};

/// One of so many places is free at the least.
const PLACES_OF_FREE: usize = 8;

/// A place of the table.
#[derive(Clone, Copy)]
struct Entry {
    key: Key,
    number: u32,
    /// How many moves are refuted from the board: none where the place is free.
    bound: u8,
}

impl Entry {
    /// A free place.
    const FREE: Entry = Entry {
        key: Key::NONE,
        number: 0,
        bound: 0,
    };

    /// Whether the place is free.
    #[inline]
    fn is_free(&self) -> bool {
        self.bound == 0
    }
}

/// The table. Each board in it has a number, and a number of moves that are refuted from it.
#[derive(Drop)]
pub(crate) struct BoardTable {
    entries: Vec<Entry>,
    /// How many more boards it takes.
    room: usize,
}

impl BoardTable {
    /// A table for so many boards.
    pub(crate) fn new(alloc: Global, boards: usize) -> Result<BoardTable, AllocError> {
        let free = boards / (PLACES_OF_FREE - 1) + 1;
        Ok(BoardTable {
            entries: vec![in alloc; Entry::FREE; boards.saturating_add(free)]?,
            room: boards,
        })
    }

    /// The number of the board of a key, if the table has it with so many moves or more.
    pub(crate) fn number_of(&self, key: Key, bound: u8) -> Option<u32> {
        let place = self.place_of(key)?;
        let entry = self.entries[place];
        if entry.is_free() || entry.bound < bound {
            None
        } else {
            Some(entry.number)
        }
    }

    /// Notes the number of the board of a key, and how many moves are refuted from it. A full table takes no new board.
    pub(crate) fn put(&mut self, key: Key, number: u32, bound: u8) {
        let Some(place) = self.place_of(key) else {
            return;
        };
        if self.entries[place].is_free() {
            if self.room == 0 {
                return;
            }
            self.room -= 1;
        }
        self.entries[place] = Entry { key, number, bound };
    }

    /// The place of the key, or else a free one.
    fn place_of(&self, key: Key) -> Option<usize>
        ensures { IfSome result (λ place. place < vec_len self.now.entries) }
    {
        let count = self.entries.len();
        for steps in 0..count {
            let place = place_after(key.home(count), steps, count);
            let entry = &self.entries[place];
            if entry.is_free() || entry.key == key {
                return Some(place);
            }
        }
        None
    }
}

/// The place so many steps after another, round all so many places.
#[inline]
fn place_after(place: usize, steps: usize, count: usize) -> usize
    requires place { place < count }
    requires steps { steps < count }
    ensures { result < count }
{
    let left = count - place;
    if steps < left {
        place + steps
    } else {
        steps - left
    }
}
