//! The memory for edge words.

ghost use Rattle.std.specs.Prelude.{◌≡◌, ◌<◌, IfNone, IfOk, IfSome};
ghost use Rattle.edge_words.specs.Indexes.{index_count, most_words};

use crate::fills::{Span, fill, fill_by};
use crate::indexes::index_count;
use crate::lookups::Lookup;
use crate::words::Words;
use pat_place::Pattern;
use std::alloc::{AllocError, Global};
use std::marker::Model;
use std::thread::Threads;
use tab_rule::CheckedTable;
use tab_runs::RowTable;
use work_run::Workers;

/// The memory for the words of a pattern, taken and not filled in: that of the words, and what tells where regions stand among
/// the entries of a table. So words are filled in without taking memory.
#[derive(Drop)]
pub struct WordRoom {
    pattern: Pattern,
    /// None yet, and room for all of them.
    words: Vec<u32>,
    rows: RowTable,
}

impl Model for WordRoom {
    ghost use Rattle.pat_place.specs.Patterns.{ShownPattern};

    ghost Value = { ShownPattern };

    ghost use Rattle.edge_words.specs.StoredRooms.{IsStoredRoom};

    ghost view = { λ room. room.pattern };

    ghost invariant = { IsStoredRoom };
}

impl WordRoom {
    /// The memory for the words of a pattern, of which nothing is written yet.
    ///
    /// There is none where they would be more than 2^28. It fails only where there is no memory for the words or for what
    /// tells where regions stand.
    pub fn of(alloc: Global, pattern: &Pattern) -> Result<Option<WordRoom>, AllocError>
        ensures some { IfOk result (λ found. IfSome found (λ room. room ≡ pattern.now)) }
        ensures none { IfOk result (λ found. IfNone found (most_words < index_count pattern.now)) }
    {
        let Some(count) = index_count(pattern) else {
            return Ok(None);
        };
        let words = Vec::with_capacity(alloc, count)?;
        let rows = RowTable::build(alloc, pattern)?;
        Ok(Some(WordRoom {
            pattern: *pattern,
            words,
            rows,
        }))
    }

    /// The words of a table of the pattern, by these workers at once, each of which fills in those of some runs. No memory is
    /// taken.
    pub fn fill<R: Threads + Sync, G>(
        self,
        table: &CheckedTable<'_>,
        workers: &Workers<'_, R, G>,
    ) -> Words
        requires { self ≡ table.now.pattern }
        ensures { result.pattern ≡ table.now.pattern }
    {
        let WordRoom {
            pattern,
            mut words,
            rows,
        } = self;
        let count = words.capacity();
        words.resize(count, 0).unwrap();
        let span = Span {
            low: 0,
            high: count / usize::from(pattern.side().cells()),
        };
        let lookup = Lookup::new(table, rows);
        let threads = workers.count;
        fill_by(workers.rt, &lookup, threads, span, words.as_mut_slice());
        Words { pattern, words }
    }

    /// The same by the caller's thread alone.
    pub fn fill_alone(self, table: &CheckedTable<'_>) -> Words
        requires { self ≡ table.now.pattern }
        ensures { result.pattern ≡ table.now.pattern }
    {
        let WordRoom {
            pattern,
            mut words,
            rows,
        } = self;
        let count = words.capacity();
        words.resize(count, 0).unwrap();
        let span = Span {
            low: 0,
            high: count / usize::from(pattern.side().cells()),
        };
        let lookup = Lookup::new(table, rows);
        fill(&lookup, &span, words.as_mut_slice());
        Words { pattern, words }
    }
}
