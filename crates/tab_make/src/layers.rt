//! Layers of a table.

ghost use Rattle.std.specs.Prelude.{◌≡◌, ◌+◌, ◌-◌, ◌*◌, ◌<◌, ◌≤◌, ◌^◌, ◌++◌, IfOk, length, min};
ghost use Rattle.tab_make.specs.Layers.{layer_from, layer_of};
ghost use Rattle.tab_make.specs.Pieces.{all_items};

use rayon::prelude::*;
use std::alloc::{AllocError, Global};
use std::thread::Threads;
use tab_file::count_eq;

/// How many entries one piece of the work has.
const PIECE: usize = 65_536;

/// How many entries are looked at together: those of a block that has none of a layer are passed over.
const BLOCK: usize = 64;

/// The numbers of the entries that hold `d`, ascending, from as many threads as there are processors.
pub fn layer(
    rt: &(impl Threads + Sync),
    alloc: Global,
    entries: &[u8],
    d: u8,
) -> Result<Vec<u32>, AllocError>
    requires { length entries.now < 2 ^ 32 }
    ensures { IfOk result (λ numbers. numbers.items ≡ layer_of d entries.now) }
{
    let pieces = entries.len().div_ceil(PIECE);
    let lists = (0..pieces)
        .into_par_iter()
        .with_min_len(1)
        .map(
            |piece: usize| -> Result<Vec<u32>, AllocError>
                requires { (length entries.now < 2 ^ 32) × (piece * PIECE ≤ length entries.now) }
                ensures { IfOk result (λ numbers. numbers.items
                    ≡ layer_from d entries.entry.now (piece * PIECE)
                    (min PIECE (length entries.entry.now - piece * PIECE))) }
            { layer_of_piece(alloc, entries, d, piece * PIECE) },
        )
        .collect::<Result<Vec<Vec<u32>>, AllocError>>(rt, alloc)??;
    joined(alloc, &lists)
}

/// The lists one after the other.
fn joined(alloc: Global, lists: &[Vec<u32>]) -> Result<Vec<u32>, AllocError>
    ensures { IfOk result (λ all. all.items ≡ all_items lists.now) }
{
    let mut all = Vec::new(alloc);
    for list in lists {
        all.extend_from_slice(list)?;
    }
    Ok(all)
}

/// The layer within the piece that begins with an entry.
fn layer_of_piece(alloc: Global, entries: &[u8], d: u8, from: usize) -> Result<Vec<u32>, AllocError>
    requires few { length entries.now < 2 ^ 32 }
    requires from { from ≤ length entries.now }
    ensures { IfOk result (λ numbers. numbers.items
        ≡ layer_from d entries.now from (min PIECE (length entries.now - from))) }
{
    let end = entries.len().min(from + PIECE);
    let mut numbers = Vec::new(alloc);
    let mut at = from;
    'blocks: while at < end {
        let next = end.min(at + BLOCK);
        if count_eq(&entries[at..next], d) > 0 {
            add_layer(entries, d, at, next, &mut numbers)?;
        }
        at = next;
    }
    Ok(numbers)
}

/// Adds the layer within the entries of a block.
fn add_layer(
    entries: &[u8],
    d: u8,
    from: usize,
    end: usize,
    numbers: &mut Vec<u32>,
) -> Result<(), AllocError>
    requires few { length entries.now < 2 ^ 32 }
    requires from { from ≤ end }
    requires end { end ≤ length entries.now }
    ensures { IfOk result (λ _. numbers.new.items
        ≡ numbers.old.items ++ layer_from d entries.now from (end - from)) }
{
    for number in from..end {
        if entries[number] == d {
            numbers.push(number as u32)?;
        }
    }
    Ok(())
}
