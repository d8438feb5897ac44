//! Tables, built breadth first from the tiles at home.

ghost use Rattle.std.specs.Prelude.{◌≡◌, ◌+◌, ◌++◌, ◌<◌, ◌≤◌, ℕ, List, IfErr, IfOk, length, take};
ghost use Rattle.tab_file.specs.TableFiles.{IsTableFile};
ghost use Rattle.tab_file.specs.Tables.{entry_count};
ghost use Rattle.tab_make.specs.Faults.{IsBuildFault};

use crate::counts::Counts;
use crate::faults::{MakeFault, Unmade};
use crate::grids::PatternGrid;
use crate::hosts::Host;
use crate::shapes::Shapes;
use crate::walks::{Placed, PlacementWalk};
use pat_place::Pattern;
use puz_board::masks::{first_of, with, without};
use rayon::prelude::*;
use std::alloc::{AllocError, Global};
use std::sync::atomic::{AtomicBool, Ordering};
use std::thread::Threads;
use tab_file::{HEADER_LEN, NO_REGION, header_of};
use work_run::{Gate, OpenGate};

/// How many runs are filled in at once.
const RUNS: usize = 512;

/// The file of a pattern's table, as far as a table can say its counts.
#[derive(Drop)]
pub struct TableDraft {
    pub file: Vec<u8>,
    /// Whether there is a count above 253. Such counts stand in the file as if no walk led home.
    pub is_passed: bool,
}

/// The file of a pattern's table, where no count is above 253. It has the pattern's header and as many entries; what these say is
/// for the checker.
pub fn build<R: Threads + Sync>(
    rt: &R,
    alloc: Global,
    pattern: &Pattern,
) -> Result<Vec<u8>, MakeFault>
    ensures file { IfOk result (λ file. (entries : List ℕ)
        × IsTableFile (record { pattern = pattern.now; entries = entries }) file.items) }
    ensures fault { IfErr result IsBuildFault }
{
    let made = draft(rt, alloc, pattern, &OpenGate)?;
    if made.is_passed {
        Err(MakeFault::K3)
    } else {
        Ok(made.file)
    }
}

/// The file of a pattern's table as far as a table can say its counts: each entry is filled in with the first layer that reaches it. The
/// gate is told how many counts are found after each layer, and how many entries are filled in; no thread is held.
pub fn draft<R: Threads + Sync, G: Gate + Sync>(
    rt: &R,
    alloc: Global,
    pattern: &Pattern,
    gate: &G,
) -> Result<TableDraft, MakeFault>
    ensures file { IfOk result (λ draft. (entries : List ℕ)
        × IsTableFile (record { pattern = pattern.now; entries = entries }) draft.file.items) }
    ensures fault { IfErr result IsBuildFault }
{
    let host = Host { rt, alloc, gate };
    let grid = PatternGrid::new(pattern)?;
    let shapes = Shapes::new(alloc, pattern)?;
    let counts = Counts::new(&host, &grid, &shapes, pattern.mask())?;
    let mut file = unfilled_file(alloc, pattern)?;
    let (_header, entries) = file.split_at_mut(HEADER_LEN);
    fill_entries(&host, &grid, &shapes, &counts, entries)?;
    Ok(TableDraft {
        file,
        is_passed: counts.is_passed,
    })
}

/// The file with entries that all say that their slot has no region.
fn unfilled_file(alloc: Global, pattern: &Pattern) -> Result<Vec<u8>, AllocError>
    ensures length { IfOk result (λ file.
        length file.items ≡ HEADER_LEN + entry_count pattern.now) }
    ensures header { IfOk result (λ file. (entries : List ℕ)
        → length entries ≡ entry_count pattern.now
        → IsTableFile (record { pattern = pattern.now; entries = entries })
        (take HEADER_LEN file.items ++ entries)) }
{
    let header = header_of(pattern);
    let count = pattern.count() * u64::from(pattern.width());
    unfilled_behind(alloc, &header, HEADER_LEN + count as usize)
}

/// So many bytes that begin so, and then say that a slot has no region.
#[tactic(auto, using(crate::proofs::TableLemmas::front_stays))]
fn unfilled_behind(alloc: Global, front: &[u8], len: usize) -> Result<Vec<u8>, AllocError>
    requires { length front.now ≤ len }
    ensures length { IfOk result (λ file. length file.items ≡ len) }
    ensures front { IfOk result (λ file. take (length front.now) file.items ≡ front.now) }
{
    let mut file = Vec::with_capacity(alloc, len)?;
    file.extend_from_slice(front)?;
    file.resize(len, NO_REGION)?;
    Ok(file)
}

/// Fills in all entries of slots that have a region, run by run: the placements of a run differ in the last tile alone.
fn fill_entries<R: Threads + Sync, G: Gate + Sync>(
    host: &Host<'_, R, G>,
    grid: &PatternGrid,
    shapes: &Shapes,
    counts: &Counts,
    entries: &mut [u8],
) -> Result<(), Unmade> {
    let (rt, gate) = (host.rt, host.gate);
    let all = entries.len() as u64;
    let is_filled = AtomicBool::new(true);
    par_chunks_mut_for_each(rt, entries, usize::from(grid.run) * RUNS, |start, runs| {
        if fill_runs(grid, shapes, counts, start, runs).is_err() {
            is_filled.store(false, Ordering::SeqCst);
        }
        gate.filled(runs.len() as u64, all);
    });
    if is_filled.load(Ordering::SeqCst) {
        Ok(())
    } else {
        Err(Unmade::WrongNumber)
    }
}

/// Fills in the entries of the runs from an entry on.
fn fill_runs(
    grid: &PatternGrid,
    shapes: &Shapes,
    counts: &Counts,
    start: usize,
    runs: &mut [u8],
) -> Result<(), Unmade> {
    let mut number = u32::try_from(start).ok().ok_or(Unmade::WrongNumber)?;
    let mut walk = PlacementWalk::new(grid)?;
    for entries in runs.chunks_mut(usize::from(grid.run)) {
        walk.go_to(number)?;
        fill_run(grid, shapes, counts, &walk.placed(), entries)?;
        number = number
            .checked_add(u32::from(grid.run))
            .ok_or(Unmade::WrongNumber)?;
    }
    Ok(())
}

/// Fills in the entries of a run.
fn fill_run(
    grid: &PatternGrid,
    shapes: &Shapes,
    counts: &Counts,
    placed: &Placed,
    entries: &mut [u8],
) -> Result<(), Unmade> {
    let mut free = grid.all & !placed.set;
    for slots in entries.chunks_mut(grid.width) {
        if free == 0 {
            return Err(Unmade::WrongNumber);
        }
        let cell = first_of(free);
        free = without(free, cell);
        let order = placed.next_order(grid.size - 1, cell);
        if !counts.has_order(order) {
            return Err(Unmade::WrongNumber);
        }
        let shapes = shapes.of_set(with(placed.set, cell))?;
        for (slot, shape) in slots.iter_mut().zip(shapes) {
            *slot = counts.entry(shape, order)?;
        }
    }
    Ok(())
}
