//! Masks of cells that grow over free cells, a mask a lane.

ghost use Rattle.std.specs.Prelude.{ℕ, ◌+◌, ◌<◌, ◌≤◌, length, slice_index};
ghost use Rattle.tab_lanes.specs.Floods.{AllMayGrow, AreGrown, IsAStepAway, IsReached, MayGrowFrom};
ghost use Rattle.tab_lanes.specs.FloodSteps.{AreEntered, AreGrownBetween};

use puz_board::Side;
use puz_board::masks::{first_column, last_column};
use std::simd::prelude::*;

/// How many masks one vector has.
const MASKS: usize = 16;

/// Each mask gains the free cells that are adjacent to its cells. Each place has its own mask of free cells of the
/// board, among which are the mask's cells. The slices are equally long.
pub fn flood_step(side: Side, masks: &mut [u32], free: &[u32])
    requires { AllMayGrow side masks.old free.now }
    ensures { AreGrown (IsAStepAway side) masks.old free.now masks.new }
{
    let rest = step_by_lanes::<MASKS>(side, masks, free, 0);
    step_by_lanes::<1>(side, masks, free, rest);
}

/// Each mask becomes the free cells that paths of free cells reach from its cells. Each place has its own mask of free
/// cells of the board, among which are the mask's cells. The slices are equally long.
pub fn flood(side: Side, masks: &mut [u32], free: &[u32])
    requires { AllMayGrow side masks.old free.now }
    ensures { AreGrown (IsReached side) masks.old free.now masks.new }
{
    let rest = flood_by_lanes::<MASKS>(side, masks, free, 0);
    flood_by_lanes::<1>(side, masks, free, rest);
}

/// Takes a step of the masks from the place `from` on, N places at once, and answers the first place that is left.
fn step_by_lanes<const N: usize>(side: Side, masks: &mut [u32], free: &[u32], from: usize) -> usize
    requires grow { MayGrowFrom side from masks.old free.now }
    requires some { 0 < N }
    requires few { N ≤ 64 }
    requires from { from ≤ length masks.old }
    ensures grown { AreGrownBetween (IsAStepAway side) masks.old free.now from result masks.new }
    ensures most { result ≤ length masks.old }
    ensures few { length masks.old < result + N }
{
    let mut at = from;
    'lanes: while masks.len() - at >= N {
        let grown = stepped(
            side,
            Simd::<u32, N>::from_slice(&masks[at..]),
            Simd::from_slice(&free[at..]),
        );
        grown.copy_to_slice(&mut masks[at..]);
        at += N;
    }
    at
}

/// Floods from the masks from the place `from` on, N places at once, and answers the first place that is left.
fn flood_by_lanes<const N: usize>(side: Side, masks: &mut [u32], free: &[u32], from: usize) -> usize
    requires grow { MayGrowFrom side from masks.old free.now }
    requires some { 0 < N }
    requires few { N ≤ 64 }
    requires from { from ≤ length masks.old }
    ensures grown { AreGrownBetween (IsReached side) masks.old free.now from result masks.new }
    ensures most { result ≤ length masks.old }
    ensures few { length masks.old < result + N }
{
    let mut at = from;
    'lanes: while masks.len() - at >= N {
        let flooded = flooded(
            side,
            Simd::<u32, N>::from_slice(&masks[at..]),
            Simd::from_slice(&free[at..]),
        );
        flooded.copy_to_slice(&mut masks[at..]);
        at += N;
    }
    at
}

/// Each lane's mask and the free cells adjacent to its cells.
#[inline]
fn stepped<const N: usize>(side: Side, masks: Simd<u32, N>, free: Simd<u32, N>) -> Simd<u32, N>
    requires few { N ≤ 64 }
    requires masks { AllMayGrow side masks free }
    ensures { AreGrown (IsAStepAway side) masks.entry free.entry result }
{
    let right = free & Simd::splat(!first_column(side));
    let left = free & Simd::splat(!last_column(side));
    grown(side, masks, free, right, left)
}

/// The free cells that paths of free cells reach from the cells of each lane's mask.
#[inline]
fn flooded<const N: usize>(side: Side, masks: Simd<u32, N>, free: Simd<u32, N>) -> Simd<u32, N>
    requires few { N ≤ 64 }
    requires masks { AllMayGrow side masks free }
    ensures { AreGrown (IsReached side) masks.entry free.entry result }
{
    let right = free & Simd::splat(!first_column(side));
    let left = free & Simd::splat(!last_column(side));
    let mut regions = masks;
    'grow: loop {
        let more = grown(side, regions, free, right, left);
        if !more.simd_ne(regions).any() {
            return more;
        }
        regions = more;
    }
}

/// One step of each lane's mask. Only free cells outside the first column are entered by a step to the right, and only
/// those outside the last one by a step to the left.
#[inline]
fn grown<const N: usize>(
    side: Side,
    masks: Simd<u32, N>,
    free: Simd<u32, N>,
    right: Simd<u32, N>,
    left: Simd<u32, N>,
) -> Simd<u32, N>
    requires few { N ≤ 64 }
    requires masks { AllMayGrow side masks free }
    requires entered { (i : ℕ) → i < N
        → AreEntered side (slice_index free i) (slice_index right i) (slice_index left i) }
    ensures { AreGrown (IsAStepAway side) masks.entry free.entry result }
{
    let row = Simd::splat(u32::from(side.get()));
    let one = Simd::splat(1);
    let vertical = (masks << row | masks >> row) & free;
    let horizontal = masks << one & right | masks >> one & left;
    masks | vertical | horizontal
}
