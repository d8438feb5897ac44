//! Counts among the bytes of entries.

ghost use Rattle.std.specs.Prelude.{◌≡◌, ℕ, ◌+◌, ◌<◌, ◌≤◌, ◌⊎◌, ◌==◌, count_by, length, slice_index, take};
ghost use Rattle.tab_file.specs.Counts.{IsGreatestCount};

use crate::entries::GREATEST_COUNT;
use std::simd::prelude::*;

/// How many bytes are taken at once.
pub const LANES: usize = 64;

/// How many of the bytes are this one.
pub fn count_eq(bytes: &[u8], byte: u8) -> u64
    ensures { result ≡ count_by (λ x. x == byte) bytes.now }
{
    let (rest, count) = count_by_lanes::<LANES>(bytes, byte, 0, 0);
    let (_end, count) = count_by_lanes::<1>(bytes, byte, rest, count);
    count
}

/// Counts on from the place `from`, N places at once. Answers the first place that is left, and the count before it.
fn count_by_lanes<const N: usize>(bytes: &[u8], byte: u8, from: usize, before: u64) -> (usize, u64)
    requires some { 0 < N }
    requires few { N ≤ 64 }
    requires from { from ≤ length bytes.now }
    requires before { before ≡ count_by (λ x. x == byte) (take from bytes.now) }
    ensures count { result.1 ≡ count_by (λ x. x == byte) (take result.0 bytes.now) }
    ensures most { result.0 ≤ length bytes.now }
    ensures few { length bytes.now < result.0 + N }
{
    let mut count = before;
    let mut at = from;
    'lanes: while bytes.len() - at >= N {
        let equal = Simd::<u8, N>::from_slice(&bytes[at..]).simd_eq(Simd::splat(byte));
        count += u64::from(equal.to_bitmask().count_ones());
        at += N;
    }
    (at, count)
}

/// The greatest byte that is at most 253, and 0 where there is none.
pub fn greatest_count(bytes: &[u8]) -> u8
    ensures { IsGreatestCount bytes.now (length bytes.now) result }
{
    let (rest, greatest) = greatest_by_lanes::<LANES>(bytes, 0, 0);
    let (_end, greatest) = greatest_by_lanes::<1>(bytes, rest, greatest);
    greatest
}

/// Goes on from the place `from`, N places at once. Answers the first place that is left, and the greatest count before it.
fn greatest_by_lanes<const N: usize>(bytes: &[u8], from: usize, before: u8) -> (usize, u8)
    requires some { 0 < N }
    requires few { N ≤ 64 }
    requires from { from ≤ length bytes.now }
    requires before { IsGreatestCount bytes.now from before }
    ensures greatest { IsGreatestCount bytes.now result.0 result.1 }
    ensures most { result.0 ≤ length bytes.now }
    ensures few { length bytes.now < result.0 + N }
{
    let mut lanes = Simd::<u8, N>::splat(before);
    let mut at = from;
    'lanes: while bytes.len() - at >= N {
        let block = Simd::<u8, N>::from_slice(&bytes[at..]);
        let counts = block
            .simd_le(Simd::splat(GREATEST_COUNT))
            .select(block, Simd::splat(0));
        lanes = lanes.simd_max(counts);
        at += N;
    }
    (at, greatest_of(&lanes.to_array()))
}

/// The greatest of the bytes, and 0 of none.
fn greatest_of(bytes: &[u8]) -> u8
    ensures bound { (i : ℕ) → i < length bytes.now → slice_index bytes.now i ≤ result }
    ensures reached { (result ≡ 0)
        ⊎ ((i : ℕ) × (i < length bytes.now) × (slice_index bytes.now i ≡ result)) }
{
    let mut greatest = 0;
    for byte in bytes {
        greatest = greatest.max(*byte);
    }
    greatest
}
