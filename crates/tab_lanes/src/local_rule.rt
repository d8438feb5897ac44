//! The local rule over columns of entries.

ghost use Rattle.std.specs.Prelude.{◌≡◌, ℕ, ◌+◌, ◌^◌, ◌<◌, ◌≤◌, ◌⊎◌, MatchOption, length};
ghost use Rattle.std.specs.Int.{bit_at};
ghost use Rattle.tab_lanes.specs.LocalRule.{AllPlacesKeepRule, IsFirstBreach, KeepRuleBetween, KeepsRuleAt};

use std::simd::prelude::*;
use tab_file::{
    GOAL_SLOT, GREATEST_COUNT, LANES, NO_REGION, NO_WAY_HOME, OTHER_SLOT, WITHOUT_REGION,
};

/// How many bytes a short vector has.
const FEW: usize = 16;

/// The first place whose entry breaks the local rule. Each place has an entry, the least entry one move away, and the
/// kind of its slot; a byte that is none of the three kinds breaks the rule. The slices are equally long.
pub fn first_bad(entries: &[u8], mins: &[u8], kinds: &[u8]) -> Option<usize>
    requires mins { length mins.now ≡ length entries.now }
    requires kinds { length kinds.now ≡ length entries.now }
    ensures { MatchOption result
        (AllPlacesKeepRule entries.now mins.now kinds.now)
        (IsFirstBreach entries.now mins.now kinds.now) }
{
    let place = kept_by_lanes::<LANES>(entries, mins, kinds, 0);
    let place = kept_by_lanes::<FEW>(entries, mins, kinds, place);
    // Some places once more, so that few slices have places left for one lane.
    let last = entries.len().saturating_sub(FEW);
    let place = kept_by_lanes::<FEW>(entries, mins, kinds, place.min(last));
    let place = kept_by_lanes::<1>(entries, mins, kinds, place);
    (place < entries.len()).then_some(place)
}

/// Looks for a bad entry from the place `from` on, N places at once, and answers the first one, or the first place
/// that is left.
fn kept_by_lanes<const N: usize>(entries: &[u8], mins: &[u8], kinds: &[u8], from: usize) -> usize
    requires some { 0 < N }
    requires few { N ≤ 64 }
    requires mins { length mins.now ≡ length entries.now }
    requires kinds { length kinds.now ≡ length entries.now }
    requires from { from ≤ length entries.now }
    ensures kept { KeepRuleBetween entries.now mins.now kinds.now from result }
    ensures most { result ≤ length entries.now }
    ensures stopped { ((result < length entries.now)
        × ¬ KeepsRuleAt entries.now mins.now kinds.now result)
        ⊎ (length entries.now < result + N) }
{
    let mut at = from;
    'lanes: while entries.len() - at >= N {
        let bad = bad_lanes(
            Simd::<u8, N>::from_slice(&entries[at..]),
            Simd::from_slice(&mins[at..]),
            Simd::from_slice(&kinds[at..]),
        );
        if bad != 0 {
            return at + bad.trailing_zeros() as usize;
        }
        at += N;
    }
    at
}

/// A bit for each lane, set where its entry breaks the rule.
#[inline]
fn bad_lanes<const N: usize>(entries: Simd<u8, N>, mins: Simd<u8, N>, kinds: Simd<u8, N>) -> u64
    requires few { N ≤ 64 }
    ensures fits { result < 2 ^ N }
    ensures kept { (i : ℕ) → i < N → bit_at result i ≡ 0
        → KeepsRuleAt entries.entry mins.entry kinds.entry i }
    ensures broken { (i : ℕ) → i < N → bit_at result i ≡ 1
        → ¬ KeepsRuleAt entries.entry mins.entry kinds.entry i }
{
    let no_region = kinds.simd_eq(Simd::splat(WITHOUT_REGION))
        & entries.simd_eq(Simd::splat(NO_REGION));
    let goal = kinds.simd_eq(Simd::splat(GOAL_SLOT)) & entries.simd_eq(Simd::splat(0));
    let one_more = mins.simd_lt(Simd::splat(GREATEST_COUNT))
        & entries.simd_eq(mins + Simd::splat(1));
    let never = mins.simd_eq(Simd::splat(NO_WAY_HOME)) & entries.simd_eq(Simd::splat(NO_WAY_HOME));
    let other = kinds.simd_eq(Simd::splat(OTHER_SLOT)) & (one_more | never);
    (!(no_region | goal | other)).to_bitmask()
}
