//! Columns of bytes, taken together place by place.

ghost use Rattle.std.specs.Prelude.{◌≡◌, ◌+◌, ◌<◌, ◌≤◌, length, min};
ghost use Rattle.std.specs.Simd.Lanes.{zip2};
ghost use Rattle.tab_lanes.specs.Columns.{AreLesserBetween};

use std::simd::prelude::*;
use tab_file::LANES;

/// Each place takes the smaller of its two bytes. The slices are equally long.
pub fn min_into(least: &mut [u8], others: &[u8])
    requires { length least.old ≡ length others.now }
    ensures { least.new ≡ zip2 min least.old others.now }
{
    let rest = min_by_lanes::<LANES>(least, others, 0);
    min_by_lanes::<1>(least, others, rest);
}

/// Takes the smaller bytes from the place `from` on, N places at once, and answers the first place that is left.
fn min_by_lanes<const N: usize>(least: &mut [u8], others: &[u8], from: usize) -> usize
    requires lengths { length least.old ≡ length others.now }
    requires some { 0 < N }
    requires from { from ≤ length least.old }
    ensures lesser { AreLesserBetween least.old others.now from result least.new }
    ensures most { result ≤ length least.old }
    ensures few { length least.old < result + N }
{
    let mut at = from;
    'lanes: while least.len() - at >= N {
        let lesser = Simd::<u8, N>::from_slice(&least[at..]).simd_min(Simd::from_slice(
            &others[at..],
        ));
        lesser.copy_to_slice(&mut least[at..]);
        at += N;
    }
    at
}
