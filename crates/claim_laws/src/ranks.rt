//! To take the rank of a placement and the placement of a rank undo each other.

ghost use Rattle.std.specs.Prelude.{◌≡◌, ◌<◌, length};
ghost use Rattle.pat_place.specs.Ranks.{placements};

use pat_place::{Pattern, Placement, rank, unrank};

/// The rank of the placement of a rank: that rank.
pub fn rank_of_unranked(pattern: &Pattern, number: u64) -> u64
    requires { number < length (placements pattern.now.side (length pattern.now.tiles)) }
    ensures { result ≡ number }
{
    rank(&unrank(pattern, number))
}

/// The placement of the rank of a placement: that placement.
pub fn unrank_ranked(placement: &Placement) -> Placement
    ensures { result ≡ placement.now }
{
    unrank(&placement.pattern(), rank(placement))
}
