//! When it is time to tell how far a check has come.

ghost use Rattle.std.specs.Prelude.{◌↔◌, IsTrue};
ghost use Rattle.pdb_progress.specs.Shares.{IsTime};

/// The milliseconds between two tellings, and before the first one.
const BETWEEN_TELLINGS: u64 = 1000;

/// Whether it is time to tell. Both times are in milliseconds since the start: that of the last telling, or 0 where
/// nothing was told, and that of now.
///
/// So nothing is told in the first second, and nothing within a second of the last telling.
pub fn is_time(told: u64, now: u64) -> bool
    ensures { IsTrue result ↔ IsTime told now }
{
    now.saturating_sub(told) >= BETWEEN_TELLINGS
}
