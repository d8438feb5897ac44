//! Numbers, as words write them.

ghost use Rattle.std.specs.Prelude.{◌≡◌, ◌≤◌, IfSome};
ghost use Rattle.pdb_words.specs.Arguments.{rows_found};
ghost use Rattle.pdb_words.specs.Numbers.{number_in, optional_number_in};

use clap::ArgMatches;

/// The number that these matches of a command have under an id, where they have one from low to high.
pub(crate) fn optional_number_in(
    found: &ArgMatches<'_>,
    id: &str,
    low: u64,
    high: u64,
) -> Option<u64>
    ensures asked { result ≡ optional_number_in low high id.now (rows_found found.now) }
    ensures within { IfSome result (λ number. (low ≤ number) × (number ≤ high)) }
{
    match found.get_one::<u64>(id) {
        Some(number) if low <= number && number <= high => Some(number),
        _ => None,
    }
}

/// The same, or the usual number where they have none.
pub(crate) fn number_in(found: &ArgMatches<'_>, id: &str, low: u64, high: u64, usual: u64) -> u64
    requires { (low ≤ usual) × (usual ≤ high) }
    ensures asked { result ≡ number_in low high usual id.now (rows_found found.now) }
    ensures within { (low ≤ result) × (result ≤ high) }
{
    optional_number_in(found, id, low, high).unwrap_or(usual)
}
