//! What is told besides why a run ended.

use crate::mistakes::mistake_text;
use pdb_run::{Mistake, Spot, Tally};
use std::fmt;
use std::fmt::{Display, Formatter};

/// Writes where a line that is refused goes wrong.
pub(crate) fn write_spot<W: fmt::Write>(f: &mut Formatter<W>, spot: Spot) -> fmt::Result {
    let (column, what) = (spot.column, mistake_text(spot.what));
    write!(f, ". At column {column}: {what}")?;
    match spot.what {
        Mistake::NumberCount(count) => write!(f, "{count}"),
        _ => Ok(()),
    }
}

/// How claims were answered. It is shown as the line that tells it.
#[derive(Clone, Copy, Debug, PartialEq, Eq)]
pub struct Summary(pub Tally);

impl Display for Summary {
    fn fmt<W: fmt::Write>(&self, f: &mut Formatter<W>) -> fmt::Result {
        let tally = self.0;
        let claims = tally.claims;
        let plural = if claims == 1 { "" } else { "s" };
        write!(f, "pdb_cli: {claims} claim{plural}: ")?;
        let comma = write_kind(f, "", tally.optima, "optimal")?;
        let comma = write_kind(f, comma, tally.bounds, "bound")?;
        let comma = write_kind(f, comma, tally.parts, "part")?;
        write_kind(f, comma, tally.refused, "refused")?;
        Ok(())
    }
}

/// How many refused boards have a solution with the blank last alone. It is shown as the line that tells it.
#[derive(Clone, Copy, Debug, PartialEq, Eq)]
pub struct SolvableLast(pub usize);

impl Display for SolvableLast {
    fn fmt<W: fmt::Write>(&self, f: &mut Formatter<W>) -> fmt::Result {
        let count = self.0;
        f.write_str("pdb_cli: boards that have no solution, but one with the blank last: ")?;
        write!(f, "{count}: --goal last")
    }
}

/// Writes how many answers of a kind there are, if any, behind what parts them from those before; and returns what parts the next.
fn write_kind<'k, W: fmt::Write>(
    f: &mut Formatter<W>,
    comma: &'k str,
    count: usize,
    kind: &'k str,
) -> Result<&'k str, fmt::Error> {
    if count == 0 {
        return Ok(comma);
    }
    write!(f, "{comma}{count} {kind}")?;
    Ok(", ")
}
