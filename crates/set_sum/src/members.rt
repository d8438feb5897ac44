//! Members of sets.

ghost use Rattle.std.specs.Prelude.{◌↔◌, IsTrue};

/// A member of a set: a table, for its own pattern or for the transposed one.
///
/// A table serves the transposed pattern too, since transposing keeps the goal board and the number of moves of every path:
/// the member looks up the transposed board (Korf and Felner 2002).
#[derive(Clone, Copy, Debug, Default, PartialEq, Eq)]
pub struct Member {
    /// The number of the table.
    pub table: u8,
    /// Whether the member is for the transposed pattern.
    pub is_transposed: bool,
}

impl Member {
    ghost use Rattle.set_sum.specs.Members.{IsBefore};

    /// Whether the member comes before another one in a set line: by the numbers of their tables, and of one table first the
    /// plain member, then the transposed one.
    pub(crate) fn is_before(self, other: Member) -> bool
        ensures { IsTrue result ↔ IsBefore self other }
    {
        if self.table == other.table {
            !self.is_transposed && other.is_transposed
        } else {
            self.table < other.table
        }
    }
}
