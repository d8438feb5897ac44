//! What is wrong with tables and a set text.

/// Why tables and a set text make no bundle. The first of these that stands is answered, in the order S5 for the tables,
/// S4, S1, S5 for the lines, S2, S6, S3.
///
/// Lines, and tables in the order in which they come, are counted from 0.
#[derive(Clone, Copy, Debug, PartialEq, Eq)]
pub enum SetFault {
    /// This line is the first that isn't the line of a set. In an empty text it is line 0.
    S1(usize),
    /// This line is the first that names a table that isn't there.
    S2(u8),
    /// This line is the first two of whose members share a tile.
    S3(u8),
    /// This table is the first whose side isn't that of the first table.
    S4(u8),
    /// There is no table, or there are more than 16 tables, or more than 16 lines.
    S5,
    /// This line is the first two of whose members have one pattern where one of them is transposed.
    S6(u8),
}
