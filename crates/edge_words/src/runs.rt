//! Runs: the placements that differ in the last tile alone.

/// A run of a table.
#[derive(Clone, Copy)]
pub(crate) struct RunView<'a> {
    /// The cells of all tiles but the last. Any numbers stand behind them.
    pub(crate) cells: [u8; 8],
    /// These cells as a mask.
    pub(crate) set: u32,
    /// The other cells of the board.
    pub(crate) free: u32,
    /// The rank of the first placement.
    pub(crate) first: u64,
    /// The entries of its placements.
    pub(crate) own: &'a [u8],
    /// For each cell where its regions stand among the entries, counted from 1, if that is kept.
    pub(crate) rows: Option<&'a [u8]>,
}
