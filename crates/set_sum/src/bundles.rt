//! Bundles of tables, and the sums of their sets.

ghost use Rattle.std.specs.Prelude.{◌≡◌, ◌*◌, ◌<◌, ◌≤◌, Err, IfErr, IfOk, Ok, [], length, map, slice_index_or, take};
ghost use Rattle.std.specs.List.{AllByRecursion};
ghost use Rattle.puz_board.specs.Boards.{side_of};
ghost use Rattle.set_sum.specs.Bounds.{BoundsSolutions};
ghost use Rattle.set_sum.specs.Bundles.{ShownBundle, IsBundle, BundleSays, most_members, most_tables};
ghost use Rattle.puz_board.specs.Transposing.{transposed_cell};
ghost use Rattle.set_sum.specs.Owners.{AreOwners};
ghost use Rattle.set_sum.specs.OverPatterns.{bundle_with};
ghost use Rattle.set_sum.specs.Parts.{IsExactPart, no_part, part_pattern, part_shown};
ghost use Rattle.set_sum.specs.Reading.{IsBundleOf, IsSetFaultOf, first_side};
ghost use Rattle.set_sum.specs.declared.faults.SetFault.{SetFault};

use crate::faults::SetFault;
use crate::members::Member;
use crate::owners::{all_owners, all_transposed};
use crate::parts::Part;
use crate::set_texts::SetText;
use crate::tables::sum_of;
use pat_place::Pattern;
use puz_board::{Board, Side};
use std::marker::Model;
use tab_rule::Count;

/// The most tables of a bundle.
pub const MOST_TABLES: usize = 16;

/// The most members of a set: two for each table.
pub const MOST_MEMBERS: usize = 2 * MOST_TABLES;

/// The most cells of a board.
pub(crate) const MOST_CELLS: usize = 25;

/// The most sets of a bundle.
pub const MOST_SETS: usize = 16;

/// Checked tables of one side, full or folded, and sets of disjoint members: no tile is in the patterns of two members of a set.
///
/// A move moves one tile, so the counts that the members of a set tell of a board may be added. The sum is an additive and
/// admissible heuristic: at most the number of moves of any solution (Korf and Felner 2002).
#[derive(Drop)]
pub struct Bundle<'a> {
    side: Side,
    tables: Vec<Part<'a>>,
    sets: SetText,
    /// For each tile the places of the members whose pattern has it.
    owners: [u32; MOST_CELLS],
    /// The transposed cell of each cell.
    transposed: [u8; MOST_CELLS],
}

impl<'a> Model for Bundle<'a> {
    ghost use Rattle.set_sum.specs.Bundles.{ShownBundle};

    ghost Value = { ShownBundle };

    ghost use Rattle.set_sum.specs.StoredBundles.{IsStoredBundle, bundle_shown};

    ghost view = { bundle_shown };

    ghost invariant = { IsStoredBundle };
}

impl<'a> Bundle<'a> {
    /// The bundle of tables and a set text: a line for each set, with the word `set` and its members. A member is the number of
    /// a table, and behind it a `t` where the member is transposed.
    ///
    /// There are 1 to 16 tables, which are numbered from 0 in the order in which they come, and 1 to 16 lines. No memory is
    /// taken. After a refusal the tables are dropped.
    pub fn read(tables: Vec<Part<'a>>, text: &[u8]) -> Result<Bundle<'a>, SetFault>
        // A bundle comes exactly of tables and a text that make it.
        ensures ok { IfOk result (λ bundle. IsBundleOf tables.entry.items text.now bundle) }
        ensures made { (bundle : ShownBundle) → IsBundleOf tables.entry.items text.now bundle
            → result ≡ Ok bundle }

        // A fault is answered exactly where it is the first that stands.
        ensures fault { IfErr result (λ fault. IsSetFaultOf fault tables.entry.items text.now) }
        ensures refused { (fault : SetFault) → IsSetFaultOf fault tables.entry.items text.now
            → result ≡ Err fault }
    {
        make_bundle(tables, text)
    }

    /// The side of the boards.
    pub fn side(&self) -> Side
        ensures side { result ≡ self.now.side }
        ensures bundle { IsBundle self.now }
    {
        self.side
    }

    /// How many tables there are: 1 to 16.
    pub fn tables(&self) -> u8
        ensures tables { result ≡ length self.now.tables }
        ensures bundle { IsBundle self.now }
    {
        self.tables.len() as u8
    }

    /// The table with a number, full or folded.
    pub fn part(&self, number: u8) -> &Part<'a>
        requires { number < length self.now.tables }
        ensures side { (part_pattern result.now).side ≡ self.now.side }
        ensures part { part_shown result.now ≡ slice_index_or self.now.tables number no_part }
    {
        &self.tables[usize::from(number)]
    }

    /// How many sets there are: 1 to 16. They are numbered from 0, by their lines.
    pub fn sets(&self) -> u8
        ensures sets { result ≡ length self.now.sets }
        ensures bundle { IsBundle self.now }
    {
        self.sets.count()
    }

    /// The members of a set, each before the next: by the numbers of their tables, and of one table first the plain member.
    pub fn members(&self, set: u8) -> &[Member]
        requires { set < length self.now.sets }
        ensures members { result.now ≡ slice_index_or self.now.sets set [] }
        ensures there { AllByRecursion (λ member. member.table < length self.now.tables)
            result.now }
        ensures few { length result.now ≤ most_members }
    {
        self.sets.members(set)
    }

    /// The places of the members whose pattern has a tile.
    #[inline]
    pub(crate) fn owners(&self, tile: u8) -> u32
        requires { tile < self.now.side * self.now.side }
        ensures { AreOwners self.now.side self.now.tables tile result }
    {
        self.owners[usize::from(tile)]
    }

    /// The cell whose row is the column of this one, and whose column is its row.
    #[inline]
    pub(crate) fn transposed(&self, cell: u8) -> u8
        requires { cell < self.now.side * self.now.side }
        ensures { result ≡ transposed_cell self.now.side cell }
    {
        self.transposed[usize::from(cell)]
    }

    /// The sum of what the members of a set say of a board, and `Never` where one of them does.
    pub fn sum(&self, set: u8, board: &Board) -> Count
        requires set { set < length self.now.sets }
        requires side { side_of board.now ≡ self.now.side }
        ensures sum { BundleSays self.now set board.now result }

        // It is at most the number of steps of any solution of the board. `Never` means that there is none.
        ensures bounds { BoundsSolutions board.now result }
    {
        // Asked only for what its contract says.
        let _side = board.side();
        sum_of(&self.tables, self.sets.members(set), board)
    }
}

/// Makes the bundle of tables and a set text.
fn make_bundle<'a>(tables: Vec<Part<'a>>, text: &[u8]) -> Result<Bundle<'a>, SetFault>
    ensures ok { IfOk result (λ bundle. IsBundleOf tables.entry.items text.now bundle) }
    ensures err { IfErr result (λ fault. IsSetFaultOf fault tables.entry.items text.now) }
{
    let sets = text_over(&tables, text)?;
    let side = first_side(&tables);
    let owners = all_owners(side, &tables);
    Ok(Bundle {
        side,
        tables,
        sets,
        owners,
        transposed: all_transposed(side),
    })
}

/// Reads a set text over the patterns of tables.
fn text_over(tables: &[Part<'_>], text: &[u8]) -> Result<SetText, SetFault>
    ensures ok { IfOk result (λ sets.
        IsBundleOf tables.now text.now (bundle_with tables.now sets)
        × AllByRecursion IsExactPart tables.now) }
    ensures err { IfErr result (λ fault. IsSetFaultOf fault tables.now text.now) }
{
    if tables.is_empty() || tables.len() > MOST_TABLES {
        return Err(SetFault::S5);
    }
    let patterns = patterns_of(tables);
    SetText::read(&patterns[..tables.len()], text)
}

/// The side of the first table.
fn first_side(tables: &[Part<'_>]) -> Side
    requires { 0 < length tables.now }
    ensures { result ≡ first_side tables.now }
{
    tables[0].pattern().side()
}

/// The patterns of tables. What stands behind them counts for nothing.
fn patterns_of(tables: &[Part<'_>]) -> [Pattern; MOST_TABLES]
    requires some { 0 < length tables.now }
    requires few { length tables.now ≤ most_tables }
    ensures room { length result ≡ most_tables }
    ensures patterns { take (length tables.now) result ≡ map part_pattern tables.now }
    ensures exact { AllByRecursion IsExactPart tables.now }
{
    let mut patterns = [tables[0].pattern(); MOST_TABLES];
    for (i, table) in tables.iter().enumerate() {
        patterns[i] = table.pattern();
    }
    patterns
}
