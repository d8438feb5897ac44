//! For each tile the members whose pattern has it, and for each cell the transposed one: what a walk asks at each move.

ghost use Rattle.std.specs.Prelude.{◌≡◌, ℕ, ◌*◌, ◌<◌, ◌≤◌, IsTrue, length, slice_index};
ghost use Rattle.std.specs.Int.{bit_at};
ghost use Rattle.std.specs.List.{AllByRecursion};
ghost use Rattle.puz_board.specs.Transposing.{transposed_cell};
ghost use Rattle.set_sum.specs.Bundles.{most_tables};
ghost use Rattle.set_sum.specs.Owners.{AreOwners};
ghost use Rattle.set_sum.specs.Known.{place_of};
ghost use Rattle.set_sum.specs.Parts.{part_pattern, parts_shown};

use crate::bundles::MOST_CELLS;
use crate::members::Member;
use crate::parts::Part;
use puz_board::masks::{has_cell, with};
use puz_board::{Side, transposed_cell};

/// The place of a member: two for each table, the first for the plain member.
#[inline]
pub(crate) fn place_of(member: Member) -> u8
    requires { member.table < 16 }
    ensures place { result ≡ place_of member }
    ensures below { result < 32 }
{
    2 * member.table + u8::from(member.is_transposed)
}

/// For each tile of boards of a side the places of the members whose pattern has it.
pub(crate) fn all_owners(side: Side, tables: &[Part<'_>]) -> [u32; MOST_CELLS]
    requires side { AllByRecursion (λ t. (part_pattern t).side ≡ side) tables.now }
    requires few { length tables.now ≤ most_tables }
    ensures room { length result ≡ 25 }
    ensures owners { (tile : ℕ) → tile < side * side
        → AreOwners side (parts_shown tables.now) tile (slice_index result tile) }
{
    let mut owners = [0; MOST_CELLS];
    for tile in 0..side.cells() {
        owners[usize::from(tile)] = owners_of(side, tables, tile);
    }
    owners
}

/// The places of the members whose pattern has a tile.
fn owners_of(side: Side, tables: &[Part<'_>], tile: u8) -> u32
    requires side { AllByRecursion (λ t. (part_pattern t).side ≡ side) tables.now }
    requires few { length tables.now ≤ most_tables }
    requires tile { tile < side * side }
    ensures { AreOwners side (parts_shown tables.now) tile result }
{
    let transposed = transposed_cell(side, tile);
    let mut owners = 0;
    for (i, table) in tables.iter().enumerate() {
        let mask = table.pattern().mask();
        let place = 2 * i as u8;
        owners = with_if(owners, place, has_cell(mask, tile));
        owners = with_if(owners, place + 1, has_cell(mask, transposed));
    }
    owners
}

/// The mask with one number more where this holds.
fn with_if(mask: u32, number: u8, holds: bool) -> u32
    requires { number < 32 }
    ensures here { IsTrue holds → bit_at result number ≡ 1 }
    ensures others { (x : ℕ) → bit_at mask x ≡ 1 → bit_at result x ≡ 1 }
{
    if holds { with(mask, number) } else { mask }
}

/// The transposed cell of each cell of a board of a side.
pub(crate) fn all_transposed(side: Side) -> [u8; MOST_CELLS]
    ensures room { length result ≡ 25 }
    ensures cells { (cell : ℕ) → cell < side * side
        → slice_index result cell ≡ transposed_cell side cell }
{
    let mut cells = [0; MOST_CELLS];
    for cell in 0..side.cells() {
        cells[usize::from(cell)] = transposed_cell(side, cell);
    }
    cells
}
