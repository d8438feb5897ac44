//! The slots of all placements of one size, by their sets of cells.

ghost use Rattle.std.specs.Prelude.{◌≡◌, ℕ, ◌*◌, ◌^◌, ◌<◌, true, IfOk, IfSome, List, OnOk, count_ones, length};
ghost use Rattle.puz_board.specs.Masks.{IsMaskOf};
ghost use Rattle.pat_place.specs.Patterns.{has};
ghost use Rattle.pat_place.specs.Placements.{IsFree};
ghost use Rattle.pat_place.specs.Regions.{IsSlot};
ghost use Rattle.pat_place.specs.StoredSlots.{AreAllSlots, AreSlots};

use crate::patterns::Pattern;
use crate::placements::Placement;
use crate::set_numbers::SetNumbers;
use crate::slots::{find_region, regions};
use puz_board::masks::all_below;
use std::alloc::{AllocError, Global};
use std::marker::Model;

/// The slots of the free cells of all placements of so many tiles. They depend on the set of the tiles' cells alone.
///
/// It is made once, and never written again.
#[derive(Drop)]
pub struct SlotTable {
    side: u8,
    /// How many cells the board has.
    cells: usize,
    /// Where a set is kept, if it is.
    numbers: SetNumbers,
    /// The set of each number.
    masks: Vec<u32>,
    /// For each set and cell the slot.
    slots: Vec<u8>,
}

impl Model for SlotTable {
    ghost use Rattle.std.specs.Prelude.{ℕ};

    ghost Value = { ℕ };

    ghost use Rattle.pat_place.specs.StoredSlots.{IsStoredSlots, side_shown};

    ghost view = { side_shown };

    ghost invariant = { IsStoredSlots };
}

impl SlotTable {
    /// The slots for the placements of as many tiles as the pattern has, on boards of its side. Want of memory leaves
    /// nothing behind. It may keep any sets or none; only speed depends on it.
    pub fn build(alloc: Global, pattern: &Pattern) -> Result<SlotTable, AllocError>
        ensures { IfOk result (λ side. side ≡ pattern.now.side) }
    {
        let side = pattern.side();
        let size = u32::from(pattern.size());
        let mut masks = Vec::new(alloc);
        let mut slots = Vec::new(alloc);
        let all = 1u32 << side.cells();
        let mut set = all_below(pattern.size());
        for _ in 0..all {
            if set >= all {
                break;
            }
            // Each set has this size, but only speed depends on that.
            if set.count_ones() == size {
                push_set(pattern, set, &mut masks, &mut slots)?;
            }
            set = next_of_size(set);
        }
        let numbers = SetNumbers::of_sets(alloc, masks.as_slice())?;
        Ok(SlotTable {
            side: side.get(),
            cells: usize::from(side.cells()),
            numbers,
            masks,
            slots,
        })
    }

    /// The slot of a free cell of a placement, where the set of its cells is kept. It may answer none for any set; only
    /// speed depends on it.
    #[inline]
    pub fn slot(&self, placement: &Placement, cell: u8) -> Option<u8>
        requires side { placement.now.pattern.side ≡ self.now }
        requires free { IsFree placement.now.pattern.side placement.now.cells cell }
        ensures { IfSome result (IsSlot placement.now.pattern.side placement.now.cells cell) }
    {
        self.slot_in(placement.occupied(), cell)
    }

    /// As `slot`, of a placement whose cells are those of a set.
    #[inline]
    pub fn slot_in(&self, set: u32, cell: u8) -> Option<u8>
        requires { cell < self.now * self.now }
        ensures { (cells : List ℕ) → IsMaskOf set (λ c. has cells c ≡ true)
            → IsFree self.now cells cell
            → IfSome result (IsSlot self.now cells cell) }
    {
        let number = self.numbers.number_of(set)?;
        let masks = self.masks.as_slice();
        let slots = self.slots.as_slice();
        if number >= masks.len() || masks[number] != set {
            return None;
        }
        Some(slots[number * self.cells + usize::from(cell)])
    }
}

/// The next greater mask of as many cells, where there is one: the lowest run of cells gives its uppermost cell upwards, and
/// the others go down to the lowest cells. No clause speaks of it: who goes over sets by it counts their cells.
pub fn next_of_size(set: u32) -> u32 {
    let lowest = set.trailing_zeros();
    let carried = set.wrapping_add(1u32.wrapping_shl(lowest));
    let others = (set ^ carried).wrapping_shr(lowest.wrapping_add(2));
    carried | others
}

/// Puts a set of cells and the slots of its free cells behind those that are there. Without them only speed is lost.
fn push_set(
    pattern: &Pattern,
    set: u32,
    masks: &mut Vec<u32>,
    slots: &mut Vec<u8>,
) -> Result<(), AllocError>
    requires bits { set < 2 ^ (pattern.now.side * pattern.now.side) }
    requires size { count_ones set ≡ length pattern.now.tiles }
    requires slots { AreAllSlots pattern.now.side masks.old.items slots.old.items }
    ensures { OnOk result (AreAllSlots pattern.now.side masks.new.items slots.new.items) }
{
    let row = slots_of(&Placement::of_set(pattern, set));
    slots.extend_from_slice(&row[..usize::from(pattern.side().cells())])?;
    masks.push(set)?;
    Ok(())
}

/// The slot of each free cell of a placement, and any number for each other cell.
fn slots_of(placement: &Placement) -> [u8; 25]
    ensures len { length result ≡ 25 }
    ensures slots { AreSlots placement.now.pattern.side placement.now.cells result }
{
    let regions = regions(placement);
    let mut slots = [0; 25];
    for cell in 0..placement.pattern().side().cells() {
        if let Some(slot) = find_region(regions.as_slice(), cell) {
            slots[usize::from(cell)] = slot as u8;
        }
    }
    slots
}
