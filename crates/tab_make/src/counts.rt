//! How few moves lead to the tiles at home, found layer by layer.

ghost use Rattle.std.specs.Prelude.{◌≡◌, ◌<◌, ◌+◌, ◌^◌, IfErr, IfNone, IfOk, IfSome, length};
ghost use Rattle.tab_make.specs.Faults.{IsBuildFault};

use crate::entries::entry_of;
use crate::faults::{MakeFault, Unmade};
use crate::grids::PatternGrid;
use crate::hosts::Host;
use crate::layers::layer;
use crate::shapes::Shapes;
use crate::steps::Steps;
use crate::turns::{ORDERS_OF_WORD, add, take_order};
use rayon::prelude::*;
use std::alloc::Global;
use std::thread::Threads;
use tab_file::{GREATEST_COUNT, NO_WAY_HOME};
use work_run::Gate;

/// How many orders the shapes of one piece of the work have together.
const PIECE: usize = 32768;

/// The least counts of moves that lead to the tiles at home.
#[derive(Drop)]
pub(crate) struct Counts {
    /// How many orders there are.
    orders: u16,
    /// For each shape and order the count, as an entry. A count above 253 stands there as none.
    entries: Vec<u8>,
    /// Whether there is a count above 253.
    pub(crate) is_passed: bool,
}

impl Counts {
    /// The counts for the pattern whose tiles are the bits of a mask.
    pub(crate) fn new<R: Threads + Sync, G: Gate>(
        host: &Host<'_, R, G>,
        grid: &PatternGrid,
        shapes: &Shapes,
        mask: u32,
    ) -> Result<Counts, MakeFault>
        ensures { IfErr result IsBuildFault }
    {
        let (rt, alloc) = (host.rt, host.alloc);
        let steps = Steps::new(alloc, grid, shapes)?;
        // At home each tile stands on the cell of its number, and the blank is in cell 0.
        let home = shapes.with_cells(mask, 1)?;
        let mut reached = ReachedShapes::at(alloc, shapes, &steps, home)?;
        for before in 0..=GREATEST_COUNT {
            let lists = reached.find_after(rt, alloc, &steps, before)?;
            if lists.as_slice().iter().all(|found| found.shapes.is_empty()) {
                return Ok(reached.counts);
            }
            let Some(entry) = entry_after(before) else {
                reached.counts.is_passed = true;
                return Ok(reached.counts);
            };
            reached.write_lists(&steps, &lists, entry)?;
            host.gate.found(entry, reached.found, reached.counts.all());
        }
        Err(MakeFault::Wrong)
    }

    /// How many counts there are, those that no walk reaches among them.
    fn all(&self) -> u64 {
        self.entries.len() as u64
    }

    /// Whether there is an order of this number.
    #[inline]
    pub(crate) fn has_order(&self, order: u32) -> bool {
        order < u32::from(self.orders)
    }

    /// The count of an order of a shape, as an entry.
    #[inline]
    pub(crate) fn entry(&self, shape: u32, order: u32) -> Result<u8, Unmade> {
        let orders = usize::from(self.orders);
        let first = shape as usize * orders;
        let place = first + order as usize;
        self.entries.get(place).copied().ok_or(Unmade::WrongNumber)
    }

    /// Writes an entry for each order of a set, at a shape.
    fn write(&mut self, shape: u32, orders: &[u64], entry: u8) -> Result<(), Unmade> {
        let count = usize::from(self.orders);
        let first = shape as usize * count;
        let end = first + count;
        if end > self.entries.len() {
            return Err(Unmade::WrongNumber);
        }
        write_entries(orders, &mut self.entries[first..end], entry)
    }
}

/// The entry of the layer after another one, where its count is at most 253.
fn entry_after(before: u8) -> Option<u8>
    ensures entry { IfSome result (λ entry. entry ≡ before + 1) }
    ensures above { IfNone result (253 < before + 1) }
{
    entry_of(u32::from(before) + 1)
}

/// What walks from the tiles at home have reached.
#[derive(Drop)]
struct ReachedShapes {
    counts: Counts,
    /// How many counts are found.
    found: u64,
    /// How many words a set of orders has.
    words: u16,
    /// The last layer that reached each shape.
    last: Vec<u8>,
    /// The orders of each shape in that layer.
    last_orders: Vec<u64>,
    /// The last layer that reached a shape one move away from each shape, so that the next may reach that shape.
    near: Vec<u8>,
    ghost some: { 0 < words },
}

impl ReachedShapes {
    /// What is reached before any move, with the tiles in the last order of a shape.
    fn at(
        alloc: Global,
        shapes: &Shapes,
        steps: &Steps,
        home: u32,
    ) -> Result<ReachedShapes, Unmade> {
        let orders = steps.turns.orders;
        let words = orders.div_ceil(ORDERS_OF_WORD as u16);
        let count = shapes.as_slice().len();
        let counts = Counts {
            orders,
            entries: vec![in alloc; NO_WAY_HOME; of_each(count, orders)?]?,
            is_passed: false,
        };
        let mut reached = ReachedShapes {
            counts,
            found: 1,
            words,
            last: vec![in alloc; NO_WAY_HOME; count]?,
            last_orders: vec![in alloc; 0; of_each(count, words)?]?,
            near: vec![in alloc; NO_WAY_HOME; count]?,
        };
        let mut first = vec![in alloc; 0; usize::from(words)]?;
        let last = orders.checked_sub(1).ok_or(Unmade::WrongNumber)?;
        add(usize::from(last), first.as_mut_slice())?;
        reached.write(steps, home, first.as_slice(), 0)?;
        Ok(reached)
    }

    /// What the layer after another one reaches, in lists.
    fn find_after<R: Threads + Sync>(
        &self,
        rt: &R,
        alloc: Global,
        steps: &Steps,
        before: u8,
    ) -> Result<Vec<ShapeOrders>, Unmade> {
        let near = layer(rt, alloc, self.near_layers()?, before)?;
        let piece = PIECE / usize::from(self.counts.orders).max(1);
        near.as_slice()
            .par_chunks(piece.max(1))
            .with_min_len(1)
            .map(|shapes: &[u32]| -> Result<ShapeOrders, Unmade> {
                self.find(alloc, steps, shapes, before)
            })
            .collect::<Result<Vec<ShapeOrders>, Unmade>>(rt, alloc)?
    }

    /// The last layer that reached a shape one move away from each shape.
    fn near_layers(&self) -> Result<&[u8], Unmade>
        ensures { IfOk result (λ near. length near.now < 2 ^ 32) }
    {
        let near = self.near.as_slice();
        if near.len() <= u32::MAX as usize {
            Ok(near)
        } else {
            Err(Unmade::WrongNumber)
        }
    }

    /// What the layer after another one reaches of some shapes.
    fn find(
        &self,
        alloc: Global,
        steps: &Steps,
        shapes: &[u32],
        before: u8,
    ) -> Result<ShapeOrders, Unmade> {
        let mut found = ShapeOrders::new(alloc);
        let mut orders = vec![in alloc; 0; usize::from(self.words)]?;
        for shape in shapes {
            orders.as_mut_slice().fill(0);
            self.find_orders(steps, *shape, before, orders.as_mut_slice())?;
            let count = count_of(orders.as_slice());
            if count != 0 {
                found.count = found.count.wrapping_add(count);
                found.shapes.push(*shape)?;
                found.orders.extend_from_slice(orders.as_slice())?;
            }
        }
        Ok(found)
    }

    /// Finds the orders of a shape that the layer after another one reaches. Those one move away from that other layer are
    /// in the layer after it, or in the one before it, which was then the last to reach the shape.
    fn find_orders(
        &self,
        steps: &Steps,
        shape: u32,
        before: u8,
        orders: &mut [u64],
    ) -> Result<(), Unmade> {
        for step in steps.to(shape)? {
            let last = self
                .last
                .get(step.shape as usize)
                .ok_or(Unmade::WrongNumber)?;
            if *last == before {
                let last_orders = self.last_orders_of(step.shape)?;
                steps.turns.add_turned(step.turn, last_orders, orders)?;
            }
        }
        remove_all(self.last_orders_of(shape)?, orders);
        Ok(())
    }

    /// The orders of a shape in the last layer that reached it.
    #[inline]
    fn last_orders_of(&self, shape: u32) -> Result<&[u64], Unmade> {
        let words = usize::from(self.words);
        let first = shape as usize * words;
        self.last_orders
            .get(first..first + words)
            .ok_or(Unmade::WrongNumber)
    }

    /// Writes what a layer reaches.
    fn write_lists(
        &mut self,
        steps: &Steps,
        lists: &[ShapeOrders],
        entry: u8,
    ) -> Result<(), Unmade> {
        for found in lists {
            self.write_list(steps, found, entry)?;
            self.found = self.found.wrapping_add(found.count);
        }
        Ok(())
    }

    /// Writes what a layer reaches of some shapes.
    fn write_list(&mut self, steps: &Steps, found: &ShapeOrders, entry: u8) -> Result<(), Unmade> {
        let sets = found.orders.chunks(usize::from(self.words));
        for (shape, orders) in found.shapes.iter().zip(sets) {
            self.write(steps, *shape, orders, entry)?;
        }
        Ok(())
    }

    /// Writes the orders of a shape that a layer reaches.
    fn write(
        &mut self,
        steps: &Steps,
        shape: u32,
        orders: &[u64],
        entry: u8,
    ) -> Result<(), Unmade> {
        *self
            .last
            .get_mut(shape as usize)
            .ok_or(Unmade::WrongNumber)? = entry;
        let words = usize::from(self.words);
        let first = shape as usize * words;
        let end = first + words;
        if end > self.last_orders.len() {
            return Err(Unmade::WrongNumber);
        }
        copy(orders, &mut self.last_orders[first..end]);
        self.counts.write(shape, orders, entry)?;
        for step in steps.to(shape)? {
            *self
                .near
                .get_mut(step.shape as usize)
                .ok_or(Unmade::WrongNumber)? = entry;
        }
        Ok(())
    }
}

/// How many there are where each of some shapes has as many.
fn of_each(shapes: usize, count: u16) -> Result<usize, Unmade> {
    shapes
        .checked_mul(usize::from(count))
        .ok_or(Unmade::WrongNumber)
}

/// Shapes, and for each a set of its orders.
#[derive(Drop)]
struct ShapeOrders {
    /// How many orders these are.
    count: u64,
    shapes: Vec<u32>,
    orders: Vec<u64>,
}

impl ShapeOrders {
    fn new(alloc: Global) -> ShapeOrders {
        ShapeOrders {
            count: 0,
            shapes: Vec::new(alloc),
            orders: Vec::new(alloc),
        }
    }
}

/// How many orders a set has.
fn count_of(orders: &[u64]) -> u64 {
    let mut count: u64 = 0;
    for word in orders {
        count = count.wrapping_add(u64::from(word.count_ones()));
    }
    count
}

/// Copies a set of orders.
fn copy(orders: &[u64], to: &mut [u64]) {
    for (word, other) in to.iter_mut().zip(orders) {
        *word = *other;
    }
}

/// Removes the orders of a set from another.
fn remove_all(others: &[u64], orders: &mut [u64]) {
    for (word, other) in orders.iter_mut().zip(others) {
        *word &= !*other;
    }
}

/// Writes an entry for each order of a set.
fn write_entries(orders: &[u64], entries: &mut [u8], entry: u8) -> Result<(), Unmade> {
    for (word, entries) in orders.iter().zip(entries.chunks_mut(ORDERS_OF_WORD)) {
        write_entries_of_word(*word, entries, entry)?;
    }
    Ok(())
}

/// Writes an entry for each order of a word.
#[inline]
fn write_entries_of_word(word: u64, entries: &mut [u8], entry: u8) -> Result<(), Unmade> {
    let mut rest = word;
    while rest != 0 {
        let place = entries
            .get_mut(take_order(&mut rest))
            .ok_or(Unmade::WrongNumber)?;
        *place = entry;
    }
    Ok(())
}
