//! The search for forbidden strings.

use crate::effects::Effect;
use crate::grids::Grid;
use crate::indices::Index;
use crate::strings::{Child, FoundString, Strings, number_of};
use move_strings::rank_of_move;
use puz_board::{MOVES, Move};
use std::alloc::{AllocError, Global};

/// A search that lengthens strings move by move.
#[derive(Drop)]
struct StringSearch {
    strings: Strings,
    index: Index,
    grid: Grid,
    /// The moves of the string that is lengthened.
    moves: Vec<Move>,
}

/// The strings of up to so many moves that have no forbidden one in them, and the forbidden ones.
pub(crate) fn find(alloc: Global, longest: u8) -> Result<Strings, AllocError> {
    let mut search = StringSearch {
        strings: Strings::new(alloc),
        index: Index::new(alloc)?,
        grid: Grid::new(),
        moves: Vec::new(alloc),
    };
    search.index.push(alloc, Effect::NONE)?;
    let mut start = 0;
    for _ in 0..longest {
        let end = search.strings.count();
        search.lengthen_all(alloc, start, end)?;
        start = end;
    }
    Ok(search.strings)
}

impl StringSearch {
    /// Lengthens the strings from one number to another.
    fn lengthen_all(&mut self, alloc: Global, start: usize, end: usize) -> Result<(), AllocError> {
        for number in start..end {
            self.lengthen(alloc, number_of(number)?)?;
        }
        Ok(())
    }

    /// Lengthens a string by each move.
    fn lengthen(&mut self, alloc: Global, string: u32) -> Result<(), AllocError> {
        self.strings.put_moves(string, &mut self.moves)?;
        self.play();
        let mut children = [Child::LeftOut; 4];
        for mv in MOVES.iter() {
            children[usize::from(rank_of_move(*mv))] = self.child(alloc, string, *mv)?;
        }
        self.take_back();
        self.strings.push_children(children)
    }

    /// What the string on the grid is with one more move.
    fn child(&mut self, alloc: Global, front: u32, mv: Move) -> Result<Child, AllocError> {
        let Some(tail) = self.strings.next_tail(front, mv) else {
            return Ok(Child::LeftOut);
        };
        let effect = self.index.effect(front).after(self.grid.slide(mv));
        match self.index.find(&effect) {
            Some(witness) => self.strings.forbid(FoundString {
                front,
                last: mv,
                witness,
            }),
            None => {
                self.index.push(alloc, effect)?;
                self.strings.keep(front, mv, tail)
            }
        }
    }

    /// Makes the moves on the grid.
    fn play(&mut self) {
        for mv in self.moves.as_slice() {
            self.grid.make(*mv);
        }
    }

    /// Takes the moves back.
    fn take_back(&mut self) {
        for mv in self.moves.as_slice().iter().rev() {
            self.grid.make(mv.reverse());
        }
    }
}
