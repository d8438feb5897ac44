//! The strings that are found.

use move_strings::rank_of_move;
use puz_board::Move;
use std::alloc::{AllocError, Global};

/// How many moves a string has at most.
pub(crate) const LONGEST: u8 = 14;

/// The number of the empty string.
pub(crate) const EMPTY: u32 = 0;

/// A string that has no forbidden one in it.
#[derive(Clone, Copy)]
struct FreeString {
    /// The number of the string without its last move.
    front: u32,
    /// The last move.
    last: Move,
    /// The number of the string without its first move.
    tail: u32,
}

/// What a string is with one more move.
#[derive(Clone, Copy)]
pub(crate) enum Child {
    /// A string that has no forbidden one in it, with its number.
    Kept(u32),
    /// The forbidden string with this number.
    Forbidden(u32),
    /// A string that has a shorter forbidden one in it.
    LeftOut,
}

/// A forbidden string.
#[derive(Clone, Copy)]
pub(crate) struct FoundString {
    /// The number of the string without its last move.
    pub(crate) front: u32,
    /// The last move.
    pub(crate) last: Move,
    /// The number of a string that comes before it and has the same effect.
    pub(crate) witness: u32,
}

/// The strings that have no forbidden one in them, in order, and the forbidden ones.
#[derive(Drop)]
pub(crate) struct Strings {
    /// Those but the empty one.
    nodes: Vec<FreeString>,
    /// What the strings are with one more move, as far as they have been tried.
    children: Vec<[Child; 4]>,
    pub(crate) found: Vec<FoundString>,
}

impl Strings {
    /// The empty string alone.
    pub(crate) fn new(alloc: Global) -> Strings {
        Strings {
            nodes: Vec::new(alloc),
            children: Vec::new(alloc),
            found: Vec::new(alloc),
        }
    }

    /// How many strings have no forbidden one in them, so far.
    pub(crate) fn count(&self) -> usize {
        self.nodes.len().saturating_add(1)
    }

    /// What a string is with one more move.
    #[inline]
    pub(crate) fn child(&self, string: u32, mv: Move) -> Child {
        match self.children.get(string as usize) {
            Some(children) => children[usize::from(rank_of_move(mv))],
            None => Child::LeftOut,
        }
    }

    /// The number of a string without its first move. The empty one stays.
    #[inline]
    pub(crate) fn tail(&self, string: u32) -> u32 {
        self.node(string).map_or(EMPTY, |node| node.tail)
    }

    /// The number of a string without its last move. The empty one stays.
    #[inline]
    pub(crate) fn front(&self, string: u32) -> u32 {
        self.node(string).map_or(EMPTY, |node| node.front)
    }

    /// The number of a string with one more move and without its first one, unless that has a forbidden string in it.
    #[inline]
    pub(crate) fn next_tail(&self, front: u32, mv: Move) -> Option<u32> {
        if front == EMPTY {
            return Some(EMPTY);
        }
        match self.child(self.tail(front), mv) {
            Child::Kept(tail) => Some(tail),
            _ => None,
        }
    }

    /// Adds a string that has no forbidden one in it, and answers its number.
    pub(crate) fn keep(&mut self, front: u32, last: Move, tail: u32) -> Result<Child, AllocError> {
        self.nodes.push(FreeString { front, last, tail })?;
        Ok(Child::Kept(number_of(self.nodes.len())?))
    }

    /// Adds a forbidden string, and answers its number.
    pub(crate) fn forbid(&mut self, found: FoundString) -> Result<Child, AllocError> {
        let number = number_of(self.found.len())?;
        self.found.push(found)?;
        Ok(Child::Forbidden(number))
    }

    /// Adds what the next string is with one more move.
    pub(crate) fn push_children(&mut self, children: [Child; 4]) -> Result<(), AllocError> {
        self.children.push(children)?;
        Ok(())
    }

    /// The moves of a string.
    pub(crate) fn moves_of(&self, alloc: Global, string: u32) -> Result<Vec<Move>, AllocError> {
        let mut moves = Vec::new(alloc);
        self.put_moves(string, &mut moves)?;
        Ok(moves)
    }

    /// Puts the moves of a string into a list.
    pub(crate) fn put_moves(&self, string: u32, moves: &mut Vec<Move>) -> Result<(), AllocError> {
        moves.clear();
        let mut at = string;
        for _ in 0..LONGEST {
            let Some(node) = self.node(at) else {
                break;
            };
            moves.push(node.last)?;
            at = node.front;
        }
        moves.reverse();
        Ok(())
    }

    /// A string but the empty one.
    #[inline]
    fn node(&self, string: u32) -> Option<&FreeString> {
        self.nodes.get((string as usize).checked_sub(1)?)
    }
}

/// A count as a number. Where there are more than numbers, they are told to take too much memory.
pub(crate) fn number_of(count: usize) -> Result<u32, AllocError> {
    u32::try_from(count).ok().ok_or(AllocError)
}
