//! Small trees that are searched for, with citations of lemmas that there are.

ghost use Rattle.std.specs.Prelude.{◌≡◌};
ghost use Rattle.puz_board.specs.Boards.{side_of};

use crate::keys::Tiles;
use crate::leaves::Leaf;
use crate::lemmas::Lemmas;
use crate::positions::Steps;
use crate::trees::Branch;
use log_file::tree_bytes::{BRANCH, CITATION};
use puz_board::{Board, MOVES, Move};
use set_sum::{Bundle, Sums};
use std::alloc::{AllocError, Global};

/// All sets are asked: none says so much.
const ALL: u16 = u16::MAX;

/// A board that follows a walk, and trees that refute boards beside it.
#[derive(Drop)]
pub(crate) struct Refuter<'a> {
    sums: Sums<'a>,
    tiles: Tiles,
    steps: Steps,
    /// The moves from the root to the board.
    path: Vec<Move>,
    /// The bytes of the trees, the older ones first.
    pub(crate) trees: Vec<u8>,
    /// How many bytes there may be.
    most: usize,
}

impl<'a> Refuter<'a> {
    /// One that stands on the root's board.
    pub(crate) fn new(alloc: Global, bundle: &'a Bundle<'a>, board: &Board) -> Refuter<'a>
        requires { side_of board.now ≡ bundle.now.side }
    {
        Refuter {
            sums: Sums::new(bundle, board),
            tiles: Tiles::new(board),
            steps: Steps::on(board.side()),
            path: Vec::new(alloc),
            trees: Vec::new(alloc),
            most: 0,
        }
    }

    /// Adds a tree of at most so many bytes that refutes so many moves after the reverse of the move that led to the last of
    /// these branches. Answers whether there is one; else nothing is added.
    pub(crate) fn refute_reverse(
        &mut self,
        lemmas: &Lemmas,
        branches: &[Branch],
        remaining: u8,
        most: usize,
    ) -> Result<bool, AllocError> {
        let Some(branch) = branches.last() else {
            return Ok(false);
        };
        let Some(arriving) = branch.arriving else {
            return Ok(false);
        };
        self.follow(branches)?;
        let start = self.trees.len();
        self.most = start.saturating_add(most);
        let is_refuted = self.refute_after(lemmas, arriving.reverse(), remaining)?;
        if !is_refuted {
            self.trees.truncate(start);
        }
        Ok(is_refuted)
    }

    /// Goes to the board of the last of these branches, from the root.
    fn follow(&mut self, branches: &[Branch]) -> Result<(), AllocError> {
        let shared = self
            .path
            .iter()
            .zip(branches.iter().skip(1))
            .take_while(|(mv, branch)| branch.arriving == Some(**mv))
            .count();
        self.go_back(shared);
        for branch in branches.iter().skip(1).skip(shared) {
            if let Some(mv) = branch.arriving {
                self.go(mv);
                self.path.push(mv)?;
            }
        }
        Ok(())
    }

    /// Takes moves back until so many are left.
    fn go_back(&mut self, left: usize) {
        for _ in left..self.path.len() {
            if let Some(mv) = self.path.pop() {
                self.go(mv.reverse());
            }
        }
    }

    /// Makes a move.
    fn go(&mut self, mv: Move) {
        if self.sums.step(mv).is_some() {
            self.slide(mv);
        }
    }

    /// Moves the tiles alone.
    fn slide(&mut self, mv: Move)
        ensures { self.new.sums ≡ self.old.sums }
    {
        if let Some(to) = self.steps.after(self.tiles.blank, mv) {
            self.tiles.slide(to);
        }
    }

    /// Adds a tree that refutes so many moves from the board to which a move leads, if there is one. The board goes there and back.
    #[cycle(refute)]
    fn refute_after(&mut self, lemmas: &Lemmas, mv: Move, remaining: u8) -> Result<bool, AllocError>
        ensures { self.new.sums ≡ self.old.sums }
    {
        let Some(step) = self.sums.step(mv) else {
            return Ok(true);
        };
        let from = self.tiles.blank;
        self.slide(mv);
        let is_refuted = self.refute(lemmas, mv, remaining);
        self.tiles.slide(from);
        self.sums.take_back(&step);
        is_refuted
    }

    /// Adds a tree that refutes so many moves from the board, to which a move led. Where it isn't found, what was added is no tree.
    #[cycle(refute)]
    fn refute(&mut self, lemmas: &Lemmas, arriving: Move, remaining: u8) -> Result<bool, AllocError>
        ensures { self.new.sums ≡ self.old.sums }
    {
        // A bundle has a set.
        let _sets = self.sums.sets();
        let leaf = Leaf::best(&mut self.sums, 0, ALL);
        if leaf.raised >= u16::from(remaining) {
            return self.add(&[leaf.byte(u16::from(remaining))]);
        }
        if let Some(number) = lemmas.citable(&self.tiles, remaining) {
            return Ok(self.add(&[CITATION])? && self.add(&number.to_be_bytes())?);
        }
        if leaf.raised == 0 && self.sums.is_goal() || !self.add(&[BRANCH])? {
            return Ok(false);
        }
        for mv in &MOVES {
            if *mv == arriving.reverse() {
                continue;
            }
            if !self.refute_after(lemmas, *mv, remaining - 1)? {
                return Ok(false);
            }
        }
        Ok(true)
    }

    /// Adds bytes, if there may be so many.
    fn add(&mut self, bytes: &[u8]) -> Result<bool, AllocError>
        ensures { self.new.sums ≡ self.old.sums }
    {
        if self.trees.len().saturating_add(bytes.len()) > self.most {
            return Ok(false);
        }
        self.trees.extend_from_slice(bytes)?;
        Ok(true)
    }
}
