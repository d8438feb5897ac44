//! Logs of many lemmas, made of one tree.
//!
//! The first branch of a board is a lemma where that makes the log shorter, and is cited from then on. Others are lemmas so that
//! workers can share the log: most of what citations save is spent on them. The root of a lemma has one node more than the
//! branch had: that of the reverse of the arriving move, which is searched for.

use crate::cuts::Cuts;
use crate::lemmas::Lemmas;
use crate::log_bytes::LogBytes;
use crate::refuting::Refuter;
use crate::repeats::{First, Repeats};
use crate::trees::{Refutation, TreeStep, TreeWalk, most_steps};
use log_file::tree_bytes::{BRANCH, CITATION};
use std::alloc::{AllocError, Global};
use std::ops::Range;
use tab_make::MakeFault;

/// What becomes of a branch.
#[derive(Clone, Copy)]
enum Plan {
    /// It stays where it is.
    Inline,
    /// It is a lemma, if that makes the log shorter.
    Shared(First),
    /// It is a lemma, for whose reverse move there is a tree.
    Cut,
}

/// A branch that is written.
#[derive(Clone, Copy)]
struct Open {
    /// Where its bytes begin.
    start: usize,
    /// Where the node of the reverse of the arriving move belongs.
    reverse: usize,
    /// Where the trees of reverse moves begin that are kept for it and those inside it.
    trees: usize,
    plan: Plan,
    /// Whether branches inside it may be cut off.
    is_open: bool,
}

/// A tree that becomes a log.
#[derive(Drop)]
pub(crate) struct Writer<'a> {
    walk: TreeWalk,
    refuter: Refuter<'a>,
    lemmas: Lemmas,
    firsts: Vec<First>,
    cuts: Cuts,
    /// The number of moves that the tree refutes.
    bound: u8,
    /// The bytes of the branches that the walk is in.
    bytes: Vec<u8>,
    /// These branches.
    open: Vec<Open>,
}

impl<'a> Writer<'a> {
    /// A writer of a tree in which this comes again.
    pub(crate) fn new(
        alloc: Global,
        refutation: &Refutation,
        refuter: Refuter<'a>,
        lemmas: Lemmas,
        repeats: Repeats,
    ) -> Result<Writer<'a>, MakeFault> {
        let mut writer = Writer {
            walk: TreeWalk::new(alloc, &refutation.board)?,
            refuter,
            lemmas,
            cuts: Cuts::new(repeats.size),
            firsts: repeats.firsts,
            bound: refutation.bound,
            bytes: Vec::new(alloc),
            open: Vec::new(alloc),
        };
        writer.open(Plan::Inline, true)?;
        Ok(writer)
    }

    /// The log.
    pub(crate) fn write(mut self, tree: &[u8]) -> Result<Vec<u8>, MakeFault> {
        for _ in 0..most_steps(tree) {
            match self.walk.next(tree)? {
                TreeStep::Edge => {}
                TreeStep::Reverse => self.note_reverse(),
                TreeStep::Leaf(leaf) => self.put(leaf)?,
                TreeStep::Branch => self.open_inline()?,
                TreeStep::Long => self.enter_long(tree)?,
                TreeStep::First(number) => self.enter_first(number)?,
                TreeStep::Done => {
                    self.close()?;
                    self.walk.leave();
                }
                TreeStep::End => break,
            }
        }
        self.finish()
    }

    /// Ends the log with the lemma of the root.
    fn finish(self) -> Result<Vec<u8>, MakeFault> {
        let Writer {
            walk,
            mut lemmas,
            bound,
            bytes,
            ..
        } = self;
        lemmas.begin(&walk.tiles, bound, bytes.len())?;
        lemmas.log.add(&bytes)?;
        lemmas.log.finish()
    }

    /// Writes a leaf.
    fn put(&mut self, leaf: u8) -> Result<(), AllocError> {
        self.bytes.push(leaf)?;
        Ok(())
    }

    /// Begins a branch.
    fn open(&mut self, plan: Plan, is_open: bool) -> Result<(), AllocError> {
        let start = self.bytes.len();
        self.bytes.push(BRANCH)?;
        self.open.push(Open {
            start,
            reverse: start,
            trees: self.refuter.trees.len(),
            plan,
            is_open,
        })?;
        Ok(())
    }

    /// Begins a branch that stays where it is.
    fn open_inline(&mut self) -> Result<(), AllocError> {
        let is_open = self.is_open();
        self.open(Plan::Inline, is_open)
    }

    /// Whether branches may be cut off here.
    fn is_open(&self) -> bool {
        self.open.last().is_some_and(|open| open.is_open)
    }

    /// Notes that the node of the reverse move belongs here.
    fn note_reverse(&mut self) {
        if let Some(open) = self.open.last_mut() {
            open.reverse = self.bytes.len();
        }
    }

    /// How many moves are to be refuted from the branch that the walk is in.
    fn remaining(&self) -> u8 {
        self.walk.remaining(self.bound)
    }

    /// Cites a lemma in place of a long branch, or begins the branch.
    fn enter_long(&mut self, tree: &[u8]) -> Result<(), MakeFault> {
        let remaining = self.remaining();
        match self.lemmas.citable(&self.walk.tiles, remaining) {
            Some(number) => {
                self.cite(number)?;
                self.walk.skip(tree)?;
            }
            None => self.open_inline()?,
        }
        Ok(())
    }

    /// Writes a citation.
    fn cite(&mut self, number: u32) -> Result<(), AllocError> {
        self.bytes.push(CITATION)?;
        self.bytes.extend_from_slice(&number.to_be_bytes())?;
        Ok(())
    }

    /// Begins the first branch of a board, which has this number.
    fn enter_first(&mut self, number: usize) -> Result<(), MakeFault> {
        if self.lemmas.is_full() {
            return Ok(self.open_inline()?);
        }
        let Some(first) = self.firsts.get(number).copied() else {
            return Ok(self.open_inline()?);
        };
        let cost = self.lemmas.cost();
        if first.saved(first.size as usize) > cost {
            let is_open = self.cuts.is_too_long(&first);
            self.open(Plan::Shared(first), is_open)?;
            return Ok(());
        }
        if self.is_open() && self.try_cut(&first, cost)? {
            return Ok(());
        }
        Ok(self.open_inline()?)
    }

    /// Cuts the first branch of a board off, where that doesn't add too much to the log. Answers whether it does. The branch
    /// then begins.
    fn try_cut(&mut self, first: &First, cost: usize) -> Result<bool, MakeFault> {
        let Some(most) = self.cuts.most_node(first, cost) else {
            return Ok(false);
        };
        let trees = self.refuter.trees.len();
        if !self.refute_reverse(most)? {
            return Ok(false);
        }
        let node = self.added_since(trees);
        self.cuts.cut(first, node, cost);
        self.open(Plan::Cut, false)?;
        if let Some(open) = self.open.last_mut() {
            open.trees = trees;
        }
        Ok(true)
    }

    /// How many bytes the trees of reverse moves have from this place on.
    fn added_since(&self, trees: usize) -> usize {
        self.refuter.trees.len().saturating_sub(trees)
    }

    /// Looks for a tree of at most so many bytes for the reverse of the move that led to the branch that the walk is in.
    fn refute_reverse(&mut self, most: usize) -> Result<bool, MakeFault> {
        let remaining = self.remaining().saturating_sub(1);
        let branches = &self.walk.branches;
        let is_refuted = self
            .refuter
            .refute_reverse(&self.lemmas, branches, remaining, most)?;
        Ok(is_refuted)
    }

    /// Ends the innermost branch, which may become a lemma.
    fn close(&mut self) -> Result<(), MakeFault> {
        let Some(open) = self.open.pop() else {
            return Ok(());
        };
        let is_lemma = !self.lemmas.is_full()
            && match open.plan {
                Plan::Inline => false,
                Plan::Cut => true,
                Plan::Shared(first) => self.try_share(&open, &first)?,
            };
        if is_lemma {
            self.make_lemma(&open)?;
        }
        self.refuter.trees.truncate(open.trees);
        Ok(())
    }

    /// Writes a tree for the reverse move, where a lemma of the branch makes the log shorter. Answers whether it does.
    fn try_share(&mut self, open: &Open, first: &First) -> Result<bool, MakeFault> {
        let size = self.bytes.len().saturating_sub(open.start);
        let saved = first.saved(size);
        let cost = self.lemmas.cost();
        if saved <= cost || !self.refute_reverse(saved - cost)? {
            return Ok(false);
        }
        let node = self.added_since(open.trees);
        self.cuts.save(first, node, cost);
        Ok(true)
    }

    /// Makes a lemma of the branch, and cites it in its place.
    fn make_lemma(&mut self, open: &Open) -> Result<(), MakeFault> {
        let remaining = self.remaining();
        let tiles = self.walk.tiles;
        let end = self.bytes.len();
        let trees_end = self.refuter.trees.len();
        let added = self.added_since(open.trees);
        let length = end.saturating_sub(open.start).saturating_add(added);
        let number = self.lemmas.begin(&tiles, remaining, length)?;
        let log = &mut self.lemmas.log;
        add_part(log, &self.bytes, open.start..open.reverse)?;
        add_part(log, &self.refuter.trees, open.trees..trees_end)?;
        add_part(log, &self.bytes, open.reverse..end)?;
        self.bytes.truncate(open.start);
        self.cite(number)?;
        Ok(())
    }
}

/// Adds a part of some bytes to a lemma.
fn add_part(log: &mut LogBytes, bytes: &[u8], part: Range<usize>) -> Result<(), MakeFault> {
    match bytes.get(part) {
        Some(part) => log.add(part),
        None => Err(MakeFault::Wrong),
    }
}
