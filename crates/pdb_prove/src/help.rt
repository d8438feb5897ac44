//! What helps with hard claims.

ghost use Rattle.std.specs.Prelude.{◌≡◌, ◌*◌, ◌^◌, ◌<◌, IfSome, IsTrue, None, false, length};
ghost use Rattle.std.proofs.Props.{props};
ghost use Rattle.move_strings.specs.Automata.{IsState};
ghost use Rattle.puz_board.specs.declared.moves.Move.{Move};
ghost use Rattle.puz_search.specs.Guides.{LeavesOutReturn, LeavesOutReversals};
ghost use Rattle.puz_search.specs.StoredGuides.{bundle_of};
ghost use Rattle.pdb_prove.specs.Answers.{IsFoundFor};
ghost use Rattle.pdb_prove.specs.Steps.{IsPosedOver, IsRoomFor, IsWantedIf, PrunesFor, claim_of};

use crate::answers::{FEW_BOARDS, Finding, answer_by};
use crate::asked::Posed;
use crate::words::{TableWords, wordable};
use move_strings::Automaton;
use puz_board::{Move, Side};
use puz_search::{Guide, Sets};
use puz_walk::WordBundle;
use set_sum::Bundle;
use std::alloc::Global;
use std::sync::atomic::{AtomicU64, Ordering};
use std::thread::Threads;
use string_make::draft_of;
use work_run::{Gate, Workers};

/// The most moves of the strings that a search for a hard claim leaves out.
const LONGEST: u8 = 12;

/// To make the words of a table takes about as long as to search over sums for one board for each so many of its placements.
const PLACEMENTS_FOR_A_BOARD: u64 = 3;

/// What helps the searches for hard claims over sets. An automaton of strings is made when the first of them wants it, and kept
/// for the rest. Words are wanted once the hard claims have been searched for over sums for a third as many boards as the tables
/// have placements together. Where there is no memory for either, the searches go on without it.
#[derive(Drop)]
pub(crate) struct Help<'a> {
    pub(crate) sets: Sets<'a>,
    /// Whether the automaton of strings was wanted already.
    is_made: bool,
    /// The automaton of strings, where it was made and there was memory for it.
    pub(crate) strings: Option<Automaton>,
    /// How many boards more may be expanded over sums before words are wanted. None where they were wanted already, or there
    /// can't be any.
    before_words: Option<u64>,
    /// The memory for words, once they are wanted, where there is any.
    pub(crate) words: Option<TableWords>,
    ghost same_side: { IfSome strings (PrunesFor (bundle_of sets).side) } by { Prim.hlevel props },
}

impl<'a> Help<'a> {
    /// Help over the tables of a bundle, of which nothing is made yet. Words may be wanted only where this is said.
    pub(crate) fn over_tables(bundle: &'a Bundle<'a>, may_want_words: bool) -> Help<'a>
        ensures sets { bundle_of result.sets ≡ bundle.now }
        ensures unprepared { result.words ≡ None }
        ensures goes_on { may_want_words ≡ false → result.before_words ≡ None }
    {
        let before_words = if may_want_words {
            wordable(bundle).map(|count| count / PLACEMENTS_FOR_A_BOARD)
        } else {
            None
        };
        Help {
            sets: Sets::Sums(bundle),
            is_made: false,
            strings: None,
            before_words,
            words: None,
        }
    }

    /// Help over the words of the tables, with the automaton of strings where it was made.
    pub(crate) fn over_words(words: &'a WordBundle<'a>, strings: Option<Automaton>) -> Help<'a>
        requires { IfSome strings (PrunesFor words.now.side) }
        ensures sets { bundle_of result.sets ≡ words.now }
        ensures unprepared { result.words ≡ None }
        ensures goes_on { result.before_words ≡ None }
    {
        Help {
            sets: Sets::Words(words),
            is_made: true,
            strings,
            before_words: None,
            words: None,
        }
    }

    /// What is found by all workers for a claim that one thread doesn't find soon. None where words are wanted first, and the
    /// memory for them is there.
    pub(crate) fn search<H: Threads + Sync, G: Gate + Sync>(
        &mut self,
        posed: Posed<'_>,
        workers: &Workers<'_, H, G>,
    ) -> Option<Finding>
        requires posed { IsPosedOver (bundle_of self.old.sets) posed }
        requires prunes { PrunesFor (bundle_of self.old.sets).side posed.reversals.now }
        requires unprepared { self.old.words ≡ None }
        ensures sets { self.new.sets ≡ self.old.sets }
        ensures found { let shown = claim_of posed.entry in
            IfSome result (IsFoundFor (bundle_of self.old.sets) posed.entry.budget shown) }
        ensures wanted { IsWantedIf result (bundle_of self.old.sets) self.new.words }
        ensures goes_on { self.old.before_words ≡ None
            → (self.new.before_words ≡ None) × (self.new.words ≡ None) }
    {
        if posed.budget > FEW_BOARDS {
            self.make_strings(workers.alloc);
            if let Some(left) = self.before_words {
                let found = self.search_before_words(left, posed, workers);
                if found.is_some() || self.words.is_some() {
                    return found;
                }
            }
        }
        Some(self.answer(posed, posed.budget, workers))
    }

    /// What is found for a hard claim while no words are wanted. Where they are, the memory for them is taken.
    fn search_before_words<H: Threads + Sync, G: Gate + Sync>(
        &mut self,
        left: u64,
        posed: Posed<'_>,
        workers: &Workers<'_, H, G>,
    ) -> Option<Finding>
        requires posed { IsPosedOver (bundle_of self.old.sets) posed }
        requires prunes { PrunesFor (bundle_of self.old.sets).side posed.reversals.now }
        requires unprepared { self.old.words ≡ None }
        ensures sets { self.new.sets ≡ self.old.sets }
        ensures found { let shown = claim_of posed.entry in
            IfSome result (IsFoundFor (bundle_of self.old.sets) posed.entry.budget shown) }
        ensures wanted { IfSome result (λ found. self.new.words ≡ None) }
        ensures prepared { IfSome self.new.words (IsRoomFor (bundle_of self.old.sets)) }
    {
        let few = left.min(posed.budget);
        let counting = Counting {
            gate: workers.gate,
            expanded: AtomicU64::new(0),
        };
        let counted = Workers::new(workers.rt, workers.alloc, workers.count, &counting);
        let found = self.answer(posed, few, &counted);
        if few == posed.budget || !found.is_spent() {
            let expanded = counting.expanded.load(Ordering::SeqCst);
            self.before_words = Some(left.saturating_sub(expanded));
            return Some(found);
        }
        self.before_words = None;
        self.words = TableWords::room(self.sets, workers.alloc).unwrap_or(None);
        None
    }

    /// Makes the automaton of strings, where it isn't made yet.
    fn make_strings(&mut self, alloc: Global)
        ensures sets { self.new.sets ≡ self.old.sets }
        ensures prepared { self.new.words ≡ self.old.words }
        ensures before_words { self.new.before_words ≡ self.old.before_words }
    {
        if !self.is_made {
            self.strings = strings_for(alloc, self.sets.side());
            self.is_made = true;
        }
    }

    /// What is found for a claim within a budget.
    fn answer<H: Threads + Sync, G: Gate + Sync>(
        &self,
        posed: Posed<'_>,
        budget: u64,
        workers: &Workers<'_, H, G>,
    ) -> Finding
        requires posed { IsPosedOver (bundle_of self.now.sets) posed }
        requires prunes { PrunesFor (bundle_of self.now.sets).side posed.reversals.now }
        ensures { let shown = claim_of posed.entry in
            IsFoundFor (bundle_of self.now.sets) budget shown result }
    {
        let automaton = match &self.strings {
            Some(strings) => strings,
            None => posed.reversals,
        };
        answer_by(&Guide::over(self.sets, automaton), posed, budget, workers)
    }
}

/// A gate behind which the boards that are expanded are counted.
#[derive(Drop)]
struct Counting<'g, G> {
    gate: &'g G,
    expanded: AtomicU64,
}

impl<G: Gate> Gate for Counting<'_, G> {
    fn begins(&self, jobs: u64) {
        self.gate.begins(jobs);
    }

    fn before(&self, job: u64) {
        self.gate.before(job);
    }

    fn searches(&self, bound: u8) {
        self.gate.searches(bound);
    }

    fn expanded(&self, boards: u64) {
        self.expanded.fetch_add(boards, Ordering::SeqCst);
        self.gate.expanded(boards);
    }
}

/// The automaton of strings for boards of a side, where there is memory for it. One that doesn't leave out each move which takes the
/// one before it back isn't used: a search would expand more boards with it than with the automaton of reversals.
fn strings_for(alloc: Global, side: Side) -> Option<Automaton>
    ensures { IfSome result (PrunesFor side) }
{
    let draft = draft_of(alloc, LONGEST).ok()?;
    let strings = Automaton::check(alloc, side, &draft).ok()??;
    if leaves_out_reversals(&strings, draft.labels.len()) {
        Some(strings)
    } else {
        None
    }
}

/// Whether an automaton with so many states leaves out, after a move from any of them, the one that takes it back.
fn leaves_out_reversals(automaton: &Automaton, states: usize) -> bool
    requires all { length automaton.now.steps ≡ 4 * states }
    requires few { states < 2 ^ 32 }
    ensures { IsTrue result → LeavesOutReversals automaton.now.steps }
{
    for state in 0..states {
        if !leaves_out_returns(automaton, state as u32) {
            return false;
        }
    }
    true
}

/// Whether it does so after each move from a state.
fn leaves_out_returns(automaton: &Automaton, state: u32) -> bool
    requires { IsState automaton.now.steps state }
    ensures { IsTrue result → (mv : Move) → LeavesOutReturn automaton.now.steps state mv }
{
    leaves_out_return(automaton, state, Move::Up)
        && leaves_out_return(automaton, state, Move::Down)
        && leaves_out_return(automaton, state, Move::Left)
        && leaves_out_return(automaton, state, Move::Right)
}

/// Whether it does so after this move.
fn leaves_out_return(automaton: &Automaton, state: u32, mv: Move) -> bool
    requires { IsState automaton.now.steps state }
    ensures { IsTrue result → LeavesOutReturn automaton.now.steps state mv }
{
    match automaton.next(state, mv) {
        Some(next) => automaton.next(next, mv.reverse()).is_none(),
        None => true,
    }
}
