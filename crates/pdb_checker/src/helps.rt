//! What helps with the claims over a bundle.

ghost use Rattle.std.specs.Prelude.{◌≡◌, IfSome};
ghost use Rattle.std.proofs.Props.{props};
ghost use Rattle.puz_walk.specs.Starts.{IsStart};
ghost use Rattle.pdb_checker.specs.Searches.{IsFoundFor};

use crate::searches::{Found, Question, search};
use crate::words::{Worded, placements};
use move_strings::Automaton;
use puz_board::Side;
use puz_search::Guide;
use puz_walk::{Start, WordBundle};
use set_sum::Bundle;
use std::alloc::{AllocError, Global};
use string_make::draft_of;

/// The most moves of the strings that a search for a hard claim leaves out.
const LONGEST: u8 = 12;

/// A claim that takes more boards is hard.
const FEW_BOARDS: u64 = 1 << 16;

/// To make the words of a table takes about as long as to search over sums for one board for each so many of its placements.
const PLACEMENTS_FOR_A_BOARD: u64 = 3;

/// A bundle, the budget of each claim over it, the automata, and words. The automaton of strings is made when the first hard claim
/// wants it, and the words once hard claims have been searched for over sums for a third as many boards as the tables have
/// placements together. Where there is no memory for either, the searches go on without it.
#[derive(Drop)]
pub(crate) struct Help<'a> {
    alloc: Global,
    pub(crate) bundle: &'a Bundle<'a>,
    /// How many boards may be expanded for each claim.
    budget: u64,
    reversals: Automaton,
    /// Whether the automaton of strings was wanted already.
    is_made: bool,
    /// The automaton of strings, where it was made and there was memory for it.
    strings: Option<Automaton>,
    /// How many boards more may be expanded over sums before words are made. None where that was tried, or there can't be any.
    before_words: Option<u64>,
    /// The words of the tables, where they were made.
    worded: Option<Worded>,
    ghost one_side: { reversals.side ≡ bundle.now.side },
    ghost same_side: { IfSome strings (λ made. made.side ≡ bundle.now.side) } by { Prim.hlevel props },
    ghost same_tables: { IfSome worded (λ made. made.outline.value ≡ bundle.now) } by { Prim.hlevel props },
}

impl<'a> Help<'a> {
    /// Help over a bundle, of which the automaton of reversals alone is made yet.
    pub(crate) fn new(
        alloc: Global,
        bundle: &'a Bundle<'a>,
        budget: u64,
    ) -> Result<Help<'a>, AllocError> {
        let reversals = Automaton::of_reversals(alloc, bundle.side())?;
        Ok(Help {
            alloc,
            bundle,
            budget,
            reversals,
            is_made: false,
            strings: None,
            before_words: placements(bundle).map(|count| count / PLACEMENTS_FOR_A_BOARD),
            worded: None,
        })
    }

    /// What is found for a claim: within few boards first, without moves straight back, and then within the budget, without longer
    /// strings.
    pub(crate) fn search(&mut self, start: &Start, question: Question) -> Found
        requires { IsStart self.old.bundle.now start.now }
        ensures { IsFoundFor start.now.board question result }
    {
        let few = self.budget.min(FEW_BOARDS);
        let soon = over_sums(self.bundle, &self.reversals, start, question, few);
        if few == self.budget || !soon.is_spent() {
            return soon;
        }
        self.make_strings();
        self.search_hard(start, question)
    }

    /// What is found for a hard claim. Words are made where it wants them.
    fn search_hard(&mut self, start: &Start, question: Question) -> Found
        requires { IsStart self.old.bundle.now start.now }
        ensures { IsFoundFor start.now.board question result }
    {
        let Some(left) = self.before_words else {
            return self.search_on(start, question);
        };
        let few = self.budget.min(left);
        let found = over_sums(self.bundle, self.most(), start, question, few);
        if few == self.budget || !found.is_spent() {
            self.before_words = Some(left.saturating_sub(found.boards()));
            return found;
        }
        self.make_words();
        self.search_on(start, question)
    }

    /// What is found over words where they are made, and else over sums.
    fn search_on(&self, start: &Start, question: Question) -> Found
        requires { IsStart self.now.bundle.now start.now }
        ensures { IsFoundFor start.now.board question result }
    {
        match &self.worded {
            Some(worded) => over_words(&worded.bundle(), self.most(), start, question, self.budget),
            None => over_sums(self.bundle, self.most(), start, question, self.budget),
        }
    }

    /// Makes the words, where there is memory for them.
    fn make_words(&mut self)
        ensures { self.new.bundle ≡ self.old.bundle }
    {
        self.before_words = None;
        self.worded = Worded::of(self.alloc, self.bundle);
    }

    /// Makes the automaton of strings, where it isn't made yet.
    fn make_strings(&mut self)
        ensures { self.new.bundle ≡ self.old.bundle }
    {
        if !self.is_made {
            self.strings = strings_for(self.alloc, self.bundle.side());
            self.is_made = true;
        }
    }

    /// The automaton that leaves out most: that of strings, where it was made.
    fn most(&self) -> &Automaton
        ensures { result.now.side ≡ self.now.bundle.now.side }
    {
        match &self.strings {
            Some(strings) => strings,
            None => &self.reversals,
        }
    }
}

/// What is found over the sums of a bundle.
fn over_sums(
    bundle: &Bundle<'_>,
    automaton: &Automaton,
    start: &Start,
    question: Question,
    budget: u64,
) -> Found
    requires start { IsStart bundle.now start.now }
    requires side { automaton.now.side ≡ bundle.now.side }
    ensures { IsFoundFor start.now.board question result }
{
    search(&Guide::new(bundle, automaton), start, question, budget)
}

/// What is found over the words of a bundle.
fn over_words(
    words: &WordBundle<'_>,
    automaton: &Automaton,
    start: &Start,
    question: Question,
    budget: u64,
) -> Found
    requires start { IsStart words.now start.now }
    requires side { automaton.now.side ≡ words.now.side }
    ensures { IsFoundFor start.now.board question result }
{
    search(
        &Guide::over_words(words, automaton),
        start,
        question,
        budget,
    )
}

/// The automaton of strings for boards of a side, where there is memory for it.
fn strings_for(alloc: Global, side: Side) -> Option<Automaton>
    ensures { IfSome result (λ made. made.side ≡ side) }
{
    let draft = draft_of(alloc, LONGEST).ok()?;
    Automaton::check(alloc, side, &draft).ok()?
}
