//! Claims that are asked, from their text to the line of the last answer.

ghost use Rattle.std.specs.Prelude.{◌≡◌, ◌+◌, ◌<◌, ◌≤◌, Bool, length, map, slice_index_or, IfNone, IfOk, IfSome, MatchResult};
ghost use Rattle.std.specs.List.{All};
ghost use Rattle.puz_board.specs.Boards.{side_of};
ghost use Rattle.set_sum.specs.Bundles.{ShownBundle};
ghost use Rattle.puz_goal.specs.Turning.{moves_for};
ghost use Rattle.claim_text.specs.Lines.{HasFewLetters, told_line};
ghost use Rattle.claim_text.specs.Shown.{asks_shown, claim_shown};
ghost use Rattle.claim_text.specs.Texts.{AreClaims};
ghost use Rattle.claim_text.specs.declared.claims.Claim.{Claim};
ghost use Rattle.pdb_run.specs.Runs.{World};
ghost use Rattle.pdb_verdict.specs.FileBundles.{IsReadBundle};
ghost use Rattle.pdb_prove.specs.Answers.{told_of, words_of};
ghost use Rattle.pdb_prove.specs.Prove.{AreReady, ClaimsFiles};
ghost use Rattle.pdb_prove.specs.Steps.{IsAskedOver, IsCauseForClaims, IsFoundAt, IsPosedOver, IsSameAsked, IsTelling, IsToldTo, PrunesFor, claims_of, of_claims};

use crate::answers::Finding;
use byte_io::streams::WriteFault;
use claim_text::{
    Asks, Claim, ClaimsFault, Line, bound_line, first_of_another_side, optimal_line, part_line,
    refused_line, shorter_line,
};
use move_strings::Automaton;
use pdb_run::{AnswerLines, Io, Tally};
use pdb_verdict::{Fault, is_solvable_last_alone, line_of};
use puz_goal::Goal;
use puz_search::Letters;
use puz_walk::Start;
use set_sum::Bundle;
use std::alloc::{AllocError, Global};

/// A claim that is asked: its goal, the start of a search from its board for the goal, the automaton of reversals of the board's
/// side, and how many boards may be expanded.
#[derive(Clone, Copy)]
pub(crate) struct Posed<'a> {
    pub(crate) goal: Goal,
    pub(crate) claim: &'a Claim<'a>,
    pub(crate) start: &'a Start,
    pub(crate) reversals: &'a Automaton,
    pub(crate) budget: u64,
}

/// Claims that are asked, and how far they are answered.
#[derive(Drop)]
pub(crate) struct Asked<'c> {
    pub(crate) claims: Vec<Claim<'c>>,
    pub(crate) goal: Goal,
    /// The start for each claim, from its board for the goal.
    starts: Vec<Start>,
    reversals: Automaton,
    /// How many boards may be expanded for each.
    budget: u64,
    /// The first claims, so many, are told.
    pub(crate) told: usize,
    /// Whether each of them is answered with a yes.
    pub(crate) is_yes: bool,
    /// Why the last of them is refused, if there is one and it is.
    pub(crate) refused: Option<Fault>,
    /// How they are answered.
    pub(crate) tally: Tally,
}

impl<'c> Asked<'c> {
    /// These claims over the tables of a bundle, none of which is told yet.
    fn over(
        alloc: Global,
        goal: Goal,
        claims: Vec<Claim<'c>>,
        budget: u64,
        bundle: &Bundle<'_>,
    ) -> Result<Asked<'c>, AllocError>
        requires { All (λ claim. side_of claim.board ≡ bundle.now.side) claims.items }
        ensures over { IfOk result (IsAskedOver bundle.now) }
        ensures claims { IfOk result (λ asked. asked.claims.items ≡ claims.entry.items) }
        ensures goal { IfOk result (λ asked. asked.goal ≡ goal) }
        ensures budget { IfOk result (λ asked. asked.budget ≡ budget) }
        ensures none { IfOk result (λ asked. (v : ShownBundle) (w : World) → IsToldTo v w w asked) }
    {
        let tally = Tally {
            claims: claims.len(),
            optima: 0,
            bounds: 0,
            parts: 0,
            refused: 0,
            solvable_last: 0,
        };
        let reversals = Automaton::of_reversals(alloc, bundle.side())?;
        let mut starts = Vec::new(alloc);
        for claim in claims.as_slice() {
            starts.push(Start::of(bundle, &goal.board_for(&claim.board)))?;
        }
        Ok(Asked {
            claims,
            goal,
            starts,
            reversals,
            budget,
            told: 0,
            is_yes: true,
            refused: None,
            tally,
        })
    }

    /// The claim with this number.
    pub(crate) fn posed(&self, number: usize) -> Posed<'_>
        requires number { number < length self.now.claims.items }
        requires starts { length self.now.starts.items ≡ length self.now.claims.items }
        ensures over { (v : ShownBundle) → IsAskedOver v self.now
            → IsPosedOver v result × PrunesFor v.side result.reversals.now }
        ensures claim { (other : Claim)
            → result.claim.now ≡ slice_index_or self.now.claims.items number other }
        ensures goal { result.goal ≡ self.now.goal }
        ensures budget { result.budget ≡ self.now.budget }
    {
        Posed {
            goal: self.goal,
            claim: &self.claims[number],
            start: &self.starts[number],
            reversals: &self.reversals,
            budget: self.budget,
        }
    }

    /// Tells what is found for the next claim.
    pub(crate) fn tell<I: Io>(&mut self, found: &Finding, io: &mut I) -> Result<(), WriteFault>
        requires next { self.old.told < length self.old.claims.items }
        requires few { All HasFewLetters (claims_of self.old) }
        ensures same { IsSameAsked self.old self.new }
        ensures next { IfOk result (λ _. self.new.told ≡ self.old.told + 1) }
        ensures same_streams { I.streams io.new ≡ I.streams io.old }
        ensures told { let claims = self.old.claims.items in (v : ShownBundle) (begun : World)
            → IsFoundAt self.old.goal v self.old.budget claims self.old.told found.now
            → IsToldTo v begun (I.world io.old) self.old
            → IsTelling v begun (I.world io.new) self.new result }
    {
        let claim = &self.claims[self.told];
        io.write_text(line_on(self.goal, claim, found).as_str())?;
        self.told += 1;
        self.is_yes &= found.is_yes();
        self.refused = found.refusal();
        self.tally = counted(self.tally, self.goal, claim, found);
        Ok(())
    }
}

/// With one claim more, for which this is found.
fn counted(tally: Tally, goal: Goal, claim: &Claim<'_>, found: &Finding) -> Tally {
    match found {
        Finding::Bound => Tally {
            bounds: tally.bounds.saturating_add(1),
            ..tally
        },
        Finding::Part => Tally {
            parts: tally.parts.saturating_add(1),
            ..tally
        },
        Finding::Optimum(_) | Finding::Shortest(..) => Tally {
            optima: tally.optima.saturating_add(1),
            ..tally
        },
        Finding::Refused(Fault::K2) if is_solvable_last_alone(goal, &claim.board) => Tally {
            refused: tally.refused.saturating_add(1),
            solvable_last: tally.solvable_last.saturating_add(1),
            ..tally
        },
        Finding::Shorter(_) | Finding::Refused(_) => Tally {
            refused: tally.refused.saturating_add(1),
            ..tally
        },
    }
}

/// The line that answers a claim for which this is found.
fn line_on(goal: Goal, claim: &Claim<'_>, found: &Finding) -> Line
    requires few { HasFewLetters (claim_shown claim.now) }
    ensures { let claim = claim.now in
        let told = told_of goal claim.board (asks_shown claim.asks) found.now in
        result.bytes ≡ told_line goal told }
{
    match (&claim.asks, found) {
        (Asks::Bound(bound), Finding::Bound) => bound_line(goal, *bound, &claim.board),
        (Asks::Part(bound, part), Finding::Part) => part_line(goal, *part, *bound, &claim.board),
        (Asks::Moves(moves), Finding::Optimum(count)) => {
            optimal_line(goal, *count, &claim.board, *moves)
        }
        (_, Finding::Shortest(count, letters)) => {
            optimal_line(
                goal,
                *count,
                &claim.board,
                turned(goal, letters.as_slice()).as_slice(),
            )
        }
        (_, Finding::Shorter(letters)) => {
            shorter_line(goal, turned(goal, letters.as_slice()).as_slice(), claim)
        }
        (_, Finding::Refused(refused)) => refused_line(goal, words_of(*refused).as_str(), claim),
        _ => refused_line(goal, "", claim),
    }
}

/// The letters of moves on a board, where these are on the board for the goal.
fn turned(goal: Goal, letters: &[u8]) -> Letters
    requires { length letters.now ≤ 255 }
    ensures { result.items ≡ moves_for goal letters.now }
{
    let Ok(mut turned) = Letters::try_from(letters) else {
        unreachable!();
    };
    goal.turn_moves(turned.as_mut_slice());
    turned
}

/// The words of a refusal: its line without the line's end.
fn words_of(refused: Fault) -> AnswerLines
    ensures { result.bytes ≡ words_of refused }
{
    let mut line = line_of(&Err(refused));
    line.truncate(line.len() - 1);
    line
}

/// Claims that are asked, and a bundle of the side of their boards: all that is to be known before anything is searched.
#[derive(Drop)]
pub(crate) struct Ready<'b, 'c> {
    pub(crate) asked: Asked<'c>,
    pub(crate) bundle: Bundle<'b>,
    ghost over: { IsAskedOver bundle asked },
}

impl<'b, 'c> Ready<'b, 'c> {
    /// The claims of a text and a bundle, where there is one, and of the side of their boards.
    pub(crate) fn of(
        goal: Goal,
        text: &[u8],
        claims: Vec<Claim<'c>>,
        budget: u64,
        bundle: Result<Bundle<'b>, Fault>,
    ) -> Result<Ready<'b, 'c>, Fault>
        requires { AreClaims text.now (map claim_shown claims.items) }
        ensures ready { (fold : Bool) (files : ClaimsFiles) → files.claims ≡ text.now
            → IsReadBundle fold files.tables files.sets bundle.entry
            → MatchResult result
            (λ ready. AreReady fold files (claims_of ready.asked) ready.bundle)
            (IsCauseForClaims fold files) }
        ensures claims { IfOk result (λ ready. ready.asked.claims.items ≡ claims.entry.items) }
        ensures goal { IfOk result (λ ready. ready.asked.goal ≡ goal) }
        ensures budget { IfOk result (λ ready. ready.asked.budget ≡ budget) }
        ensures none { IfOk result (λ ready.
            (v : ShownBundle) (w : World) → IsToldTo v w w ready.asked) }
    {
        let bundle = bundle?;
        match first_of_another_side(text, claims.as_slice(), bundle.side()) {
            None => {
                let alloc = *claims.allocator();
                let asked = Asked::over(alloc, goal, claims, budget, &bundle)?;
                Ok(Ready { asked, bundle })
            }
            Some(line) => Err(Fault::Q2(line)),
        }
    }
}

/// Why nothing is searched, where a text gives no claims.
pub(crate) fn of_claims(fault: ClaimsFault) -> Fault
    ensures { result ≡ of_claims fault }
{
    match fault {
        ClaimsFault::Q1 { line } => Fault::Q1(line),
        ClaimsFault::Memory => Fault::Memory,
    }
}
