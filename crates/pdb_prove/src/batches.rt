//! Claims in batches: what one thread finds soon is found for all claims of a batch first, by all workers, and the rest of a batch
//! is searched for claim by claim, by all workers together.

ghost use Rattle.std.specs.Prelude.{◌≡◌, ◌+◌, ◌<◌, ◌≤◌, IfOk, MatchOption, None, length};
ghost use Rattle.std.specs.List.{All};
ghost use Rattle.claim_text.specs.Lines.{HasFewLetters};
ghost use Rattle.pdb_run.specs.Runs.{World};
ghost use Rattle.puz_search.specs.StoredGuides.{bundle_of};
ghost use Rattle.pdb_prove.specs.Steps.{AreFoundSoon, IsAskedOver, IsFoundAt, IsRoomFor, IsSameAsked, IsTelling, IsToldTo, claims_of};

use crate::answers::{Finding, answer_soon};
use crate::asked::Asked;
use crate::help::Help;
use byte_io::streams::WriteFault;
use pdb_run::Io;
use puz_search::{Guide, Sets};
use std::thread::Threads;
use work_run::{Gate, Workers};
use work_share::{Task, share};

/// How many claims a batch has.
const BATCH: usize = 1024;

/// The next claims, so many, over sets of the side of their boards.
#[derive(Drop)]
struct Batch<'a> {
    asked: &'a Asked<'a>,
    count: usize,
    sets: Sets<'a>,
    ghost few: { asked.now.told + count ≤ length asked.now.claims.items },
    ghost over: { IsAskedOver (bundle_of sets) asked.now },
}

impl<'a> Task for Batch<'a> {
    ghost use Rattle.std.specs.Prelude.{IfSome, ◌+◌};
    ghost use Rattle.puz_search.specs.StoredGuides.{bundle_of};
    ghost use Rattle.pdb_prove.specs.Steps.{IsFoundAt};

    type Outcome = Option<Finding>;

    ghost jobs = { λ batch. batch.count };

    ghost gives = { λ batch place found. let asked = batch.asked.now in
        IfSome found (IsFoundAt asked.goal (bundle_of batch.sets) asked.budget asked.claims.items
        (asked.told + place)) };

    fn count(&self) -> usize {
        self.count
    }

    fn run(&self, place: usize) -> Option<Finding> {
        let posed = self.asked.posed(self.asked.told + place);
        answer_soon(&Guide::over(self.sets, posed.reversals), posed)
    }
}

/// Answers the claims that are left, in their order, until words are wanted.
pub(crate) fn answer_all<H: Threads + Sync, G: Gate + Sync, I: Io>(
    asked: &mut Asked<'_>,
    help: &mut Help<'_>,
    workers: &Workers<'_, H, G>,
    io: &mut I,
) -> Result<(), WriteFault>
    requires few { All HasFewLetters (claims_of asked.old) }
    requires over { IsAskedOver (bundle_of help.old.sets) asked.old }
    requires unprepared { help.old.words ≡ None }
    ensures same { IsSameAsked asked.old asked.new }
    ensures sets { help.new.sets ≡ help.old.sets }
    ensures goes_on { help.old.before_words ≡ None → help.new.words ≡ None }
    ensures wanted { let all = length asked.old.claims.items in
        IfOk result (λ _. MatchOption help.new.words (all ≤ asked.new.told)
        (IsRoomFor (bundle_of help.old.sets))) }
    ensures same_streams { I.streams io.new ≡ I.streams io.old }
    ensures told { let v = bundle_of help.old.sets in (begun : World)
        → IsToldTo v begun (I.world io.old) asked.old
        → IsTelling v begun (I.world io.new) asked.new result }
{
    while asked.told < asked.claims.len() {
        answer_batch(asked, help, workers, io)?;
        if help.words.is_some() {
            return Ok(());
        }
    }
    Ok(())
}

/// Answers the claims of the next batch, until words are wanted.
fn answer_batch<H: Threads + Sync, G: Gate + Sync, I: Io>(
    asked: &mut Asked<'_>,
    help: &mut Help<'_>,
    workers: &Workers<'_, H, G>,
    io: &mut I,
) -> Result<(), WriteFault>
    requires left { asked.old.told < length asked.old.claims.items }
    requires few { All HasFewLetters (claims_of asked.old) }
    requires over { IsAskedOver (bundle_of help.old.sets) asked.old }
    requires unprepared { help.old.words ≡ None }
    ensures same { IsSameAsked asked.old asked.new }
    ensures sets { help.new.sets ≡ help.old.sets }
    ensures goes_on { help.old.before_words ≡ None
        → (help.new.before_words ≡ None) × (help.new.words ≡ None) }
    ensures wanted { IfOk result (λ _. MatchOption help.new.words (asked.old.told < asked.new.told)
        (IsRoomFor (bundle_of help.old.sets))) }
    ensures same_streams { I.streams io.new ≡ I.streams io.old }
    ensures told { let v = bundle_of help.old.sets in (begun : World)
        → IsToldTo v begun (I.world io.old) asked.old
        → IsTelling v begun (I.world io.new) asked.new result }
{
    let count = BATCH.min(asked.claims.len() - asked.told);
    let soon = found_soon(asked, count, help, workers);
    let soon = soon.as_slice();
    for place in 0..count {
        workers.gate.asks(asked.told as u64);
        if let Some(Some(found)) = soon.get(place) {
            asked.tell(found, io)?;
            continue;
        }
        match help.search(asked.posed(asked.told), workers) {
            Some(found) => asked.tell(&found, io)?,
            None => return Ok(()), // words are wanted first
        }
    }
    Ok(())
}

/// What one thread finds soon for the next claims, so many. Nothing where workers can't be started: then all of them are left to be
/// searched for one by one.
fn found_soon<H: Threads + Sync, G: Gate + Sync>(
    asked: &Asked<'_>,
    count: usize,
    help: &Help<'_>,
    workers: &Workers<'_, H, G>,
) -> Vec<Option<Finding>>
    requires few { asked.now.told + count ≤ length asked.now.claims.items }
    requires over { IsAskedOver (bundle_of help.now.sets) asked.now }
    ensures { AreFoundSoon (bundle_of help.now.sets) asked.now result.items }
{
    let batch = Batch {
        asked,
        count,
        sets: help.sets,
    };
    match share(&batch, workers) {
        Ok(soon) => soon,
        Err(_) => Vec::new(workers.alloc),
    }
}
