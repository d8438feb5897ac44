//! Makes a table, and keeps it once it is found exact for the pattern that was asked for.

ghost use Rattle.std.specs.Prelude.{◌≡◌, ◌↔◌, ◌∷◌, [], ℕ, IsSome, IsTrue, IfErr, IfNone, IfOk, IfSome, option_map};
ghost use Rattle.puz_board.specs.Masks.{numbers_of};
ghost use Rattle.tab_file.specs.EntryBytes.{greatest_count};
ghost use Rattle.tab_file.specs.TableFiles.{IsTableFile};
ghost use Rattle.tab_file.specs.Tables.{Table};
ghost use Rattle.tab_rule.specs.Limits.{IsPassed};
ghost use Rattle.pdb_request.specs.Asked.{make_table_shown};
ghost use Rattle.pdb_run.specs.Ended.{HasItsStatus};
ghost use Rattle.pdb_run.specs.Writing.{digests_of};
ghost use Rattle.pdb_run.specs.Answers.{IsMadeBy};
ghost use Rattle.pdb_run.specs.Runs.{Ends};
ghost use Rattle.pdb_verdict.specs.Inputs.{table_file};
ghost use Rattle.pdb_verdict.specs.Verdicts.{IsAnswerTo};
ghost use Rattle.pdb_keep.specs.MakeTable.{ArePattern, IsBuilt, TellsBuild, make_table_plan};
ghost use Rattle.pdb_keep.specs.Steps.{IsCauseForBuild};

use crate::other_boards::Nothing;
use crate::spared::{replaced_unless, table_front};
use pat_place::Pattern;
use pdb_request::MakeTable;
use pdb_run::{
    Answered, Command, CommandAnswer, Digested, Digests, Ended, Input, Io, Keeping, Unanswered,
    beside, keep_and_conclude, read_inputs_and_try,
};
use pdb_verdict::{Fault, Verdict, line_of, settled, told, verify_table};
use puz_board::Side;
use puz_make::{MakeFault, draft};
use std::alloc::{AllocError, Global};
use std::sync::Wait;
use std::thread::Threads;
use tab_columns::passes;
use tab_file::{GREATEST_COUNT, view};
use work_run::{Gate, Workers};

/// The making of a table, as a command.
#[derive(Clone, Copy)]
struct Making<'n>(MakeTable<'n>);

impl<'n> Command<'n> for Making<'n> {
    ghost plan = { λ command. make_table_plan (make_table_shown command.0) };

    fn inputs(&self, alloc: Global) -> Result<Vec<Input<'n>>, AllocError> {
        Ok(Vec::new(alloc))
    }
}

/// A whole run of `make-table`: the table is kept under its name once it is found exact. That something can be kept there, and
/// nothing but such a table is replaced unasked, is tried before the table is made.
#[inline(never)] // so that the stack has the values of one command alone
pub fn run_make_table<'n, H: Threads + Wait + Sync, G: Gate + Sync, I: Io>(
    asked: &MakeTable<'n>,
    workers: &Workers<'_, H, G>,
    io: &mut I,
) -> Ended<'n, Fault>
    ensures caused { HasItsStatus result }
    ensures same_streams { I.streams io.new ≡ I.streams io.old }
    ensures ends { let plan = make_table_plan (make_table_shown asked.now) in
        Ends plan (I.world io.old) (I.world io.new) result.status }
{
    let command = Making(*asked);
    let front = table_front(asked.side, asked.mask);
    let fronts: [&[u8]; 1] = [&front];
    let keeping = Keeping {
        name: asked.out,
        replaces: replaced_unless(asked.replace, &fronts),
    };
    match read_inputs_and_try(workers.alloc, &command, keeping, &Nothing, io) {
        Ok(_inputs) => {
            let answered = answer_make_table(asked.side, asked.mask, workers);
            keep_and_conclude(workers.alloc, &command, &answered, asked.out, io)
        }
        Err(ended) => ended,
    }
}

/// The answer on a side and a mask. Want of memory never comes of what is no pattern.
fn answer_make_table<H: Threads + Wait + Sync, G: Gate + Sync>(
    side: u8,
    mask: u32,
    workers: &Workers<'_, H, G>,
) -> Answered<'static, Unanswered, Fault>
    ensures { let pattern = ArePattern side mask in
        IsMadeBy (TellsBuild side mask) pattern pattern result.answer }
{
    let build = build_table(side, mask, workers);
    let fault = build.as_ref().err().copied();
    Answered {
        answer: answer_of(build),
        fault,
    }
}

/// The answer on what is built for a side and a mask.
fn answer_of(build: Result<Option<Built>, Fault>) -> Result<CommandAnswer<'static>, Unanswered>
    ensures { (side mask : ℕ) → IfOk build (λ built.
        IfSome built (λ built. IsBuilt side mask built.file.items built.said))
        → IfOk build (λ built. IfNone built (ArePattern side mask))
        → IfErr build (IsCauseForBuild side mask)
        → IsMadeBy (TellsBuild side mask) (ArePattern side mask) (ArePattern side mask) result }
{
    let nothing = Digested::Files(&[], None);
    let build = settled(build)?;
    match build {
        Ok(Some(built)) => Ok(CommandAnswer {
            digested: nothing,
            lines: line_of(&Ok(built.said)),
            is_yes: true,
            made: Some(built.file),
            made_digest: built.digest,
        }),
        Ok(None) => Err(Unanswered::Wrong),
        Err(refused) => Ok(told(nothing, &Err(refused))),
    }
}

/// A file that was built, its digest line, where that is made already, and the verdict on it.
#[derive(Drop)]
struct Built {
    file: Vec<u8>,
    digest: Option<Digests>,
    said: Verdict,
    ghost digested: { option_map (λ d. d.items) digest
        ≡ option_map (λ _. digests_of (file.items ∷ [])) digest },
}

/// The file that is built for a side and a mask, once it is found exact; none where it is not, the maker finds that it is wrong, or
/// it gives up without a cause. Or why nothing is built: they are no pattern, or the least cost of some board is above 253.
fn build_table<H: Threads + Wait + Sync, G: Gate + Sync>(
    side: u8,
    mask: u32,
    workers: &Workers<'_, H, G>,
) -> Result<Option<Built>, Fault>
    ensures built { IfOk result (λ built.
        IfSome built (λ built. IsBuilt side mask built.file.items built.said)) }
    ensures wrong { IfOk result (λ built. IfNone built (ArePattern side mask)) }
    ensures unbuilt { IfErr result (IsCauseForBuild side mask) }
{
    let Some(pattern) = pattern_of(side, mask) else {
        return Err(Fault::K4);
    };
    let draft = match draft(workers.rt, workers.alloc, &pattern, workers.gate) {
        Ok(draft) => draft,
        Err(MakeFault::Memory) => return Err(Fault::Memory),
        Err(_) => return Ok(None),
    };
    if draft.is_passed {
        return if shows_greater_count(draft.file.as_slice()) {
            Err(Fault::K3)
        } else {
            Ok(None)
        };
    }
    let file = draft.file;
    let table = file.as_slice();
    let check = || -> Result<Verdict, Fault>
        ensures { IsAnswerTo (table_file table.entry.now) result }
    { verify_table(table, workers) };
    let (digest, answer) = beside(workers, &[], Some(table), check);
    match settled(answer)? {
        Ok(said) => Ok(Some(Built { file, digest, said })),
        Err(_) => Ok(None),
    }
}

/// Whether a table file shows that some board of its pattern has a least cost above 253: its entries are right up to that count,
/// and one is past it.
fn shows_greater_count(file: &[u8]) -> bool
    ensures { (table : Table) → IsTableFile table file.now
        → IsTrue result ↔ IsPassed greatest_count table }
{
    match view(file) {
        Ok(table) => passes(&table, GREATEST_COUNT),
        Err(_) => false,
    }
}

/// The pattern of a side and a mask, where they are one.
fn pattern_of(side: u8, mask: u32) -> Option<Pattern>
    ensures some { IsSome result ↔ ArePattern side mask }
    ensures pattern { IfSome result
        (λ pattern. pattern ≡ record { side = side; tiles = numbers_of mask }) }
{
    Pattern::of_mask(Side::of(side)?, mask)
}
