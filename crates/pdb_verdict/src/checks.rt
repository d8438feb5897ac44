//! The check of any inputs.

ghost use Rattle.std.specs.Prelude.{◌≡◌, ◌⊎◌, Ok};
ghost use Rattle.work_run.specs.Workers.{AreWorkers};
ghost use Rattle.pdb_verdict.specs.Inputs.{given};
ghost use Rattle.pdb_verdict.specs.Verdicts.{HoldsOfSolutions, IsAnswerTo, IsTrueOf, LacksMemory};

use crate::bundles::{bundle_of, parts_of};
use crate::claims::{answer_over, begin_claim};
use crate::inputs::Inputs;
use crate::replay::verify_puzzle;
use crate::table::verify_table;
use crate::verdicts::{Fault, Verdict};
use pdb_request::LogClaim;
use std::alloc::Global;
use std::sync::Wait;
use std::thread::Threads;
use work_run::{Gate, Workers};

/// The verdict on the inputs, or the first refusal that stands: of a puzzle text `P1`, then its board's, then its moves';
/// of a table file its header's, then the least bad entry; of a log for a board the board's, each table file's in their order,
/// the sets', then the log's, where each table is folded before the next is checked, if that is asked for; of moves and a log those of a puzzle text, then from the tables on as before, then `O1`.
/// Want of memory may be answered in place of a table's verdict and all behind it, but not of what stands before: the refusals
/// of a text, and that of the first table's header.
pub fn verify<H: Threads + Wait, G: Gate + Sync>(
    rt: &H,
    alloc: Global,
    inputs: &Inputs<'_>,
    workers: u8,
    gate: &G,
) -> Result<Verdict, Fault>
    requires { AreWorkers workers }
    // A yes comes only where it is true, and always then where memory is there.
    ensures yes { (verdict : Verdict) → result ≡ Ok verdict → IsTrueOf (given inputs.now) verdict }
    ensures always { (verdict : Verdict) → IsTrueOf (given inputs.now) verdict
        → (result ≡ Ok verdict) ⊎ LacksMemory (given inputs.now) result }
    // No solution has fewer moves than a bound, and an optimum is the least number of moves of any.
    ensures holds { (verdict : Verdict) → result ≡ Ok verdict
        → HoldsOfSolutions (given inputs.now) verdict }
    // Which refusal it is.
    ensures exact { IsAnswerTo (given inputs.now) result }
{
    verify_by(inputs, &Workers::new(rt, alloc, workers, gate))
}

/// What these workers find of inputs.
#[tactic(auto, using(crate::proofs::ClaimLemmas::claim_refused))]
fn verify_by<H: Threads + Wait, G: Gate + Sync>(
    inputs: &Inputs<'_>,
    workers: &Workers<'_, H, G>,
) -> Result<Verdict, Fault>
    ensures { IsAnswerTo (given inputs.now) result }
{
    match *inputs {
        Inputs::Replay { puzzle, goal } => verify_puzzle(goal, puzzle),
        Inputs::Table { table } => verify_table(table, workers),
        Inputs::Bound {
            board,
            sets,
            log,
            tables,
            fold,
            goal,
        } => {
            let start = begin_claim(goal, LogClaim::Bound, board)?;
            let bundle = bundle_of(parts_of(tables, fold, workers), sets);
            answer_over(bundle, &start, log, workers)
        }
        Inputs::Optimal {
            puzzle,
            sets,
            log,
            tables,
            fold,
            goal,
        } => {
            let start = begin_claim(goal, LogClaim::Optimum, puzzle)?;
            let bundle = bundle_of(parts_of(tables, fold, workers), sets);
            answer_over(bundle, &start, log, workers)
        }
    }
}
