//! The check of a log.

ghost use Rattle.std.specs.Prelude.{◌≡◌, ◌⊎◌, ℕ, Err, IfErr, IfOk, List, MatchOption, Ok};
ghost use Rattle.work_run.specs.Workers.{AreWorkers};
ghost use Rattle.set_sum.specs.Bounds.{IsBounded};
ghost use Rattle.set_sum.specs.Bundles.{IsBundle};
ghost use Rattle.log_file.specs.FormFaults as form;
ghost use Rattle.log_file.specs.LogFiles.{IsLogFile};
ghost use Rattle.log_file.specs.Logs.{IsLog, Lemma};
ghost use Rattle.log_file.specs.declared.faults.FormFault.{FormFault};
ghost use Rattle.log_check.specs.GoodLogs.{AreGood, IsGoodFile, IsLogFor};
ghost use Rattle.log_check.specs.LogFaults.{IsCauseOfLogFault, IsLogRefusalOf, IsFirstBadLemma};
ghost use Rattle.log_check.specs.declared.faults.LogFault.TheVariants.{Memory, Refused};
ghost use Rattle.log_check.specs.declared.faults.LogRefusal.{LogRefusal};
ghost use Rattle.log_check.specs.declared.faults.LogRefusal.TheVariants.{Form};

use crate::faults::{LogFault, LogRefusal};
use crate::jobs::LogLemmas;
use log_file::{LogView, ViewFault};
use puz_board::Board;
use set_sum::Bundle;
use std::alloc::{AllocError, Global};
use std::sync::Wait;
use std::thread::Threads;
use work_run::{Gate, Workers, run_jobs_by};

/// The bound that a log, a certificate of an IDA* search, proves for a board over a bundle. It is checked lemma by lemma, by so
/// many workers at once.
///
/// The caller's thread is one of them. Each passes the gate once before each lemma that it checks. The lemmas may be taken
/// in any order, also before those that they cite.
pub fn check_log<R: Threads + Wait, G: Gate + Sync>(
    rt: &R,
    alloc: Global,
    bundle: &Bundle<'_>,
    file: &[u8],
    board: &Board,
    workers: u8,
    gate: &G,
) -> Result<u8, LogFault>
    requires { AreWorkers workers }

    // A bound comes of the file of a good log alone, and is that log's. Only want of memory keeps it back.
    ensures ok { IfOk result (IsGoodFile bundle.now board.now file.now) }
    ensures good { (bound : ℕ) → IsGoodFile bundle.now board.now file.now bound
        → (result ≡ Ok bound) ⊎ (result ≡ Err Memory) }

    // No solution of the board has fewer moves.
    ensures bounds { IfOk result (IsBounded board.now) }

    // Which fault it is, before any memory is taken where the bytes are no log file.
    ensures fault { IfErr result (λ fault. IsCauseOfLogFault fault bundle.now board.now file.now) }
    ensures form { (fault : FormFault) → form.IsFormFaultOf fault file.now
        → result ≡ Err (Refused (Form fault)) }
    ensures refused { (fault : LogRefusal) → IsLogRefusalOf fault bundle.now board.now file.now
        → (result ≡ Err (Refused fault)) ⊎ (result ≡ Err Memory) }
{
    check_log_by(bundle, file, board, &Workers::new(rt, alloc, workers, gate))
}

/// As `check_log`, by these workers. What else that promises follows from these clauses.
pub fn check_log_by<R: Threads + Wait, G: Gate + Sync>(
    bundle: &Bundle<'_>,
    file: &[u8],
    board: &Board,
    workers: &Workers<'_, R, G>,
) -> Result<u8, LogFault>
    ensures ok { IfOk result (IsGoodFile bundle.now board.now file.now) }
    ensures bounds { IfOk result (IsBounded board.now) }
    ensures fault { IfErr result (λ fault. IsCauseOfLogFault fault bundle.now board.now file.now) }
{
    let log = match LogView::read(workers.alloc, file) {
        Ok(log) => log,
        Err(ViewFault::Refused(fault)) => return Err(LogFault::Refused(LogRefusal::Form(fault))),
        Err(ViewFault::Memory) => return Err(LogFault::Memory),
    };
    let bound = match claimed_bound(&log, bundle, board) {
        Ok(bound) => bound,
        Err(fault) => return Err(LogFault::Refused(fault)),
    };
    match first_bad(&log, bundle, workers) {
        Ok(None) => Ok(bound),
        Ok(Some(number)) => Err(LogFault::Refused(LogRefusal::L6(number))),
        Err(_) => Err(LogFault::Memory),
    }
}

/// The bound of the last lemma of a log, which is to be one of the given board.
fn claimed_bound(log: &LogView<'_>, bundle: &Bundle<'_>, board: &Board) -> Result<u8, LogRefusal>
    ensures ok { IfOk result (λ bound. (last : Lemma)
        × IsLogFor bundle.now log.now board.now last × (last.bound ≡ bound)) }
    ensures err { IfErr result (λ fault. (file : List ℕ) → IsLogFile log.now file
        → IsLogRefusalOf fault bundle.now board.now file) }
    ensures bundle { IsBundle bundle.now }
    ensures log { IsLog log.now }
{
    if log.side() != bundle.side() || board.side() != bundle.side() {
        return Err(LogRefusal::L4);
    }
    let last = log.len() - 1;
    if log.board(last) != *board {
        return Err(LogRefusal::L5);
    }
    Ok(log.bound(last))
}

/// The number of the first lemma that isn't good, by these workers at once.
fn first_bad<R: Threads + Wait, G: Gate + Sync>(
    log: &LogView<'_>,
    bundle: &Bundle<'_>,
    workers: &Workers<'_, R, G>,
) -> Result<Option<u32>, AllocError>
    requires bundle { IsBundle bundle.now }
    requires log { IsLog log.now }
    requires side { log.now.side ≡ bundle.now.side }
    ensures { IfOk result (λ first.
        MatchOption first (AreGood bundle.now log.now) (IsFirstBadLemma bundle.now log.now)) }
{
    let lemmas = LogLemmas { log, bundle };
    match run_jobs_by(&lemmas, workers) {
        Ok(Some(number)) => Ok(Some(number as u32)),
        Ok(None) => Ok(None),
        Err(fault) => Err(fault),
    }
}
