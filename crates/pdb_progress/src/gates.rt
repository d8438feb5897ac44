//! Gates that tell how far a check or the maker of a table has come, and how fast a search goes.

use crate::files::FileShare;
use crate::makings::{Stage, TableProgress};
use crate::paces::{Effort, Pace};
use crate::shares::Share;
use crate::times::is_time;
use std::io;
use std::rt::{Clock, Env};
use std::sync::atomic::{AtomicU8, AtomicU64, AtomicUsize, Ordering};
use std::time::Instant;
use work_run::Gate;

/// The variable of the environment that asks for progress, by the value 1.
const VARIABLE: &str = "PDB_PROGRESS";

/// Tells on standard error, while workers run, what share of the jobs was begun, how far a table is made, or how fast a search goes:
/// at most once a second, and not in the first second.
///
/// A job is a block of a table or a lemma of a log. Of several checks one after the other each has its own share. From
/// the first claim on no share is told: the jobs are parts of searches then.
/// Where the clock or standard error fails nothing is told, and the work goes on.
#[derive(Drop)]
pub struct Progress<'a, 'n, R> {
    rt: &'a R,
    /// The files that are checked, in order, as far as they are known.
    files: Vec<&'n str>,
    /// How many checks have begun.
    checks: AtomicUsize,
    start: Instant,
    /// The milliseconds from the start to the last telling, 0 before the first one.
    told: AtomicU64,
    jobs: AtomicU64,
    begun: AtomicU64,
    /// How many entries of the table that is made are filled in.
    filled: AtomicU64,
    /// The number of the claim that is answered, from 1, or 0 where there is none.
    claim: AtomicU64,
    /// How many boards were expanded for it.
    claim_boards: AtomicU64,
    /// The milliseconds from the start to the claim.
    asked: AtomicU64,
    bound: AtomicU8,
    /// How many boards were expanded below this bound.
    boards: AtomicU64,
    /// The milliseconds from the start to the beginning of the search below this bound.
    began: AtomicU64,
}

impl<'a, 'n, R: Clock + Eprint> Progress<'a, 'n, R> {
    /// A gate whose first second begins now, of a run that checks these files in this order. It tells their names, where it has any.
    pub fn start(rt: &'a R, files: Vec<&'n str>) -> io::Result<Progress<'a, 'n, R>> {
        Ok(Progress {
            rt,
            files,
            checks: AtomicUsize::new(0),
            start: Instant::now(rt)?,
            told: AtomicU64::new(0),
            jobs: AtomicU64::new(0),
            begun: AtomicU64::new(0),
            filled: AtomicU64::new(0),
            claim: AtomicU64::new(0),
            claim_boards: AtomicU64::new(0),
            asked: AtomicU64::new(0),
            bound: AtomicU8::new(0),
            boards: AtomicU64::new(0),
            began: AtomicU64::new(0),
        })
    }

    /// The milliseconds since the start, where the clock tells them.
    fn millis(&self) -> Option<u64> {
        let elapsed = self.start.elapsed(self.rt).ok()?;
        u64::try_from(elapsed.as_millis()).ok()
    }

    /// The milliseconds since the start, where it is time to tell and no other worker does.
    fn due(&self) -> Option<u64> {
        let told = self.told.load(Ordering::SeqCst);
        let now = self.millis()?;
        if !is_time(told, now) {
            return None;
        }
        self.told
            .compare_exchange(told, now, Ordering::SeqCst, Ordering::SeqCst)
            .ok()?;
        Some(now)
    }

    /// The share to tell now, where it is time to tell one and no other worker does.
    fn share_due(&self, begun: u64) -> Option<Share> {
        self.due()?;
        Share::of(begun, self.jobs.load(Ordering::SeqCst))
    }

    /// The file whose check has begun last, where that is known, with its share.
    fn file_share(&self, share: Share) -> Option<FileShare<'n>> {
        let number = self.checks.load(Ordering::SeqCst);
        let file = *self.files.get(number.checked_sub(1)?)?;
        Some(FileShare {
            file,
            number,
            count: self.files.len(),
            share,
        })
    }

    /// Tells a share, with its file, where that is known.
    fn tell(&self, share: Share) {
        let _ = match self.file_share(share) {
            Some(share) => self.rt.eprintln(share),
            None => self.rt.eprintln(share),
        };
    }

    /// How far the table is made, to tell now, where it is time to tell that and no other worker does. What is made has the last
    /// name.
    fn making_due(&self, stage: Stage, done: u64, all: u64) -> Option<TableProgress<'n>> {
        self.due()?;
        Some(TableProgress {
            file: self.files.last().copied(),
            stage,
            share: Share::of(done, all)?,
        })
    }

    /// How the claim was searched for that is answered, where that took a second or more.
    fn effort(&self) -> Option<Effort> {
        let claim = self.claim.load(Ordering::SeqCst).checked_sub(1)?;
        let boards = self.claim_boards.load(Ordering::SeqCst);
        let asked = self.asked.load(Ordering::SeqCst);
        let millis = self.millis()?.saturating_sub(asked);
        if !is_time(0, millis) {
            return None;
        }
        let bound = self.bound.load(Ordering::SeqCst);
        Some(Effort(Pace::of(Some(claim), bound, boards, millis)?))
    }

    /// Tells how the claim was searched for that is answered, where that took a second or more. None is answered then.
    pub fn ends_claim(&self) {
        if let Some(effort) = self.effort() {
            let _ = self.rt.eprintln(effort);
        }
        self.claim.store(0, Ordering::SeqCst);
    }

    /// The pace to tell now, where it is time to tell one and no other worker does.
    fn pace_due(&self, boards: u64) -> Option<Pace> {
        let now = self.due()?;
        let claim = self.claim.load(Ordering::SeqCst).checked_sub(1);
        let bound = self.bound.load(Ordering::SeqCst);
        let began = self.began.load(Ordering::SeqCst);
        Pace::of(claim, bound, boards, now.saturating_sub(began))
    }
}

impl<R: Clock + Eprint> Gate for Progress<'_, '_, R> {
    fn begins(&self, jobs: u64) {
        self.checks.fetch_add(1, Ordering::SeqCst);
        self.jobs.store(jobs, Ordering::SeqCst);
        self.begun.store(0, Ordering::SeqCst);
    }

    fn before(&self, _job: u64) {
        if self.claim.load(Ordering::SeqCst) != 0 {
            return;
        }
        let begun_before = self.begun.fetch_add(1, Ordering::SeqCst);
        if let Some(share) = self.share_due(begun_before.saturating_add(1)) {
            self.tell(share);
        }
    }

    fn asks(&self, claim: u64) {
        self.ends_claim();
        self.claim_boards.store(0, Ordering::SeqCst);
        // Where the clock fails no time passes for this claim, so that nothing is told of it.
        self.asked
            .store(self.millis().unwrap_or(u64::MAX), Ordering::SeqCst);
        self.claim.store(claim.saturating_add(1), Ordering::SeqCst);
    }

    fn searches(&self, bound: u8) {
        self.bound.store(bound, Ordering::SeqCst);
        self.boards.store(0, Ordering::SeqCst);
        // Where the clock fails no time passes below this bound, so that no pace is told.
        self.began
            .store(self.millis().unwrap_or(u64::MAX), Ordering::SeqCst);
    }

    fn expanded(&self, boards: u64) {
        self.claim_boards.fetch_add(boards, Ordering::SeqCst);
        let boards_before = self.boards.fetch_add(boards, Ordering::SeqCst);
        if let Some(pace) = self.pace_due(boards_before.saturating_add(boards)) {
            let _ = self.rt.eprintln(pace);
        }
    }

    fn found(&self, moves: u8, counts: u64, all: u64) {
        if let Some(making) = self.making_due(Stage::Finding(moves), counts, all) {
            let _ = self.rt.eprintln(making);
        }
    }

    fn filled(&self, entries: u64, all: u64) {
        let filled_before = self.filled.fetch_add(entries, Ordering::SeqCst);
        let filled = filled_before.saturating_add(entries);
        if let Some(making) = self.making_due(Stage::Filling, filled, all) {
            let _ = self.rt.eprintln(making);
        }
    }
}

/// The gate of the program: it holds nobody.
#[derive(Drop)]
pub struct Watch<'a, 'n, R> {
    /// What tells how far the work has come, where that is asked for.
    progress: Option<Progress<'a, 'n, R>>,
}

impl<'a, 'n, R: Env + Clock + Eprint> Watch<'a, 'n, R> {
    /// The gate that the environment asks for, of a run that checks these files in this order: one that tells where `PDB_PROGRESS` is
    /// 1, and otherwise a quiet one.
    pub fn asked_for(rt: &'a R, files: Vec<&'n str>) -> Watch<'a, 'n, R> {
        let progress = if is_asked_for(rt) {
            Progress::start(rt, files).ok()
        } else {
            None
        };
        Watch { progress }
    }
}

impl<R: Clock + Eprint> Watch<'_, '_, R> {
    /// Tells how the last claim was searched for, where that is asked for and took a second or more.
    pub fn ends_claim(&self) {
        if let Some(progress) = &self.progress {
            progress.ends_claim();
        }
    }
}

impl<R: Clock + Eprint> Gate for Watch<'_, '_, R> {
    fn begins(&self, jobs: u64) {
        if let Some(progress) = &self.progress {
            progress.begins(jobs);
        }
    }

    fn before(&self, job: u64) {
        if let Some(progress) = &self.progress {
            progress.before(job);
        }
    }

    fn asks(&self, claim: u64) {
        if let Some(progress) = &self.progress {
            progress.asks(claim);
        }
    }

    fn searches(&self, bound: u8) {
        if let Some(progress) = &self.progress {
            progress.searches(bound);
        }
    }

    fn expanded(&self, boards: u64) {
        if let Some(progress) = &self.progress {
            progress.expanded(boards);
        }
    }

    fn found(&self, moves: u8, counts: u64, all: u64) {
        if let Some(progress) = &self.progress {
            progress.found(moves, counts, all);
        }
    }

    fn filled(&self, entries: u64, all: u64) {
        if let Some(progress) = &self.progress {
            progress.filled(entries, all);
        }
    }
}

/// Whether the environment asks for progress.
pub fn is_asked_for(rt: &impl Env) -> bool {
    let mut value = [0; 2];
    match rt.var(VARIABLE, &mut value) {
        Ok(length) => value.get(..length) == Some(b"1".as_slice()),
        Err(_) => false,
    }
}
