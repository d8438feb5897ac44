//! Checks by several workers, and gates that show them side by side.

ghost use Rattle.std.specs.Prelude.{◌≡◌, ℕ, ◌+◌, ◌*◌, ◌<◌, ◌≤◌, ◌^◌};

use crate::same::{same, same_for};
use book_live::Book;
use std::alloc::{AllocError, Global};
use std::sync::atomic::{AtomicU64, Ordering};
use std::test::Fail;
use test_samples::{HoldingGate, Log};
use work_run::{Gate, Job, OpenGate, run_jobs, work};

/// Jobs of so many places each, of which two are bad. The two may be one.
#[derive(Drop)]
struct Spoilt {
    jobs: u64,
    width: u64,
    least: u64,
    other: u64,
    ghost few: { jobs ≤ 2 ^ 32 },
    ghost small: { width * jobs ≤ 2 ^ 32 },
    ghost rises: { (job : ℕ) → width * job ≤ width * (job + 1) },
    ghost fits: { (job : ℕ) → job ≤ jobs → width * job ≤ 2 ^ 32 },
    ghost in_order: { least ≤ other },
}

impl Job for Spoilt {
    ghost use Rattle.std.specs.Prelude.{◌≡◌, ◌*◌, ◌⊎◌};
    ghost use Rattle.std.proofs.Math.Nat.{mul-zero};

    ghost jobs = { λ spoilt. spoilt.jobs };

    ghost begins = { λ spoilt job. spoilt.width * job };

    ghost bad = { λ spoilt place. (place ≡ spoilt.least) ⊎ (place ≡ spoilt.other) };

    ghost few = { λ spoilt. spoilt.few };

    ghost from_zero = { λ spoilt. mul-zero spoilt.width };

    ghost rises = { λ spoilt job _. spoilt.rises job };

    ghost small = { λ spoilt. spoilt.small };

    fn count(&self) -> u64 {
        self.jobs
    }

    fn first(&self, job: u64) -> u64 {
        self.width * job
    }

    fn run(&self, job: u64) -> Option<u64> {
        let from = self.first(job);
        let end = self.first(job + 1);
        if from <= self.least && self.least < end {
            Some(self.least)
        } else if from <= self.other && self.other < end {
            Some(self.other)
        } else {
            None
        }
    }
}

/// Jobs of one place each, all good.
#[derive(Drop)]
pub(crate) struct Good {
    pub(crate) count: u64,
    ghost few: { count ≤ 2 ^ 32 },
    ghost rises: { (job : ℕ) → job ≤ job + 1 },
}

impl Job for Good {
    ghost use Rattle.std.specs.Prelude.{refl};

    ghost jobs = { λ good. good.count };

    ghost begins = { λ _ job. job };

    ghost bad = { λ _ _. ⊥ };

    ghost few = { λ good. good.few };

    ghost from_zero = { λ _. refl };

    ghost rises = { λ good job _. good.rises job };

    ghost small = { λ good. good.few };

    fn count(&self) -> u64 {
        self.count
    }

    fn first(&self, job: u64) -> u64 {
        job
    }

    fn run(&self, _job: u64) -> Option<u64> {
        None
    }
}

const NOTED_JOBS: u64 = 101;

/// Jobs and a gate in one. To each job what was done is added up: 1 where it is entered, and 10 where it is run.
#[derive(Drop)]
struct Diary {
    done: Vec<AtomicU64>,
    /// How often a job was entered again, or run before it was entered, or run again.
    wrong: AtomicU64,
    ghost few: { 101 ≤ 2 ^ 32 },
    ghost rises: { (job : ℕ) → job ≤ job + 1 },
}

impl Diary {
    fn new(alloc: Global) -> Result<Diary, AllocError> {
        let mut done = Vec::new(alloc);
        for _ in 0..NOTED_JOBS {
            done.push(AtomicU64::new(0))?;
        }
        let wrong = AtomicU64::new(0);
        Ok(Diary { done, wrong })
    }

    /// Notes what is done to a job, to which this was done before.
    fn note(&self, job: u64, step: u64, before: u64) {
        let done = self.done.get(job as usize);
        if done.is_none_or(|done| done.fetch_add(step, Ordering::SeqCst) != before) {
            self.wrong.fetch_add(1, Ordering::SeqCst);
        }
    }
}

impl Gate for Diary {
    fn before(&self, job: u64) {
        self.note(job, 1, 0);
    }
}

impl Job for Diary {
    ghost use Rattle.std.specs.Prelude.{refl};

    ghost jobs = { λ _. 101 };

    ghost begins = { λ _ job. job };

    ghost bad = { λ _ _. ⊥ };

    ghost few = { λ diary. diary.few };

    ghost from_zero = { λ _. refl };

    ghost rises = { λ diary job _. diary.rises job };

    ghost small = { λ diary. diary.few };

    fn count(&self) -> u64 {
        NOTED_JOBS
    }

    fn first(&self, job: u64) -> u64 {
        job
    }

    fn run(&self, job: u64) -> Option<u64> {
        self.note(job, 10, 1);
        None
    }
}

/// Five jobs of ten places each, of which 12 and 43 are bad.
fn five_tens() -> Spoilt
    ensures { result.jobs ≡ 5 }
{
    Spoilt {
        jobs: 5,
        width: 10,
        least: 12,
        other: 43,
    }
}

// Run with each allocation refused in turn.
#[test]
fn the_least_of_two_bad_places_is_found_by_any_number_of_workers(
    rt: HostRuntime,
) -> Result<(), Fail> {
    let jobs = five_tens();
    for workers in [1, 2, 7, 64] {
        let fault = match run_jobs(&rt, rt.alloc(), &jobs, workers, &OpenGate) {
            Ok(fault) => fault,
            Err(_) => run_jobs(&rt, rt.alloc(), &jobs, workers, &OpenGate)?,
        };
        same_for(&rt, &fault, &Some(12), &workers);
    }
    Ok(())
}

#[test]
fn two_workers_run_two_jobs_side_by_side(rt: HostRuntime) -> Result<(), Fail> {
    let gate = HoldingGate::new(&[0], &[1]);
    let jobs = Good { count: 2 };
    let fault = run_jobs(&rt, rt.alloc(), &jobs, 2, &gate)?;
    same(&rt, &fault, &None);
    assert!(rt; gate.saw_all());
    Ok(())
}

#[test]
fn a_worker_that_is_held_leaves_all_other_jobs_to_the_other(rt: HostRuntime) -> Result<(), Fail> {
    let cases: [(u64, [u64; 3]); 4] = [
        (0, [1, 2, 3]),
        (1, [0, 2, 3]),
        (2, [0, 1, 3]),
        (3, [0, 1, 2]),
    ];
    for (held, others) in cases {
        let held = [held];
        let gate = HoldingGate::new(&held, &others);
        let jobs = Good { count: 4 };
        let fault = run_jobs(&rt, rt.alloc(), &jobs, 2, &gate)?;
        same(&rt, &fault, &None);
        assert!(rt; gate.saw_all(), "holding job {}", held[0]);
    }
    Ok(())
}

#[test]
fn jobs_above_the_seen_place_are_not_entered(rt: HostRuntime) -> Result<(), Fail> {
    let gate = Log::new(rt.alloc(), 8)?;
    let jobs = Spoilt {
        jobs: 6,
        width: 10,
        least: 30,
        other: 50,
    };
    let fault = run_jobs(&rt, rt.alloc(), &jobs, 1, &gate)?;
    same(&rt, &fault, &Some(30));
    let notes = gate.notes(rt.alloc())?;
    same(&rt, &notes.as_slice(), &[0, 1, 2, 3].as_slice());
    Ok(())
}

#[test]
fn as_many_workers_as_asked_for_run_side_by_side(rt: HostRuntime) -> Result<(), Fail> {
    for workers in [4, 64] {
        let all = (0..u64::from(workers)).collect::<Vec<u64>>(rt.alloc())?;
        let gate = HoldingGate::new(all.as_slice(), all.as_slice());
        let jobs = Good {
            count: u64::from(workers),
        };
        let fault = run_jobs(&rt, rt.alloc(), &jobs, workers, &gate)?;
        same(&rt, &fault, &None);
        assert!(rt; gate.saw_all(), "{workers} workers");
    }
    Ok(())
}

#[test]
fn each_job_is_entered_once_and_then_run_once(rt: HostRuntime) -> Result<(), Fail> {
    for workers in [1, 7] {
        let diary = Diary::new(rt.alloc())?;
        let fault = run_jobs(&rt, rt.alloc(), &diary, workers, &diary)?;
        same(&rt, &fault, &None);
        same(&rt, &diary.wrong.load(Ordering::SeqCst), &0);
        for done in &diary.done {
            same(&rt, &done.load(Ordering::SeqCst), &11);
        }
    }
    Ok(())
}

#[test]
fn one_worker_works_through_its_pass(rt: HostRuntime) -> Result<(), Fail> {
    let (book, mut passes) = Book::new(rt.alloc(), 5, 1)?;
    let pass = work(&five_tens(), &book, passes.remove(0), &OpenGate);
    assert!(rt; pass.ended());
    let passes = vec![in rt.alloc(); pass]?;
    same(&rt, &book.close(passes), &Some(12));
    Ok(())
}
