//! What the gate of the program tells of progress, and when.

use crate::same::{same, same_for};
use crate::stages::Stage;
use crate::workers::Good;
use pdb_progress::{Pace, Share, Watch, is_time};
use std::alloc::AllocGlobal;
use std::process::Abort;
use std::test::Fail;
use work_run::{Gate, run_jobs};

/// A stage at the time 0 that asks for progress.
fn new_stage<R: AllocGlobal + Abort>(rt: &R) -> Stage {
    let mut stage = Stage::new(rt.alloc()).expect(rt, "memory");
    stage.value = Some(b"1");
    stage
}

/// A gate that begins now, of a check of no file that is known.
fn gate_of<'a, R: AllocGlobal>(rt: &R, stage: &'a Stage) -> Watch<'a, 'static, Stage> {
    Watch::asked_for(stage, Vec::new(rt.alloc()))
}

/// These lines are told, and no more.
fn are_told(rt: &impl Abort, stage: &Stage, lines: &[&str]) {
    same(rt, &stage.told(), &(lines.len() as u64));
    for place in 0..lines.len() {
        same_for(rt, &stage.line(place), &lines[place], &place);
    }
}

#[test]
fn times_shares_and_paces_have_their_values(rt: HostRuntime) {
    assert!(rt; is_time(0, 1000) && !is_time(0, 999));
    let share = Share::of(2, 3).expect(&rt, "a share");
    same(&rt, &share.percent(), &66);
    let pace = Pace::of(None, 93, 12_000_000, 2926).expect(&rt, "a pace");
    same(&rt, &pace.boards_a_second(), &4_101_161);
}

#[test]
fn shares_are_told_once_a_second_and_not_in_the_first(rt: HostRuntime) {
    let stage = new_stage(&rt);
    let gate = gate_of(&rt, &stage);
    gate.begins(200);
    // The clock at the first job, at the second and so on.
    for millis in [0, 999, 1000, 1001, 1999, 2000, 5500, 6499, 6500] {
        stage.set_clock(millis);
        gate.before(0);
    }
    // The third, sixth, seventh and ninth of 200 jobs.
    let lines = [
        "pdb_cli: 1 percent of 200 blocks or lemmas begun",
        "pdb_cli: 3 percent of 200 blocks or lemmas begun",
        "pdb_cli: 3 percent of 200 blocks or lemmas begun",
        "pdb_cli: 4 percent of 200 blocks or lemmas begun",
    ];
    are_told(&rt, &stage, &lines);
}

#[test]
fn each_check_has_a_share_of_its_own_and_names_its_file(rt: HostRuntime) -> Result<(), Fail> {
    let stage = new_stage(&rt);
    let gate = Watch::asked_for(&stage, vec![in rt.alloc(); "t0", "t\n1"]?);
    for check in 0..3 {
        gate.begins(check + 3);
        gate.before(0);
        stage.set_clock(1000 * (check + 1));
        gate.before(1);
    }
    let lines = [
        "pdb_cli: t0, 1 of 2: 66 percent of 3 blocks or lemmas begun",
        "pdb_cli: t?1, 2 of 2: 50 percent of 4 blocks or lemmas begun",
        "pdb_cli: 40 percent of 5 blocks or lemmas begun",
    ];
    are_told(&rt, &stage, &lines);
    Ok(())
}

#[test]
fn a_search_tells_its_pace_and_no_share(rt: HostRuntime) {
    let stage = new_stage(&rt);
    let gate = gate_of(&rt, &stage);
    gate.begins(3);
    gate.asks(0);
    gate.searches(40);
    // The clock, how many boards were expanded since the last step, and how many lines are then told.
    let steps = [
        (999, 500, 0),
        (1000, 500, 1),
        (1500, 2000, 1),
        (2500, 0, 2),
        (3499, 1, 2),
    ];
    for (millis, boards, told) in steps {
        stage.set_clock(millis);
        gate.expanded(boards);
        same_for(&rt, &stage.told(), &told, &millis);
    }
    // The jobs of a search are no blocks or lemmas.
    stage.set_clock(9000);
    gate.begins(7);
    gate.before(0);
    let lines = [
        "pdb_cli: claim 0, below 40: 1000 boards, 1000 a second",
        "pdb_cli: claim 0, below 40: 3000 boards, 1200 a second",
    ];
    are_told(&rt, &stage, &lines);
}

#[test]
fn each_bound_of_each_claim_has_a_pace_of_its_own(rt: HostRuntime) {
    let stage = new_stage(&rt);
    let gate = gate_of(&rt, &stage);
    gate.asks(2);
    gate.searches(40);
    gate.expanded(600);
    stage.set_clock(1000);
    gate.searches(42);
    // No time has passed below 42.
    gate.expanded(600);
    stage.set_clock(3000);
    gate.expanded(601);
    gate.asks(4_294_967_296);
    gate.searches(255);
    stage.set_clock(5000);
    gate.expanded(9_000_000_000_000);
    let lines = [
        "pdb_cli: claim 2, below 42: 1201 boards, 600 a second",
        "pdb_cli: claim 2: 1801 boards in 3.0 seconds, 600 a second",
        "pdb_cli: claim 4294967296, below 255: 9000000000000 boards, 4500000000000 a second",
    ];
    are_told(&rt, &stage, &lines);
}

#[test]
fn a_search_without_a_claim_names_none_and_shares_are_told_behind_it(
    rt: HostRuntime,
) -> Result<(), Fail> {
    let stage = new_stage(&rt);
    let gate = Watch::asked_for(&stage, vec![in rt.alloc(); "t0", "made"]?);
    gate.begins(3);
    gate.searches(21);
    stage.set_clock(2000);
    gate.expanded(16_384);
    gate.begins(2);
    stage.set_clock(3000);
    gate.before(0);
    let lines = [
        "pdb_cli: below 21: 16384 boards, 8192 a second",
        "pdb_cli: made, 2 of 2: 50 percent of 2 blocks or lemmas begun",
    ];
    are_told(&rt, &stage, &lines);
    Ok(())
}

#[test]
fn a_table_that_is_made_is_told_and_then_its_check(rt: HostRuntime) -> Result<(), Fail> {
    let stage = new_stage(&rt);
    let gate = Watch::asked_for(&stage, vec![in rt.alloc(); "m\nade"]?);
    stage.set_clock(999);
    gate.found(1, 2, 300);
    stage.set_clock(1000);
    gate.found(2, 5, 300);
    stage.set_clock(1999);
    gate.found(3, 9, 300);
    stage.set_clock(2000);
    gate.found(4, 300, 300);
    // Entries are told as many as were filled in since the last call.
    gate.filled(40, 200);
    stage.set_clock(3000);
    gate.filled(40, 200);
    gate.begins(4);
    stage.set_clock(4000);
    gate.before(0);
    // More than there are aren't told.
    stage.set_clock(5000);
    gate.filled(121, 200);
    let lines = [
        "pdb_cli: m?ade: 1 percent of 300 counts found, those up to 2 moves",
        "pdb_cli: m?ade: 100 percent of 300 counts found, those up to 4 moves",
        "pdb_cli: m?ade: 40 percent of 200 entries filled in",
        "pdb_cli: m?ade, 1 of 1: 25 percent of 4 blocks or lemmas begun",
    ];
    are_told(&rt, &stage, &lines);
    Ok(())
}

#[test]
fn workers_together_tell_once(rt: HostRuntime) -> Result<(), Fail> {
    for workers in [1, 2, 7] {
        let stage = new_stage(&rt);
        let gate = gate_of(&rt, &stage);
        stage.set_clock(5000);
        let jobs = Good { count: 5000 };
        let fault = run_jobs(&rt, rt.alloc(), &jobs, workers, &gate)?;
        same_for(&rt, &(fault, stage.told()), &(None, 1), &workers);
        assert!(rt;
            stage
                .line(0)
                .ends_with(" percent of 5000 blocks or lemmas begun")
        );
    }
    Ok(())
}

#[test]
fn a_clock_or_a_standard_error_that_fails_stops_nothing(rt: HostRuntime) -> Result<(), Fail> {
    let jobs = Good { count: 3 };
    let mut closed = new_stage(&rt);
    closed.is_open = false;
    let gate = gate_of(&rt, &closed);
    closed.set_clock(1000);
    let fault = run_jobs(&rt, rt.alloc(), &jobs, 1, &gate)?;
    same(&rt, &(fault, closed.told()), &(None, 1));
    let mut timeless = new_stage(&rt);
    timeless.has_clock = false;
    let gate = gate_of(&rt, &timeless);
    let fault = run_jobs(&rt, rt.alloc(), &jobs, 1, &gate)?;
    same(&rt, &(fault, timeless.told()), &(None, 0));
    Ok(())
}
