//! Logs whose trees and lemmas may be only so many, or that get too little memory.

use crate::bundles::{bundle_of_made, over_one};
use crate::finding::{bound_of, expect_proved, log_made, made};
use crate::made_logs::{ALWAYS, BOARDS_OF_SIDE_3, lemmas_of};
use crate::same::{same, same_for};
use log_check::LogFault;
use puz_make::{Limits, MakeFault};
use test_samples::boards::RING;
use test_samples::files::TILES_12;

#[test]
fn a_log_has_no_more_lemmas_than_it_may(rt: HostRuntime) {
    let files = made(&rt, 3, &[14]);
    let bundle = bundle_of_made(&rt, &files, b"set 0\n");
    let near = &BOARDS_OF_SIDE_3[2];
    for lemmas in [1, 2, 10] {
        let limits = Limits { lemmas, ..ALWAYS };
        let log = log_made(&rt, &bundle, near.numbers, near.moves, &limits).expect(&rt, "a log");
        expect_proved(&rt, &bundle, near.numbers, &log, near.moves);
        same(&rt, &lemmas_of(&log), &lemmas);
    }
}

#[test]
fn a_tree_of_more_bytes_than_a_log_may_have_is_refused(rt: HostRuntime) {
    // Of the 2^30 bytes of a log ten are its header, 25 the numbers of a board, one is the bound and four are the length.
    same(&rt, &Limits::USUAL.tree, &((1 << 30) - 40));
    let files = made(&rt, 3, &[14]);
    let bundle = bundle_of_made(&rt, &files, b"set 0\n");
    let near = &BOARDS_OF_SIDE_3[2];
    for (tree, fault) in [
        (near.tree.saturating_sub(1), Some(MakeFault::K5)),
        (near.tree, None),
    ] {
        let limits = Limits { tree, ..ALWAYS };
        let log = log_made(&rt, &bundle, near.numbers, near.moves, &limits);
        if let Ok(log) = &log {
            expect_proved(&rt, &bundle, near.numbers, log, near.moves);
            assert!(rt; lemmas_of(log) > 1);
        }
        same_for(&rt, &log.err(), &fault, &tree);
    }
}

// Holds too where any one request for memory is refused: a log of one lemma then stands for that of many, or the refusal is
// answered and a later call isn't hurt.
#[test]
fn a_log_is_good_where_memory_was_refused(rt: HostRuntime) {
    let two = over_one(&rt, &TILES_12);
    let log = match log_made(&rt, &two, &RING[6], 6, &ALWAYS) {
        Err(fault) => {
            same(&rt, &fault, &MakeFault::Memory);
            log_made(&rt, &two, &RING[6], 6, &ALWAYS)
        }
        log => log,
    };
    let log = log.expect(&rt, "a log");
    let bound = match bound_of(&rt, &two, &RING[6], &log) {
        Err(LogFault::Memory) => bound_of(&rt, &two, &RING[6], &log),
        bound => bound,
    };
    same(&rt, &bound, &Ok(6));
}
