//! Drafts of automata that are made: how many strings and states they have, which strings, and that they are right.

use crate::given::{checked, draft, moves_of};
use crate::same::same_for;
use move_strings::Draft;
use std::alloc::AllocGlobal;
use std::process::Abort;

/// Whether a draft has the string of these letters among its forbidden ones, with the witness of these.
fn has<R: AllocGlobal + Abort>(rt: &R, draft: &Draft, string: &[u8], witness: &[u8]) -> bool {
    let string = moves_of(rt, string);
    let witness = moves_of(rt, witness);
    draft
        .forbidden
        .as_slice()
        .iter()
        .any(|entry| entry.string == string && entry.witness == witness)
}

/// How many moves the longest strings have, how many strings are found, and how many states.
const COUNTS: [(u8, usize, usize); 5] = [
    (0, 0, 1),
    (1, 0, 1),
    (2, 4, 5),
    (8, 40, 161),
    (12, 2540, 9223),
];

#[test]
fn as_many_strings_and_states_are_found_as_there_are(rt: HostRuntime) {
    for (longest, strings, states) in COUNTS {
        let draft = draft(&rt, longest);
        let found = (draft.forbidden.len(), draft.labels.len());
        same_for(&rt, &found, &(strings, states), &longest);
    }
}

#[test]
fn strings_of_two_moves_are_reversals(rt: HostRuntime) {
    let draft = draft(&rt, 2);
    for string in [b"UD", b"DU", b"LR", b"RL"] {
        assert!(rt; has(&rt, &draft, string, b""));
    }
}

#[test]
fn six_moves_round_a_square_have_the_effect_of_six_the_other_way(rt: HostRuntime) {
    let draft = draft(&rt, 6);
    assert!(rt; has(&rt, &draft, b"RDLURD", b"DRULDR"));
    assert!(rt; has(&rt, &draft, b"LURDLU", b"ULDRUL"));
    assert!(rt; !has(&rt, &draft, b"DRULDR", b"RDLURD"));
}

#[test]
fn drafts_are_right_on_each_side(rt: HostRuntime) {
    for longest in [0, 2, 8, 12] {
        let draft = draft(&rt, longest);
        for n in 2..6 {
            assert!(rt; checked(&rt, n, &draft).is_some());
        }
    }
}
