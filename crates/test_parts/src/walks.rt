//! Automata that read moves.

ghost use Rattle.move_strings.specs.Automata.{IsState};

use crate::given::{checked, draft, moves_of, side_of};
use crate::same::same_for;
use move_strings::Automaton;
use puz_board::Move;

/// How many of the moves the automaton reads before it leaves one out.
fn read(automaton: &Automaton, moves: &[Move]) -> usize {
    let _side = automaton.side();
    let mut state = 0;
    for (count, mv) in moves.iter().enumerate() {
        let Some(next) = automaton.next(state, *mv) else {
            return count;
        };
        state = next;
    }
    moves.len()
}

/// Letters of moves, and how many of them are read where forbidden strings have up to 2 and up to 8 moves. Six moves round a
/// square have the effect of six the other way, which come before them.
const READ: [(&[u8], usize, usize); 5] = [
    (b"UURDDL", 6, 6),
    (b"UURLD", 3, 3),
    (b"RDLURD", 6, 5),
    (b"DRULDR", 6, 6),
    (b"UURDLURD", 8, 7),
];

#[test]
fn a_forbidden_string_is_not_completed(rt: HostRuntime) {
    let reversals = Automaton::of_reversals(rt.alloc(), side_of(&rt, 4)).expect(&rt, "memory");
    let strings = checked(&rt, 4, &draft(&rt, 8)).expect(&rt, "an automaton");
    for (letters, by_reversals, by_strings) in READ {
        let moves = moves_of(&rt, letters);
        let found = (read(&reversals, &moves), read(&strings, &moves));
        same_for(&rt, &found, &(by_reversals, by_strings), &letters);
    }
}
