//! The search of a part, until the letters that tell it have been read.

ghost use Rattle.std.specs.Prelude.{◌≡◌, ◌≤◌, [], IfErr, OnOk};
ghost use Rattle.puz_search.specs.Outcomes.{HasState, IsRefuted, IsStop, bound_at, is_solved_at, prefix_child_counts, prefix_children_counts, prefix_counts_at};
ghost use Rattle.puz_search.specs.Prefixes.{IsInside, part_of};

use crate::efforts::{Effort, Stop};
use crate::prefixes::Prefix;
use crate::walks::{Reached, after_move, search};
use puz_board::Move;
use puz_walk::Walk;

/// Searches a board for a solution of fewer moves than its bound, behind the letters of a prefix. Where no letter is to come, it
/// searches all moves of a board of the part, and none of another.
#[cycle(search_part)]
pub(crate) fn search_part<W: Walk>(
    reached: &mut Reached<'_, W>,
    prefix: &Prefix,
    effort: &mut Effort,
) -> Result<(), Stop>
    requires none { effort.old.letters.items ≡ [] }
    requires state { HasState reached.old }
    ensures refuted { OnOk result (IsRefuted (prefix_counts_at W.shown prefix.now reached.old)
        effort.old effort.new) }
    ensures stopped { IfErr result (λ stop. IsStop (prefix_counts_at W.shown prefix.now reached.old)
        (is_solved_at W.shown reached.old) stop effort.old effort.new) }
    ensures same { reached.new ≡ reached.old }
{
    if prefix.is_outside() {
        return Ok(());
    }
    if prefix.ahead == 0 {
        return search(reached, effort);
    }
    if reached.walk.is_goal() {
        return Err(Stop::Solved);
    }
    if effort.left == 0 {
        return Err(Stop::Spent);
    }
    effort.left -= 1;
    search_part_children(reached, prefix, effort)
}

/// Searches the boards after the moves of a board.
#[cycle(search_part)]
fn search_part_children<W: Walk>(
    reached: &mut Reached<'_, W>,
    prefix: &Prefix,
    effort: &mut Effort,
) -> Result<(), Stop>
    requires none { effort.old.letters.items ≡ [] }
    requires state { HasState reached.old }
    requires bound { 1 ≤ bound_at W.shown reached.old }
    ensures refuted { OnOk result (IsRefuted
        (prefix_children_counts W.shown prefix.now reached.old) effort.old effort.new) }
    ensures stopped { IfErr result (λ stop. IsStop
        (prefix_children_counts W.shown prefix.now reached.old)
        (is_solved_at W.shown reached.old) stop effort.old effort.new) }
    ensures same { reached.new ≡ reached.old }
{
    search_part_child(reached, Move::Up, prefix, effort)?;
    search_part_child(reached, Move::Down, prefix, effort)?;
    search_part_child(reached, Move::Left, prefix, effort)?;
    search_part_child(reached, Move::Right, prefix, effort)
}

/// Searches the board after a move, where the automaton doesn't leave it out and the move leads to a board that isn't cut off.
#[cycle(search_part)]
fn search_part_child<W: Walk>(
    reached: &mut Reached<'_, W>,
    mv: Move,
    prefix: &Prefix,
    effort: &mut Effort,
) -> Result<(), Stop>
    requires none { effort.old.letters.items ≡ [] }
    requires state { HasState reached.old }
    requires bound { 1 ≤ bound_at W.shown reached.old }
    ensures refuted { OnOk result (IsRefuted
        (prefix_child_counts W.shown prefix.now reached.old mv) effort.old effort.new) }
    ensures stopped { IfErr result (λ stop. IsStop
        (prefix_child_counts W.shown prefix.now reached.old mv)
        (is_solved_at W.shown reached.old) stop effort.old effort.new) }
    ensures same { reached.new ≡ reached.old }
{
    let Some(next) = reached.automaton.next(reached.state, mv) else {
        return Ok(());
    };
    match reached.walk.enter(mv) {
        Some(step) => {
            let state = reached.state;
            reached.state = next;
            let outcome = search_part(reached, &prefix.after(mv), effort);
            reached.state = state;
            reached.walk.leave(&step);
            after_move(outcome, mv, effort)
        }
        None => Ok(()),
    }
}
