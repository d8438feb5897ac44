//! The checks for C: what each call answers with 0 holds, as its clause says. One thread, and memory of the C library.
#![tactic(auto)]

ghost use Rattle.std.specs.Prelude.{◌≡◌, ◌<◌, ℕ, List, Result, false};
ghost use Rattle.std.specs.List.{All};
ghost use Rattle.puz_board.specs.BoardTexts.{Spells};
ghost use Rattle.puz_board.specs.MovesTexts.{Solves};
ghost use Rattle.set_sum.specs.Bounds.{IsBounded};
ghost use Rattle.set_sum.specs.Bundles.{ShownBundle};
ghost use Rattle.set_sum.specs.declared.faults.SetFault.{SetFault};
ghost use Rattle.puz_search.specs.Answers.{IsShorter};
ghost use Rattle.pdb_verdict.specs.FileBundles.{AreRefusedSets, IsBundleOfFiles};
ghost use Rattle.pdb_verdict.specs.Lines.{line_of_set_fault};
ghost use Rattle.puz_goal.specs.declared.goals.Goal.TheVariants.{First};
ghost use Rattle.pdb_verdict.specs.Replay.{IsReplayTold, IsSolvedPuzzle};
ghost use Rattle.pdb_verdict.specs.Table.{IsTableTold};
ghost use Rattle.pdb_verdict.specs.declared.verdicts.Fault.{Fault};
ghost use Rattle.pdb_verdict.specs.declared.verdicts.Verdict.{Verdict};
ghost use Rattle.pdb_checker.specs.Answers.{IsAnswerOf, line_in, moves_in};
ghost use Rattle.pdb_checker.specs.Claims.{AreAnswered, IsExact, files_of};

mod answers;
mod bundles;
mod claims;
mod helps;
mod searches;
mod tables;
mod words;

use crate::answers::{MISUSED, YES};
use crate::bundles::answer_sets;
use crate::claims::{BOUND, MOVES, SHORTEST, answer_all, answer_one};
use crate::tables::verify_alone;
pub use answers::Answer;
pub use bundles::{Over, TableFile};
pub use claims::Claim;
use pdb_verdict::verify_puzzle;
use puz_goal::Goal;
use std::alloc::Global;

/// Whether the moves of a puzzle text solve its board. The answer tells how many they are.
///
/// Here and below: 0 is a yes. 1: a solution has fewer moves than is claimed, and the answer has it. 2: it is refused, and the answer has
/// the line that says why. 3: memory is wanting. 4: the call doesn't fit together.
#[unsafe(no_mangle)]
pub extern "C" fn pdb_checker_replay(puzzle: &[u8], answer: &mut Answer) -> u8
    ensures yes { result ≡ 0 → IsSolvedPuzzle First puzzle.now answer.new.count }
    // Which refusal it is.
    ensures told { (found : Result Verdict Fault) × IsReplayTold First puzzle.now found
        × IsAnswerOf found answer.new × (result ≡ answer.new.status) }
{
    let found = verify_puzzle(Goal::First, puzzle);
    *answer = Answer::of(&found);
    answer.status
}

/// Whether the bytes are the file of a table in which each entry is the least number of moves that its tiles need. The answer's line
/// tells the pattern and the census. The handle is then that of these bytes, and else it stays.
#[unsafe(no_mangle)]
pub extern "C" fn pdb_checker_table<'a>(
    alloc: Global,
    file: &'a [u8],
    table: &mut TableFile<'a>,
    answer: &mut Answer,
) -> u8
    ensures yes { result ≡ 0 → IsExact table.new.file.now }
    ensures kept { result ≡ 0 → table.new.file.now ≡ file.now }
    ensures told { (found : Result Verdict Fault) × IsTableTold file.now found
        × IsAnswerOf found answer.new × (result ≡ answer.new.status) }
{
    *answer = Answer::of(&verify_alone(alloc, file));
    if answer.status != YES {
        return answer.status;
    }
    table.file = file;
    YES
}

/// Whether tables and a set text make sets of disjoint members. The answer tells how many sets.
///
/// Here and below the caller keeps that each table is a file that `pdb_checker_table` has answered with 0, unchanged since.
#[unsafe(no_mangle)]
pub extern "C" fn pdb_checker_sets(alloc: Global, over: &Over<'_>, answer: &mut Answer) -> u8
    requires known { All (λ table. IsExact table.file.now) over.now.tables.now }
    ensures yes { result ≡ 0 → (bundle : ShownBundle)
        × IsBundleOfFiles false (files_of over.now.tables.now) over.now.sets.now bundle }
    ensures refused { result ≡ 2 → (refused : SetFault)
        × AreRefusedSets false (files_of over.now.tables.now) over.now.sets.now refused
        × (line_in answer.new ≡ line_of_set_fault refused) }
{
    *answer = answer_sets(alloc, over);
    answer.status
}

/// Whether no solution of a board text has fewer moves than a bound. The answer has the moves of one that has.
#[unsafe(no_mangle)]
pub extern "C" fn pdb_checker_bound(
    alloc: Global,
    board: &[u8],
    bound: u8,
    over: &Over<'_>,
    answer: &mut Answer,
) -> u8
    requires known { All (λ table. IsExact table.file.now) over.now.tables.now }
    ensures yes { result ≡ 0 → (b : List ℕ) × Spells board.now b × IsBounded b bound }
    ensures shorter { result ≡ 1 → (b : List ℕ) × Spells board.now b
        × IsShorter b bound (moves_in answer.new) }
{
    let claim = Claim {
        board,
        moves: &[],
        bound,
        asks: BOUND,
    };
    *answer = answer_one(alloc, &claim, over);
    answer.status
}

/// Whether the moves of a moves text solve the board of a board text, and no solution has fewer. The answer tells how many they are,
/// or has the moves of a shorter one.
#[unsafe(no_mangle)]
pub extern "C" fn pdb_checker_optimal(
    alloc: Global,
    board: &[u8],
    moves: &[u8],
    over: &Over<'_>,
    answer: &mut Answer,
) -> u8
    requires known { All (λ table. IsExact table.file.now) over.now.tables.now }
    ensures yes { result ≡ 0 → (b : List ℕ) × Spells board.now b
        × Solves b moves.now answer.new.count × IsBounded b answer.new.count }
    ensures shorter { result ≡ 1 → (b : List ℕ) × (n : ℕ) × (m : ℕ) × Spells board.now b
        × Solves b moves.now n × (m < n) × Solves b (moves_in answer.new) m }
{
    let claim = Claim {
        board,
        moves,
        bound: 0,
        asks: MOVES,
    };
    *answer = answer_one(alloc, &claim, over);
    answer.status
}

/// A shortest solution of a board text: the answer has its moves, and tells how many they are.
#[unsafe(no_mangle)]
pub extern "C" fn pdb_checker_shortest(
    alloc: Global,
    board: &[u8],
    over: &Over<'_>,
    answer: &mut Answer,
) -> u8
    requires known { All (λ table. IsExact table.file.now) over.now.tables.now }
    ensures yes { result ≡ 0 → (b : List ℕ) × Spells board.now b
        × Solves b (moves_in answer.new) answer.new.count × IsBounded b answer.new.count }
{
    let claim = Claim {
        board,
        moves: &[],
        bound: 0,
        asks: SHORTEST,
    };
    *answer = answer_one(alloc, &claim, over);
    answer.status
}

/// Answers many claims over the same tables and sets, each as the three calls above do. What helps with hard ones is made once.
///
/// 0: each claim has its answer, with its own status. Otherwise the tables and sets are refused, and each answer tells that; or, 4,
/// there aren't as many answers as claims, and none is changed.
#[unsafe(no_mangle)]
pub extern "C" fn pdb_checker_claims(
    alloc: Global,
    over: &Over<'_>,
    claims: &[Claim<'_>],
    answers: &mut [Answer],
) -> u8
    requires known { All (λ table. IsExact table.file.now) over.now.tables.now }
    ensures { result ≡ 0 → AreAnswered claims.now answers.new }
{
    if claims.len() != answers.len() {
        return MISUSED;
    }
    answer_all(alloc, over, claims, answers)
}
