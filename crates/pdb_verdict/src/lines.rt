//! The lines that a verdict or a refusal is told in, as values.

ghost use Rattle.std.specs.Prelude.{◌≡◌, ◌≤◌, ◌++◌, ℕ, codes, length};
ghost use Rattle.pdb_verdict.specs.Lines.{counted, counted_for, counted_twice, exact_line, line_for, line_of, line_of_board_fault, line_of_fault, line_of_form_fault, line_of_head_fault, line_of_numbered_head_fault, line_of_log_refusal, line_of_move_fault, line_of_set_fault, line_of_table_refusal, line_of_numbered_table_refusal};

use crate::verdicts::{Fault, Verdict};
use itoa::Buffer;
use log_check::LogRefusal;
use log_file::FormFault;
use pdb_run::{AnswerLines, NO_MEMORY, lines};
use puz_board::{BoardFault, MoveFault, Side};
use puz_goal::Goal;
use set_sum::SetFault;
use tab_file::HeadFault;
use tab_rule::{Census, TableRefusal};

/// The most bytes of a text before a number: two such texts with their numbers fit into lines.
const MOST_TEXT: usize = 40;

/// The line of a verdict for the first goal, of a refusal or of want of memory.
pub fn line_of(answer: &Result<Verdict, Fault>) -> AnswerLines
    ensures { result.bytes ≡ line_of answer.now }
{
    line_for(Goal::First, answer)
}

/// The line of a verdict for a goal, of a refusal or of want of memory.
pub(crate) fn line_for(goal: Goal, answer: &Result<Verdict, Fault>) -> AnswerLines
    ensures { result.bytes ≡ line_for goal answer.now }
{
    match answer {
        Ok(Verdict::Solution(moves)) => counted_for(goal, "solution ", *moves as u64),
        Ok(Verdict::Exact(side, mask, census)) => exact_line(*side, *mask, *census),
        Ok(Verdict::Bound(bound)) => counted_for(goal, "bound ", *bound as u64),
        Ok(Verdict::Optimal(moves)) => counted_for(goal, "optimal ", *moves as u64),
        Err(fault) => fault_line(fault),
    }
}

/// A text, a number, what an answer for the goal ends with, and the line's end.
fn counted_for(goal: Goal, text: &str, number: u64) -> AnswerLines
    requires { length text.now ≤ MOST_TEXT }
    ensures { result.bytes ≡ counted_for goal text.now number }
{
    let mut digits = Buffer::new();
    with_end(text, digits.format(number), goal.words())
}

/// A text, digits, words behind them, and the line's end.
fn with_end<'t>(text: &'t str, digits: &'t str, words: &'t str) -> AnswerLines
    requires { (length text.now ≤ MOST_TEXT) × (length digits.now ≤ 20) × (length words.now ≤ 20) }
    ensures { result.bytes ≡ text.now ++ digits.now ++ words.now ++ codes "\n" }
{
    lines(&[text, digits, words, "\n"])
}

/// The line of an exact table.
fn exact_line(side: Side, mask: u32, census: Census) -> AnswerLines
    ensures { result.bytes
        ≡ exact_line side mask census.entries census.unreachable census.deepest }
{
    lines(&[
        "exact side ",
        Buffer::new().format(side.get()),
        " mask ",
        Buffer::new().format(mask),
        " entries ",
        Buffer::new().format(census.entries),
        " unreachable ",
        Buffer::new().format(census.unreachable),
        " deepest ",
        Buffer::new().format(census.deepest),
        "\n",
    ])
}

/// The line of a refusal or want of memory.
fn fault_line(fault: &Fault) -> AnswerLines
    ensures { result.bytes ≡ line_of_fault fault.now }
{
    match fault {
        Fault::P1 => lines(&["refused P1\n"]),
        Fault::Board(refused) => board_line(*refused),
        Fault::Moves(refused) => moves_line(*refused),
        Fault::Table(refused) => table_line(*refused),
        Fault::TableOf(number, refused) => numbered_table_line(*number, *refused),
        Fault::Sets(refused) => sets_line(*refused),
        Fault::Log(refused) => log_line(*refused),
        Fault::O1 { solution, bound } => {
            counted_twice(
                "refused O1 solution ",
                *solution as u64,
                " bound ",
                *bound as u64,
            )
        }
        Fault::K1(_) => lines(&["refused K1\n"]),
        Fault::K2 => lines(&["refused K2\n"]),
        Fault::K3 => lines(&["refused K3\n"]),
        Fault::K4 => lines(&["refused K4\n"]),
        Fault::K5 => lines(&["refused K5\n"]),
        Fault::Q1(line) => counted("refused Q1 at line ", *line as u64),
        Fault::Q2(line) => counted("refused Q2 at line ", *line as u64),
        Fault::Memory => lines(&[NO_MEMORY]),
    }
}

/// The line of a refused board text.
fn board_line(refused: BoardFault) -> AnswerLines
    ensures { result.bytes ≡ line_of_board_fault refused }
{
    match refused {
        BoardFault::B1(place) => counted("refused B1 at byte ", place as u64),
        BoardFault::B2(place) => counted("refused B2 at byte ", place as u64),
        BoardFault::B3(count) => counted("refused B3 count ", count as u64),
        BoardFault::B4(index) => counted("refused B4 at number ", index as u64),
        BoardFault::B5(index) => counted("refused B5 at number ", index as u64),
    }
}

/// The line of a refused moves text.
fn moves_line(refused: MoveFault) -> AnswerLines
    ensures { result.bytes ≡ line_of_move_fault refused }
{
    match refused {
        MoveFault::M1(place) => counted("refused M1 at byte ", place as u64),
        MoveFault::M2(step) => counted("refused M2 at step ", step as u64),
        MoveFault::M3 => lines(&["refused M3\n"]),
        MoveFault::M4 => lines(&["refused M4\n"]),
    }
}

/// The line of a refused table file.
fn table_line(refused: TableRefusal) -> AnswerLines
    ensures { result.bytes ≡ line_of_table_refusal refused }
{
    match refused {
        TableRefusal::Head(refused) => head_line(refused),
        TableRefusal::T7(number) => counted("refused T7 at entry ", number),
    }
}

/// The line of a refused header.
fn head_line(refused: HeadFault) -> AnswerLines
    ensures { result.bytes ≡ line_of_head_fault refused }
{
    match refused {
        HeadFault::T1 => lines(&["refused T1\n"]),
        HeadFault::T2 => lines(&["refused T2\n"]),
        HeadFault::T3 => lines(&["refused T3\n"]),
        HeadFault::T4 => lines(&["refused T4\n"]),
        HeadFault::T5 => lines(&["refused T5\n"]),
        HeadFault::T6 => lines(&["refused T6\n"]),
    }
}

/// The line of the refused table file with this number.
fn numbered_table_line(number: usize, refused: TableRefusal) -> AnswerLines
    ensures { result.bytes ≡ line_of_numbered_table_refusal number refused }
{
    match refused {
        TableRefusal::Head(refused) => counted(numbered_head_text(refused), number as u64),
        TableRefusal::T7(entry) => {
            counted_twice("refused T7 at entry ", entry, " of table ", number as u64)
        }
    }
}

/// What comes before the number of a table file whose header is refused.
fn numbered_head_text(refused: HeadFault) -> &'static str
    ensures text { (number : ℕ)
        → counted result.now number ≡ line_of_numbered_head_fault number refused }
    ensures short { length result.now ≤ MOST_TEXT }
{
    match refused {
        HeadFault::T1 => "refused T1 of table ",
        HeadFault::T2 => "refused T2 of table ",
        HeadFault::T3 => "refused T3 of table ",
        HeadFault::T4 => "refused T4 of table ",
        HeadFault::T5 => "refused T5 of table ",
        HeadFault::T6 => "refused T6 of table ",
    }
}

/// The line of refused tables and a refused set text.
fn sets_line(refused: SetFault) -> AnswerLines
    ensures { result.bytes ≡ line_of_set_fault refused }
{
    match refused {
        SetFault::S1(line) => counted("refused S1 at line ", line as u64),
        SetFault::S2(line) => counted("refused S2 at line ", line as u64),
        SetFault::S3(line) => counted("refused S3 at line ", line as u64),
        SetFault::S4(table) => counted("refused S4 at table ", table as u64),
        SetFault::S5 => lines(&["refused S5\n"]),
        SetFault::S6(line) => counted("refused S6 at line ", line as u64),
    }
}

/// The line of a refused log file.
fn log_line(refused: LogRefusal) -> AnswerLines
    ensures { result.bytes ≡ line_of_log_refusal refused }
{
    match refused {
        LogRefusal::Form(refused) => form_line(refused),
        LogRefusal::L4 => lines(&["refused L4\n"]),
        LogRefusal::L5 => lines(&["refused L5\n"]),
        LogRefusal::L6(lemma) => counted("refused L6 at lemma ", lemma as u64),
    }
}

/// The line of bytes that are no log file.
fn form_line(refused: FormFault) -> AnswerLines
    ensures { result.bytes ≡ line_of_form_fault refused }
{
    match refused {
        FormFault::L1 => lines(&["refused L1\n"]),
        FormFault::L2(lemma) => counted("refused L2 at lemma ", lemma as u64),
        FormFault::L3(lemma) => counted("refused L3 at lemma ", lemma as u64),
    }
}

/// A text, a number and the line's end.
fn counted(text: &str, number: u64) -> AnswerLines
    requires { length text.now ≤ MOST_TEXT }
    ensures { result.bytes ≡ counted text.now number }
{
    let mut digits = Buffer::new();
    lines(&[text, digits.format(number), "\n"])
}

/// Two texts, each with a number behind it, and the line's end.
fn counted_twice(text: &str, number: u64, other: &str, other_number: u64) -> AnswerLines
    requires { (length text.now ≤ MOST_TEXT) × (length other.now ≤ MOST_TEXT) }
    ensures { result.bytes ≡ counted_twice text.now number other.now other_number }
{
    lines(&[
        text,
        Buffer::new().format(number),
        other,
        Buffer::new().format(other_number),
        "\n",
    ])
}
