//! Why a run ended without a yes.

use crate::beginnings::Beginning;
use crate::besides::write_spot;
use crate::outs::{spared_text, unkept_text};
use crate::texts::{ended_below, write_cause};
use byte_io::shelf::Shelf;
use pdb_progress::ShownName;
use pdb_request::Request;
use pdb_run::{Beside, Cause, Spot};
use pdb_verdict::Fault;
use puz_board::MoveFault;
use puz_goal::Goal;
use set_sum::SetFault;
use std::fmt;
use std::fmt::{Display, Formatter};

/// What stands before a reason that is told before the run ends.
const AHEAD: &str = "this run can't end in a yes: ";

/// What is said of moves that don't end with the blank last at home.
const NOT_LAST: &str = "the moves don't end on the goal board, which has the blank last";

/// What a sentence names.
#[derive(Clone, Copy, Debug, PartialEq, Eq)]
enum Named<'a> {
    File(&'a str),
    StandardInput,
    LastClaim,
    Nothing,
}

/// What the sentence of a refusal speaks of.
#[derive(Clone, Copy, Debug, PartialEq, Eq)]
enum Subject {
    /// The board text, or the puzzle text that has the board.
    Board,
    /// The same, and where the board's numbers belong.
    Goal,
    /// The table with this number.
    Table(usize),
    Sets,
    Log,
    Claims,
    /// The run as a whole.
    Run,
}

/// Why a run ended without a yes. It is shown as a sentence, which names the file that it speaks of.
#[derive(Clone, Copy, Debug, PartialEq, Eq)]
pub struct Reason<'a> {
    why: Cause<'a, Fault>,
    name: Named<'a>,
    /// Why nothing is kept, where what is there tells it.
    unkept: Option<&'static str>,
    /// Where the line that is refused goes wrong, where that is known.
    spot: Option<Spot>,
    beginning: Beginning,
    /// Where the blank was taken to be at home.
    goal: Goal,
    /// Whether the run has still to end.
    is_ahead: bool,
}

impl<'a> Reason<'a> {
    /// Why the run that does what was asked ended without a yes, where a sentence tells it.
    pub fn of(asked: &Request<'a>, why: Cause<'a, Fault>) -> Option<Reason<'a>> {
        Some(Reason {
            why,
            name: named_for(asked, why)?,
            unkept: None,
            spot: None,
            beginning: Beginning::OfAny,
            goal: asked.goal(),
            is_ahead: false,
        })
    }

    /// The file that it speaks of, if that is one with a name.
    pub fn name(&self) -> Option<&'a str> {
        match self.name {
            Named::File(name) => Some(name),
            Named::StandardInput | Named::LastClaim | Named::Nothing => None,
        }
    }

    /// Whether it speaks of standard input.
    pub fn is_of_input(&self) -> bool {
        matches!(self.name, Named::StandardInput)
    }

    /// The same, of a run that did what was asked on this shelf: where nothing was kept since what is there is spared, or is
    /// read-only, that is told.
    pub fn on_shelf<S: Shelf>(self, asked: &Request<'_>, shelf: &S) -> Reason<'a> {
        let unkept = match self.why {
            Cause::Spared(name) => Some(spared_text(asked, name, shelf)),
            Cause::Unkept(name) => unkept_text(name, shelf),
            _ => None,
        };
        Reason { unkept, ..self }
    }

    /// The same, of a run of which this is told besides.
    pub fn beside(self, beside: Beside) -> Reason<'a> {
        let spot = match beside {
            Beside::Spot(spot) => Some(spot),
            Beside::Nothing | Beside::Tally(_) => None,
        };
        Reason { spot, ..self }
    }

    /// The same, where that file begins so. What is said of that is left out where it is no surprise.
    pub fn beginning(self, beginning: Beginning) -> Reason<'a> {
        let beginning = match (self.subject(), beginning) {
            (Subject::Run, _)
            | (Subject::Table(_), Beginning::OfTable)
            | (Subject::Log, Beginning::OfLog) => Beginning::OfAny,
            (Subject::Goal, Beginning::OfBoardSolvedLast | Beginning::OfBoardWithBlankLast) => {
                self.of_board(beginning)
            }
            (_, Beginning::OfBoardSolvedLast | Beginning::OfBoardWithBlankLast) => {
                Beginning::OfAny
            }
            _ => beginning,
        };
        Reason { beginning, ..self }
    }

    /// What is said of a board that begins so: that it has a solution with the blank last, where it was said to have none; or that its
    /// blank stands last. Nothing where the blank was taken to be last at home.
    fn of_board(&self, beginning: Beginning) -> Beginning {
        match (self.goal, self.why, beginning) {
            (Goal::Last, _, _) => Beginning::OfAny,
            (Goal::First, Cause::Refused(Fault::K2), _) => beginning,
            (Goal::First, _, _) => Beginning::OfBoardWithBlankLast,
        }
    }

    /// What is said in place of the sentence of its cause: where what is there is not replaced, and of moves that don't end with the blank last.
    fn own_text(&self) -> Option<&'static str> {
        match (self.goal, self.why) {
            (Goal::Last, Cause::Refused(Fault::Moves(MoveFault::M4))) => Some(NOT_LAST),
            _ => self.unkept,
        }
    }

    /// What it speaks of.
    fn subject(&self) -> Subject {
        match self.why {
            Cause::Refused(fault) => subject_of(fault),
            _ => Subject::Run,
        }
    }

    /// The same, told before the run ends.
    pub fn ahead(self) -> Reason<'a> {
        Reason {
            is_ahead: true,
            ..self
        }
    }
}

impl Display for Reason<'_> {
    fn fmt<W: fmt::Write>(&self, f: &mut Formatter<W>) -> fmt::Result {
        f.write_str("pdb_cli: ")?;
        if self.is_ahead {
            f.write_str(AHEAD)?;
        }
        match self.name {
            Named::File(name) => {
                write!(f, "{}: ", ShownName(name))?;
            }
            Named::StandardInput => f.write_str("standard input: ")?,
            Named::LastClaim => f.write_str("the last claim: ")?,
            Named::Nothing => {}
        }
        match self.own_text() {
            Some(text) => f.write_str(text)?,
            None => write_cause(f, &self.why)?,
        }
        if let Some(spot) = self.spot {
            write_spot(f, spot)?;
        }
        f.write_str(self.beginning.text())
    }
}

/// What the sentence of a cause names, where there is a sentence.
fn named_for<'a>(asked: &Request<'a>, why: Cause<'a, Fault>) -> Option<Named<'a>> {
    match why {
        Cause::Unread(name) | Cause::TooLong(name) => Some(file_or_input(name)),
        Cause::Spared(name) | Cause::Unkept(name) => Some(Named::File(name)),
        Cause::MadeWrong | Cause::NoMemory => Some(Named::Nothing),
        Cause::Refused(fault) => named_for_refusal(asked, fault),
        Cause::Unwritten | Cause::Words | Cause::Open => None,
    }
}

/// What the sentence of a refusal names. What `prove` answers to a claim has the claim in its line, and a sentence besides only
/// where this says more: how far the searches for the last claim came.
fn named_for_refusal<'a>(asked: &Request<'a>, fault: Fault) -> Option<Named<'a>> {
    let subject = subject_of(fault);
    if !matches!(asked, Request::Prove(_)) {
        return Some(name_of(asked, subject));
    }
    match (fault, subject) {
        (Fault::K1(bound), _) => ended_below(bound).map(|_| Named::LastClaim),
        (_, Subject::Goal | Subject::Run) => None,
        _ => Some(name_of(asked, subject)),
    }
}

/// What the sentence of a refusal speaks of.
fn subject_of(fault: Fault) -> Subject {
    match fault {
        Fault::P1 | Fault::Board(_) | Fault::Moves(MoveFault::M1(_) | MoveFault::M3) => {
            Subject::Board
        }
        Fault::Moves(MoveFault::M2(_) | MoveFault::M4) | Fault::K2 => Subject::Goal,
        Fault::Table(_) => Subject::Table(0),
        Fault::TableOf(number, _) => Subject::Table(number),
        Fault::Sets(SetFault::S4(number)) => Subject::Table(usize::from(number)),
        Fault::Sets(_) => Subject::Sets,
        Fault::Log(_) | Fault::O1 { .. } => Subject::Log,
        Fault::Q1(_) | Fault::Q2(_) => Subject::Claims,
        Fault::K1(_) | Fault::K3 | Fault::K4 | Fault::K5 | Fault::Memory => Subject::Run,
    }
}

/// The table with this number.
fn table_name<'a>(asked: &Request<'a>, number: usize) -> Named<'a> {
    let name = asked.tables().get(number);
    name.map_or(Named::Nothing, |name| Named::File(name))
}

/// A file, or standard input where none is named.
fn file_or_input(name: Option<&str>) -> Named<'_> {
    name.map_or(Named::StandardInput, Named::File)
}

/// What a sentence names.
fn name_of<'a>(asked: &Request<'a>, subject: Subject) -> Named<'a> {
    match (asked, subject) {
        (_, Subject::Table(number)) => table_name(asked, number),
        (Request::Replay(replay), Subject::Board | Subject::Goal) => file_or_input(replay.puzzle),
        (Request::LogCheck(check), Subject::Board | Subject::Goal) => Named::File(check.text),
        (Request::LogCheck(check), Subject::Sets) => Named::File(check.sets),
        (Request::LogCheck(check), Subject::Log) => Named::File(check.log),
        (Request::Solve(search), Subject::Board | Subject::Goal) => Named::File(search.board),
        (Request::Solve(search), Subject::Sets) => Named::File(search.sets),
        (Request::Prove(prove), Subject::Claims) => file_or_input(prove.claims),
        (Request::Prove(prove), Subject::Sets) => Named::File(prove.sets),
        (Request::JoinParts(parts), Subject::Board) => file_or_input(parts.board),
        _ => Named::Nothing,
    }
}
