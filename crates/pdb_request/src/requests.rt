//! What words ask for.

ghost use Rattle.std.specs.Prelude.{◌≡◌};
ghost use Rattle.pdb_request.specs.Asked.{file_names, goal_asked, named_tables, request_shown};

use puz_goal::Goal;
use std::slice;

/// What words ask for.
#[derive(Debug, PartialEq, Drop)]
pub enum Request<'a> {
    /// `replay`.
    Replay(Replay<'a>),
    /// `table`.
    TableCheck(TableCheck<'a>),
    /// `bound` and `optimal`.
    LogCheck(LogCheck<&'a str>),
    /// `make-table`.
    MakeTable(MakeTable<'a>),
    /// `solve`.
    Solve(Solve<'a, &'a str>),
    /// `prove`.
    Prove(Prove<Option<&'a str>, &'a str>),
    /// `parts`.
    JoinParts(JoinParts<Option<&'a str>, &'a str>),
}

impl<'a> Request<'a> {
    /// The table files that are named, in the order of their numbers.
    pub fn tables(&self) -> &[&'a str]
        ensures { file_names result.now ≡ named_tables (request_shown self.now) }
    {
        match self {
            Request::TableCheck(check) => slice::from_ref(&check.file),
            Request::LogCheck(check) => check.tables.as_slice(),
            Request::Solve(search) => search.tables.as_slice(),
            Request::Prove(prove) => prove.tables.as_slice(),
            Request::Replay(_) | Request::MakeTable(_) | Request::JoinParts(_) => &[],
        }
    }

    /// Where the blank is at home; in the first cell where no board is read.
    pub fn goal(&self) -> Goal
        ensures { result ≡ goal_asked (request_shown self.now) }
    {
        match self {
            Request::Replay(replay) => replay.goal,
            Request::LogCheck(check) => check.goal,
            Request::Solve(search) => search.goal,
            Request::Prove(prove) => prove.goal,
            Request::JoinParts(parts) => parts.goal,
            Request::TableCheck(_) | Request::MakeTable(_) => Goal::First,
        }
    }
}

/// Whether the moves of a puzzle text solve its board.
#[derive(Clone, Copy, Debug, PartialEq)]
pub struct Replay<'a> {
    /// The file of the puzzle text, or none for standard input.
    pub puzzle: Option<&'a str>,
    /// Where the blank is at home.
    pub goal: Goal,
}

/// Whether a table file is exact.
#[derive(Clone, Copy, Debug, PartialEq)]
pub struct TableCheck<'a> {
    pub file: &'a str,
    /// How many workers check it: 1 to 64.
    pub workers: u8,
}

/// What is claimed of a log.
#[derive(Clone, Copy, Debug, PartialEq, Eq)]
pub enum LogClaim {
    /// That it proves a bound for the board of a board text.
    Bound,
    /// That it proves the moves of a puzzle text to be the fewest.
    Optimum,
}

/// Whether a log proves what is claimed of it: the files that are read, in the order in which they are read, by their names or
/// with their bytes.
#[derive(Debug, PartialEq, Drop)]
pub struct LogCheck<T> {
    pub claim: LogClaim,
    /// What the log is to prove something of: a board text for a bound, a puzzle text for an optimum.
    pub text: T,
    /// The sets of tables that the log sums over.
    pub sets: T,
    pub log: T,
    /// The tables, in the order of their numbers: one or more.
    pub tables: Vec<T>,
    /// How many workers check the tables and the log: 1 to 64.
    pub workers: u8,
    /// Whether each table is folded once it is checked.
    pub fold: bool,
    /// Where the blank is at home.
    pub goal: Goal,
}

/// The table of a pattern, kept once it is found exact. Not every side and mask are a pattern.
#[derive(Clone, Copy, Debug, PartialEq)]
pub struct MakeTable<'a> {
    /// Of the pattern's boards.
    pub side: u8,
    /// The pattern's tiles: bit t for tile t.
    pub mask: u32,
    /// The name under which the table is kept.
    pub out: &'a str,
    /// Whether the table may take the place of any file.
    pub replace: bool,
    /// How many workers check it: 1 to 64.
    pub workers: u8,
}

/// A shortest solution of a board, and the log that proves it shortest: the files that are read, in the order in which they are
/// read, by their names or with their bytes, and the name of the one that is kept.
#[derive(Debug, PartialEq, Drop)]
pub struct Solve<'a, T> {
    /// The board text.
    pub board: T,
    /// The sets of tables that the log sums over.
    pub sets: T,
    /// The name under which the log is kept.
    pub out: &'a str,
    /// Whether the log may take the place of any file, be it one that is read.
    pub replace: bool,
    /// The tables, in the order of their numbers: one or more.
    pub tables: Vec<T>,
    /// How many workers check the tables and the log: 1 to 64.
    pub workers: u8,
    /// Whether each table is folded once it is checked.
    pub fold: bool,
    /// Where the blank is at home.
    pub goal: Goal,
    /// How many boards the search may expand: 1 to 1,000,000,000,000.
    pub budget: u64,
}

/// Bounds and optima by a search, without a log: the files that are read, in the order in which they are read, by their names or
/// with their bytes.
#[derive(Debug, PartialEq, Drop)]
pub struct Prove<C, T> {
    /// The claims, whose name is none for standard input.
    pub claims: C,
    /// The sets of tables that the search sums over.
    pub sets: T,
    /// The tables, in the order of their numbers: one or more.
    pub tables: Vec<T>,
    /// How many workers check the tables and search: 1 to 64.
    pub workers: u8,
    /// Whether each table is folded once it is checked.
    pub fold: bool,
    /// Where the blank is at home.
    pub goal: Goal,
    /// How many boards may be expanded for a claim, 1 to 1,000,000,000,000, or none for as many as it takes.
    pub budget: Option<u64>,
}

/// A bound of a board, from lines that say that its parts hold: the files that are read, in the order in which they are read, by
/// their names or with their bytes.
#[derive(Debug, PartialEq, Drop)]
pub struct JoinParts<C, T> {
    /// The board text, whose name is none for standard input.
    pub board: C,
    /// How many moves each solution is to have at least.
    pub bound: u8,
    /// How many parts the bound has: an odd number.
    pub count: u16,
    /// The files of answer lines: one or more.
    pub answers: Vec<T>,
    /// Where the blank is at home.
    pub goal: Goal,
}
