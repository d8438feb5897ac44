//! Views of log files.

ghost use Rattle.std.specs.Prelude.{◌≡◌, ◌⊎◌, ◌<◌, ◌≤◌, ◌^◌, Err, IfOk, Ok, Some, length, map, slice_get};
ghost use Rattle.puz_board.specs.Boards.{IsBoardOf};
ghost use Rattle.log_file.specs.FormFaults.{AreBoards, AreFilled, IsFormFaultOf};
ghost use Rattle.log_file.specs.FirstLemmas.{first_lemmas};
ghost use Rattle.log_file.specs.LogFiles.{IsLogFile};
ghost use Rattle.log_file.specs.Logs.{IsLog, IsVersion, Lemma, Log, most_lemmas};
ghost use Rattle.log_file.specs.StoredLogs.{lemma_viewed};
ghost use Rattle.log_file.specs.declared.faults.FormFault.{FormFault};
ghost use Rattle.log_file.specs.declared.faults.ViewFault.TheVariants.{Memory, Refused};

use crate::checks::{check_boards, check_lengths};
use crate::faults::{FormFault, ViewFault};
use crate::fronts::front;
use crate::headers::{HEADER_LEN, Header, read_header};
use puz_board::{Board, Side};
use std::alloc::{AllocError, Global};
use std::marker::Model;

/// A lemma of a log: no solution of its board is claimed to have fewer moves than its bound.
#[derive(Clone, Copy)]
pub struct LemmaView<'a> {
    /// Its board.
    pub board: Board,
    /// The number of moves.
    pub bound: u8,
    /// The bytes of the tree that is to prove it.
    pub tree: &'a [u8],
}

/// The log in the bytes of its file. What its trees prove isn't looked at.
#[derive(Drop)]
pub struct LogView<'a> {
    version: u8,
    side: Side,
    lemmas: Vec<LemmaView<'a>>,
}

impl<'a> Model for LogView<'a> {
    ghost use Rattle.log_file.specs.Logs.{IsLog, Log};

    ghost Value = { Log };

    ghost use Rattle.log_file.specs.StoredLogs.{log_shown};

    ghost view = { log_shown };

    ghost invariant = { λ view. IsLog (log_shown view) };
}

impl<'a> LogView<'a> {
    /// Views the bytes of a log file as its log. Their trees aren't copied.
    pub fn read(alloc: Global, file: &'a [u8]) -> Result<LogView<'a>, ViewFault>
        // A view comes of a log file alone, and is that of its log. Only want of memory keeps it back.
        ensures ok { IfOk result (λ log. IsLogFile log file.now) }
        ensures viewed { (log : Log) → IsLogFile log file.now
            → (result ≡ Ok log) ⊎ (result ≡ Err Memory) }

        // Which fault it is, before any memory is taken.
        ensures fault { (fault : FormFault) → result ≡ Err (Refused fault)
            → IsFormFaultOf fault file.now }
        ensures exact { (fault : FormFault) → IsFormFaultOf fault file.now
            → result ≡ Err (Refused fault) }

        // Memory is wanted for a log file alone.
        ensures memory { result ≡ Err Memory → (log : Log) × IsLogFile log file.now }
    {
        read_log(alloc, file)
    }

    /// The version of its format, byte 4 of its file: 1 or 2.
    pub fn version(&self) -> u8
        ensures version { result ≡ self.now.version }
        ensures known { IsVersion result }
    {
        self.version
    }

    /// The side of its boards.
    pub fn side(&self) -> Side
        ensures side { result ≡ self.now.side }
        ensures log { IsLog self.now }
    {
        self.side
    }

    /// How many lemmas it has: 1 to 1,048,576.
    pub fn len(&self) -> u32
        ensures count { result ≡ length self.now.lemmas }
        ensures some { 1 ≤ result }
        ensures few { result ≤ most_lemmas }
    {
        self.lemmas.len() as u32
    }

    /// The board of a lemma.
    pub fn board(&self, i: u32) -> Board
        requires { i < length self.now.lemmas }
        ensures value { (lemma : Lemma) → slice_get self.now.lemmas i ≡ Some lemma
            → result ≡ lemma.board }
        ensures board { IsBoardOf self.now.side result }
    {
        self.lemmas[i as usize].board
    }

    /// The bound of a lemma.
    pub fn bound(&self, i: u32) -> u8
        requires { i < length self.now.lemmas }
        ensures { (lemma : Lemma) → slice_get self.now.lemmas i ≡ Some lemma
            → result ≡ lemma.bound }
    {
        self.lemmas[i as usize].bound
    }

    /// The bytes of a lemma's tree.
    pub fn tree(&self, i: u32) -> &'a [u8]
        requires { i < length self.now.lemmas }
        ensures { (lemma : Lemma) → slice_get self.now.lemmas i ≡ Some lemma
            → result.now ≡ lemma.tree }
    {
        self.lemmas[i as usize].tree
    }
}

/// Views the bytes, or says why they are no log file.
fn read_log(alloc: Global, file: &[u8]) -> Result<LogView<'_>, ViewFault>
    ensures ok { IfOk result (λ log. IsLogFile log file.now) }
    ensures fault { (fault : FormFault) → result ≡ Err (Refused fault)
        → IsFormFaultOf fault file.now }
    ensures memory { result ≡ Err Memory → (log : Log) × IsLogFile log file.now }
{
    let Some(header) = read_header(file) else {
        return Err(ViewFault::Refused(FormFault::L1));
    };
    let bytes = &file[HEADER_LEN..];
    check_lengths(&header, bytes).map_err(ViewFault::Refused)?;
    check_boards(&header, bytes).map_err(ViewFault::Refused)?;
    match lemmas_in(alloc, &header, bytes) {
        Ok(lemmas) => Ok(LogView {
            version: header.version,
            side: header.side,
            lemmas,
        }),
        Err(_) => Err(ViewFault::Memory),
    }
}

/// Lists the lemmas of the bytes.
fn lemmas_in<'a>(
    alloc: Global,
    header: &Header,
    bytes: &'a [u8],
) -> Result<Vec<LemmaView<'a>>, AllocError>
    requires filled { AreFilled header.now.side header.now.count bytes.now }
    requires boards { AreBoards header.now.side header.now.count bytes.now }
    ensures lemmas { IfOk result (λ lemmas. map lemma_viewed lemmas.items
        ≡ first_lemmas header.now.side header.now.count bytes.now) }
{
    let mut lemmas = Vec::with_capacity(alloc, header.count as usize)?;
    let mut rest = bytes;
    for _ in 0..header.count {
        let Some((lemma, behind)) = front(header.side, rest) else {
            unreachable!();
        };
        let Some(board) = Board::from_cells(lemma.cells) else {
            unreachable!();
        };
        lemmas.push_reserved(LemmaView {
            board,
            bound: lemma.bound,
            tree: lemma.tree,
        });
        rest = behind;
    }
    Ok(lemmas)
}
