//! A run of the program in memory, where each byte is known.

ghost use Rattle.std.specs.Prelude.{map, string_bytes};
ghost use Rattle.byte_io.specs.Memory.{files_in};
ghost use Rattle.pdb_words.specs.CommandLine.{Parses, asked_of};
ghost use Rattle.pdb_program.specs.Headline.{Headline};

use crate::programs::run;
use byte_io::memory::MemShelf;
use std::alloc::Global;
use std::sync::Wait;
use std::thread::Threads;
use work_run::OpenGate;

/// What a run in memory leaves.
#[derive(Drop)]
pub struct MemoryRun {
    /// The files, with what it kept among them.
    pub files: MemShelf,
    /// What it wrote.
    pub output: Vec<u8>,
    /// Its exit status.
    pub status: u8,
}

/// Does what the words ask for, over files and an input in memory. The words leave out the program's own name. What it says
/// of a mistake in them is lost.
pub fn run_in_memory<H: Threads + Wait + Sync>(
    rt: &H,
    alloc: Global,
    words: Vec<String>,
    files: MemShelf,
    input: &[u8],
) -> MemoryRun
    // What a yes means on each command, and a no to a table: as on `run`, with nothing left to suppose of shelf and streams.
    ensures headline { let words = map string_bytes words.items in
        let before = files_in files in let later = files_in result.files in Parses words
        → Headline (asked_of words) before later input.now result.output.items result.status }
{
    let mut files = files;
    let mut reader = input;
    let mut output = Vec::new(alloc);
    let mut errors = Vec::new(alloc);
    let status = run(
        rt,
        alloc,
        words,
        &mut files,
        &mut reader,
        &mut output,
        &mut errors,
        &OpenGate,
    );
    MemoryRun {
        files,
        output,
        status,
    }
}
