//! A page of text: gathered, and written at once.

ghost use Rattle.std.specs.Prelude.{◌≡◌, ◌∷◌, [], map, option_map};
ghost use Rattle.pdb_run.specs.Writing.{all_bytes, all_files, digests_of, list_of, shown_byte};
ghost use Rattle.pdb_run.specs.Pages.{Adds, Finishes, Gathered};

use crate::answers::LINES_LEN;
use crate::digests::{DIGEST_LEN, DIGESTS_LEN, digest_line};
use arrayvec::ArrayVec;
use byte_io::sinks::Sink;
use byte_io::streams::{WriteFault, put_bytes};

/// How many bytes a page holds.
const PAGE_LEN: usize = 4_096;

// A page holds all digest lines that may be made beside a check, that of a file that was made, and the lines behind them.
const _: () = prove!(DIGESTS_LEN + DIGEST_LEN + LINES_LEN <= PAGE_LEN);

/// Text on its way to a writer: written where the page is full, and at its end.
#[derive(Drop)]
pub(crate) struct Page<'o, W> {
    text: ArrayVec<u8, PAGE_LEN>,
    out: &'o mut W,
}

impl<'o, W: Sink> Page<'o, W> {
    /// An empty page for a writer.
    pub(crate) fn on(out: &'o mut W) -> Page<'o, W>
        ensures same_out { result.out.ghost_name ≡ out.entry.ghost_name }
        ensures empty { Gathered W.output (W.output out.old) result [] }
    {
        Page {
            text: ArrayVec::new(),
            out,
        }
    }

    /// Writes what stands on the page, which is empty then.
    pub(crate) fn write(&mut self) -> Result<(), WriteFault>
        ensures same_out { self.new.out.ghost_name ≡ self.old.out.ghost_name }
        ensures finished { Finishes W.output self.old self.new result }
        ensures emptied { self.new.text.items ≡ [] }
    {
        let written = put_bytes(self.out, self.text.as_slice());
        self.text.clear();
        written
    }

    /// Adds a byte. Where the page is full, that is written first.
    fn add_byte(&mut self, byte: u8) -> Result<(), WriteFault>
        ensures same_out { self.new.out.ghost_name ≡ self.old.out.ghost_name }
        ensures added { Adds W.output self.old self.new (byte ∷ []) result }
    {
        if self.text.try_push(byte).is_ok() {
            return Ok(());
        }
        self.write()?;
        self.text.push(byte);
        Ok(())
    }

    /// Adds bytes.
    #[tactic(auto, using(crate::proofs::PageLemmas::byte_steps))]
    pub(crate) fn add(&mut self, bytes: &[u8]) -> Result<(), WriteFault>
        ensures same_out { self.new.out.ghost_name ≡ self.old.out.ghost_name }
        ensures added { Adds W.output self.old self.new bytes.now result }
    {
        for byte in bytes {
            self.add_byte(*byte)?;
        }
        Ok(())
    }

    /// Adds a text.
    pub(crate) fn add_text(&mut self, text: &str) -> Result<(), WriteFault>
        ensures same_out { self.new.out.ghost_name ≡ self.old.out.ghost_name }
        ensures added { Adds W.output self.old self.new text.now result }
    {
        self.add(text.as_bytes())
    }

    /// Adds a name, as a line shows it.
    #[tactic(auto, using(crate::proofs::PageLemmas::byte_steps))]
    pub(crate) fn add_name(&mut self, name: &str) -> Result<(), WriteFault>
        ensures same_out { self.new.out.ghost_name ≡ self.old.out.ghost_name }
        ensures added { Adds W.output self.old self.new (map shown_byte name.now) result }
    {
        for byte in name.as_bytes() {
            self.add_byte(shown_byte(*byte))?;
        }
        Ok(())
    }

    /// Adds the digest line of each file, and of the last one, where there is one.
    #[tactic(auto, using(crate::proofs::PageLemmas::file_steps))]
    pub(crate) fn add_digests(
        &mut self,
        files: &[Vec<u8>],
        last: Option<&[u8]>,
    ) -> Result<(), WriteFault>
        ensures same_out { self.new.out.ghost_name ≡ self.old.out.ghost_name }
        ensures added { let digests = digests_of (all_files files.now last.entry) in
            Adds W.output self.old self.new digests result }
    {
        self.add_files(files)?;
        self.add_digest(last)
    }

    /// Adds the digest line of each file.
    #[tactic(auto, using(crate::proofs::PageLemmas::file_steps))]
    fn add_files(&mut self, files: &[Vec<u8>]) -> Result<(), WriteFault>
        ensures same_out { self.new.out.ghost_name ≡ self.old.out.ghost_name }
        ensures added { let digests = digests_of (all_bytes files.now) in
            Adds W.output self.old self.new digests result }
    {
        for file in files {
            self.add(&digest_line(file.as_slice()))?;
        }
        Ok(())
    }

    /// Adds the digest line of a file, where there is one.
    pub(crate) fn add_digest(&mut self, file: Option<&[u8]>) -> Result<(), WriteFault>
        ensures same_out { self.new.out.ghost_name ≡ self.old.out.ghost_name }
        ensures added { let digest = digests_of (list_of (option_map (λ f. f.now) file.entry)) in
            Adds W.output self.old self.new digest result }
    {
        match file {
            Some(file) => self.add(&digest_line(file)),
            None => Ok(()),
        }
    }
}

/// A byte of a name, as a line shows it: `?` for a control character, so that no name ends a line.
fn shown_byte(byte: u8) -> u8
    ensures { result ≡ shown_byte byte }
{
    if byte < b' ' || byte == 0x7F {
        b'?'
    } else {
        byte
    }
}
