//! The shelf, the reader and the output of a run, as one.

ghost use Rattle.std.specs.Prelude.{◌≡◌, ◌∷◌, ◌<◌, [], Some, length, map, option_map, IfErr, IfOk, IfSome, IsErrOf, IsNone, IsSome, IsSomeAnd, OnOk};
ghost use Rattle.pdb_run.specs.Answers.{answer_text};
ghost use Rattle.pdb_run.specs.Calls.{calls};
ghost use Rattle.pdb_run.specs.Inputs.{begins_as_one, begins_otherwise, failures, is_input, is_spared, wanted_of};
ghost use Rattle.pdb_run.specs.Io.{CanNotKeep, IsKept, IsLoaded, IsNotKept, IsNotLoaded, IsTried, IsWritten, Streams};
ghost use Rattle.pdb_run.specs.Runs.{World};
ghost use Rattle.pdb_run.specs.Writing.{named_line, shown_byte};

use crate::answers::CommandAnswer;
use crate::commands::Input;
use crate::writing::{put_named, say};
use byte_io::shelf::{KeepFault, Shelf};
use byte_io::sinks::Sink;
use byte_io::sources::Source;
use byte_io::streams::{ReadFault, WriteFault, put_text, read_all};
use std::alloc::Global;

/// The shelf, the reader and the output of a run.
pub trait Io {
    /// Their files and bytes, the calls on them and whether they have failed, as far as they tell that.
    ghost world: { Self → World };

    /// Which ones they are. No call changes that.
    ghost streams: { Self → Streams };

    /// The bytes of an input.
    fn load(&mut self, alloc: Global, input: &Input<'_>) -> Result<Vec<u8>, ReadFault>
        ensures same_streams { streams self.new ≡ streams self.old }
        ensures read { let wanted = wanted_of input.now in
            IfOk result (λ bytes. IsLoaded wanted (world self.old) (world self.new) bytes.items) }
        ensures unread { let wanted = wanted_of input.now in
            IfErr result (IsNotLoaded wanted (world self.old) (world self.new)) };

    /// Whether a name is that of one of these inputs, or what is under it begins in none of these ways.
    fn is_spared(&self, name: &str, inputs: &[Input<'_>], fronts: &[&[u8]]) -> bool
        ensures { let wanted = map wanted_of inputs.now in let all = map (λ front. front.now) fronts.now in
            IfSome (world self.now).files (λ told. result ≡ is_spared wanted all told name.now) };

    /// The bytes under a name, which are at most so many, where there are some.
    fn peek(&self, alloc: Global, name: &str, limit: u64) -> Result<Option<Vec<u8>>, ReadFault>
        ensures found { IfOk result (λ found. IfSome (world self.now).files
            (λ told. option_map (λ bytes. bytes.items) found ≡ told name.now)) }
        ensures over { IsErrOf result ReadFault.F2 → IfSome (world self.now).files
            (λ told. IsSomeAnd (told name.now) (λ bytes. limit < length bytes)) }
        ensures failed { IsErrOf result ReadFault.F1 → IsNone (world self.now).files }
        ensures memory { IsErrOf result ReadFault.Memory
            → IfSome (world self.now).files (λ told. IsSome (told name.now)) };

    /// Tries whether bytes can be kept under a name.
    fn try_keep(&mut self, alloc: Global, name: &str) -> Result<(), KeepFault>
        ensures same_streams { streams self.new ≡ streams self.old }
        ensures tried { OnOk result (IsTried name.now (world self.old) (world self.new)) }
        ensures failed { IfErr result (CanNotKeep name.now (world self.old) (world self.new)) };

    /// Keeps bytes under a name.
    fn keep(&mut self, alloc: Global, name: &str, bytes: &[u8]) -> Result<(), KeepFault>
        ensures same_streams { streams self.new ≡ streams self.old }
        ensures kept { let file = Some bytes.now in
            OnOk result (IsKept name.now file (world self.old) (world self.new)) }
        ensures failed { IfErr result (IsNotKept name.now (world self.old) (world self.new)) };

    /// Writes an answer.
    fn write_answer(&mut self, answer: &CommandAnswer<'_>) -> Result<(), WriteFault>
        ensures same_streams { streams self.new ≡ streams self.old }
        ensures written { let text = answer_text answer.now in
            IsWritten text (world self.old) (world self.new) result };

    /// Writes a text, a name as a line shows it, and the line's end.
    fn write_named(&mut self, text: &str, name: &str) -> Result<(), WriteFault>
        ensures same_streams { streams self.new ≡ streams self.old }
        ensures written { let line = named_line text.now (map shown_byte name.now) in
            IsWritten line (world self.old) (world self.new) result };

    /// Writes a text.
    fn write_text(&mut self, text: &str) -> Result<(), WriteFault>
        ensures same_streams { streams self.new ≡ streams self.old }
        ensures written { IsWritten text.now (world self.old) (world self.new) result };
}

/// A shelf, a reader and an output that are borrowed.
#[derive(Drop)]
pub struct BorrowedIo<'s, 'r, 'o, S, R, W> {
    pub shelf: &'s mut S,
    pub reader: &'r mut R,
    pub out: &'o mut W,
}

impl<S: Shelf, R: Source, W: Sink> Io for BorrowedIo<'_, '_, '_, S, R, W> {
    ghost world = { λ io. record {
      files = S.held io.shelf.now;
      calls = calls (S.calls io.shelf.now) (R.may_have_ended io.reader.now);
      failed = failures (S.has_failed io.shelf.now) (R.may_have_failed io.reader.now);
      reader = R.remaining io.reader.now;
      written = W.output io.out.now;
    } };

    ghost streams = { λ io. record {
      shelf = io.shelf.ghost_name;
      reader = io.reader.ghost_name;
      out = io.out.ghost_name;
    } };

    fn load(&mut self, alloc: Global, input: &Input<'_>) -> Result<Vec<u8>, ReadFault> {
        match input.name {
            Some(name) => self.shelf.load(alloc, name, input.limit),
            None => read_all(alloc, self.reader, input.limit),
        }
    }

    fn is_spared(&self, name: &str, inputs: &[Input<'_>], fronts: &[&[u8]]) -> bool {
        is_input(self.shelf, name, inputs) || begins_otherwise(self.shelf, name, fronts)
    }

    fn peek(&self, alloc: Global, name: &str, limit: u64) -> Result<Option<Vec<u8>>, ReadFault> {
        self.shelf.peek(alloc, name, limit)
    }

    fn try_keep(&mut self, alloc: Global, name: &str) -> Result<(), KeepFault> {
        self.shelf.try_keep(alloc, name)
    }

    fn keep(&mut self, alloc: Global, name: &str, bytes: &[u8]) -> Result<(), KeepFault> {
        self.shelf.keep(alloc, name, bytes)
    }

    fn write_answer(&mut self, answer: &CommandAnswer<'_>) -> Result<(), WriteFault> {
        say(answer, self.out)
    }

    fn write_named(&mut self, text: &str, name: &str) -> Result<(), WriteFault> {
        put_named(text, name, self.out)
    }

    fn write_text(&mut self, text: &str) -> Result<(), WriteFault> {
        put_text(self.out, text)
    }
}

/// Whether a name is that of one of these inputs.
fn is_input<S: Shelf>(shelf: &S, name: &str, inputs: &[Input<'_>]) -> bool
    ensures { IfSome (S.held shelf.now) (λ _. result ≡ is_input (map wanted_of inputs.now) name.now) }
{
    for input in inputs {
        if has_name(shelf, name, input) {
            return true;
        }
    }
    false
}

/// Whether an input has this name.
fn has_name<S: Shelf>(shelf: &S, name: &str, input: &Input<'_>) -> bool
    ensures { let wanted = wanted_of input.now in
        IfSome (S.held shelf.now) (λ _. result ≡ is_input (wanted ∷ []) name.now) }
{
    match input.name {
        Some(other) => shelf.are_one(name, other),
        None => false,
    }
}

/// Whether something is under a name, and begins in none of these ways.
#[tactic(auto, using(crate::proofs::SpareLemmas::begins_so))]
fn begins_otherwise<S: Shelf>(shelf: &S, name: &str, fronts: &[&[u8]]) -> bool
    ensures { let all = map (λ front. front.now) fronts.now in
        IfSome (S.held shelf.now) (λ told. result ≡ begins_otherwise told name.now all) }
{
    shelf.begins_with(name, &[]) && !begins_as_one(shelf, name, fronts)
}

/// Whether what is under a name begins in one of these ways.
fn begins_as_one<S: Shelf>(shelf: &S, name: &str, fronts: &[&[u8]]) -> bool
    ensures { let all = map (λ front. front.now) fronts.now in
        IfSome (S.held shelf.now) (λ told. result ≡ begins_as_one told name.now all) }
{
    for front in fronts {
        if shelf.begins_with(name, front) {
            return true;
        }
    }
    false
}
