//! What a command is, and the inputs that it wants.

ghost use Rattle.std.specs.Prelude.{◌≡◌, ◌<◌, length, map, IfOk, OnErr};
ghost use Rattle.pdb_run.specs.Commands.{Plan};
ghost use Rattle.pdb_run.specs.Inputs.{wanted_of};

use std::alloc::{AllocError, Global};

/// An input: its name, or none for the reader, and the most bytes that it may have.
#[derive(Clone, Copy)]
pub struct Input<'a> {
    pub name: Option<&'a str>,
    pub limit: u64,
}

/// A command, with all that its words say: what it wants read, and what it may answer on what was read.
///
/// Its check stands between `read_inputs` and `conclude`, in a function of its own: so a command that waits for nobody
/// has a run that returns. One that makes a file to keep ends by `keep_and_conclude`.
pub trait Command<'n> {
    /// What it does, as far as the outside sees it.
    ghost plan: { Self → Plan };

    /// Its inputs, in order.
    fn inputs(&self, alloc: Global) -> Result<Vec<Input<'n>>, AllocError>
        ensures all { IfOk result (λ inputs. map wanted_of inputs.items ≡ (plan self.now).inputs) }
        ensures memory { OnErr result (0 < length (plan self.now).inputs) };
}
