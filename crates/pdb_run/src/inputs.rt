//! The inputs of a command.

ghost use Rattle.std.specs.Prelude.{◌≡◌, ◌<◌, ◌≤◌, ◌+◌, [], length, map, vec_capacity, vec_len, IfErr, IfOk, OnOk};
ghost use Rattle.pdb_run.specs.Answers.{all_bytes};
ghost use Rattle.pdb_run.specs.Inputs.{wanted_of};
ghost use Rattle.pdb_run.specs.Io.{HasRead, HasStopped, IsNotLoaded};
ghost use Rattle.pdb_run.specs.Steps.{IsNext};

use crate::commands::Input;
use crate::io::Io;
use byte_io::streams::ReadFault;
use std::alloc::Global;

/// The first input that was not read.
#[derive(Clone, Copy)]
pub struct Unread<'a> {
    pub input: Input<'a>,
    pub why: ReadFault,
}

/// The bytes of the inputs, read in their order into a list with room for all of them. The first that fails ends it.
#[tactic(auto, using(crate::proofs::ReadingLemmas::stopped))]
pub fn load_all<'a, I: Io>(
    alloc: Global,
    wanted: &[Input<'a>],
    room: Vec<Vec<u8>>,
    io: &mut I,
) -> Result<Vec<Vec<u8>>, Unread<'a>>
    requires empty { room.items ≡ [] }
    requires room { length wanted.now ≤ vec_capacity room }
    ensures same_streams { I.streams io.new ≡ I.streams io.old }
    ensures read { let all = map wanted_of wanted.now in IfOk result
        (λ inputs. HasRead all (I.world io.old) (I.world io.new) (all_bytes inputs.items)) }
    ensures unread { let all = map wanted_of wanted.now in IfErr result
        (λ e. HasStopped all (I.world io.old) (I.world io.new) (wanted_of e.input) e.why) }
{
    let mut inputs = room;
    for input in wanted {
        if let Err(why) = load_next(alloc, input, io, &mut inputs) {
            return Err(Unread { input: *input, why });
        }
    }
    Ok(inputs)
}

/// Reads one input, and adds its bytes to those before it, behind which there is room.
fn load_next<I: Io>(
    alloc: Global,
    input: &Input<'_>,
    io: &mut I,
    inputs: &mut Vec<Vec<u8>>,
) -> Result<(), ReadFault>
    requires { vec_len inputs.old < vec_capacity inputs.old }
    ensures length { OnOk result (vec_len inputs.new ≡ vec_len inputs.old + 1) }
    ensures same_room { vec_capacity inputs.old ≤ vec_capacity inputs.new }
    ensures same_streams { I.streams io.new ≡ I.streams io.old }
    ensures read { let before = all_bytes inputs.old.items in
        let after = all_bytes inputs.new.items in
        OnOk result (IsNext (wanted_of input.now) (I.world io.old) (I.world io.new) before after) }
    ensures unread { let wanted = wanted_of input.now in
        IfErr result (IsNotLoaded wanted (I.world io.old) (I.world io.new)) }
{
    let bytes = io.load(alloc, input)?;
    let _fits = inputs.push(bytes);
    Ok(())
}
